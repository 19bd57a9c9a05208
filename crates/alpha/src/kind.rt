// The kinds, sorts, relations and operators of a sheet, each from its number in a field, which the reader has tested. What a case means is
// said by specs/Kinds.antt; a number that no case has is the first case's, as in the definitions. Assumes nothing.

ghost use Rattle.std.specs.Prelude.{◌≡◌};
ghost use Rattle.alpha.specs.Read.{kind_of, sort_of, relation_of, unary_of, binary_of};
ghost use Rattle.alpha.specs.Kinds.{kind_meant, sort_meant, relation_meant, unary_meant, binary_meant};

// The kind of a variable.
#[derive(Clone, Copy, PartialEq, Eq)]
pub enum Kind {
    Input,
    Output,
    Local,
}

// The type of a variable or an expression.
#[derive(Clone, Copy, PartialEq, Eq)]
pub enum Sort {
    Integer,
    Boolean,
}

// A constraint's relation to 0.
#[derive(Clone, Copy, PartialEq, Eq)]
pub enum Relation {
    AtLeast,
    Equal,
}

// - not
#[derive(Clone, Copy, PartialEq, Eq)]
pub enum Unary {
    Negate,
    Complement,
}

// + - * div mod min max = <> < <= > >= and or xor
#[derive(Clone, Copy, PartialEq, Eq)]
pub enum Binary {
    Plus,
    Minus,
    Times,
    Quotient,
    Remainder,
    Least,
    Most,
    Same,
    Differ,
    Under,
    UpTo,
    Over,
    From,
    Both,
    Either,
    One,
}

// The kind with this number.
impl From<usize> for Kind {
    ghost from_gives = { λ number it. kind_meant it ≡ kind_of number };

    fn from(number: usize) -> Kind {
        match number {
            1 => Kind::Output,
            2 => Kind::Local,
            _ => Kind::Input,
        }
    }
}

// The type with this number.
impl From<usize> for Sort {
    ghost from_gives = { λ number it. sort_meant it ≡ sort_of number };

    fn from(number: usize) -> Sort {
        match number {
            1 => Sort::Boolean,
            _ => Sort::Integer,
        }
    }
}

// The relation with this number.
impl From<usize> for Relation {
    ghost from_gives = { λ number it. relation_meant it ≡ relation_of number };

    fn from(number: usize) -> Relation {
        match number {
            1 => Relation::Equal,
            _ => Relation::AtLeast,
        }
    }
}

// The unary operator with this number.
impl From<usize> for Unary {
    ghost from_gives = { λ number it. unary_meant it ≡ unary_of number };

    fn from(number: usize) -> Unary {
        match number {
            1 => Unary::Complement,
            _ => Unary::Negate,
        }
    }
}

// The binary operator with this number.
impl From<usize> for Binary {
    ghost from_gives = { λ number it. binary_meant it ≡ binary_of number };

    fn from(number: usize) -> Binary {
        match number {
            1 => Binary::Minus,
            2 => Binary::Times,
            3 => Binary::Quotient,
            4 => Binary::Remainder,
            5 => Binary::Least,
            6 => Binary::Most,
            7 => Binary::Same,
            8 => Binary::Differ,
            9 => Binary::Under,
            10 => Binary::UpTo,
            11 => Binary::Over,
            12 => Binary::From,
            13 => Binary::Both,
            14 => Binary::Either,
            15 => Binary::One,
            _ => Binary::Plus,
        }
    }
}
