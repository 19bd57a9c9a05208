// How leaves stand, what is said of a standing, and how several stand together. Assumes nothing.
use super::told;
use accept::{admit, form};
use alpha::{Kind, Refusal};
use domain::Standing::{Clash, Holds, Not};
use domain::{Ground, Standing, Together};
use sheet::table::Table;
use std::test::Fail;
use tree::Class;
use tree::node::class_of;
use tree::variable::kind_of;

// One variable u, an output of no dimension, where nothing is declared; its body is the constant 7.
const SEVEN: [u8; 72] = [
    1, 0, 0, 0, 0, 0, 0, 0, b'u', 0, 0, 0, 0, 0, 0, 0, 1, 0, 0, 0, 0, 0, 0, 0, 0, 0, 0, 0, 0, 0, 0,
    0, 0, 0, 0, 0, 0, 0, 0, 0, 0, 0, 0, 0, 0, 0, 0, 0, 1, 0, 0, 0, 0, 0, 0, 0, 1, 0, 0, 0, 0, 0, 0,
    0, 7, 0, 0, 0, 0, 0, 0, 0,
];

// How the body of the first variable stands at the origin, where the sheet is accepted and that body is a leaf.
fn leaf_body(s: &[u8]) -> Option<Standing> {
    let mut tab = Table::new();
    let Ok(total) = form(s, &mut tab) else {
        return None;
    };
    let mut inside = [false; 4096];
    let Ok(_) = admit(s, &tab, total, &mut inside) else {
        return None;
    };
    if kind_of(s, &tab, 0) == Kind::Input {
        return None;
    }
    let at = tab.body_place(0);
    let Class::Leaf = class_of(s, at) else {
        return None;
    };
    let ground = Ground {
        sheet: s,
        table: &tab,
        inside: &inside,
    };
    Some(ground.leaf_stands(at, [0; 4]))
}

#[test]
fn a_constant_holds() -> Result<(), Fail> {
    told("the constant 7", leaf_body(&SEVEN) == Some(Holds))
}

#[test]
fn faults_are_told() -> Result<(), Fail> {
    told("a gap", matches!(Not.fault(5), Err(Refusal::Gap(5))))?;
    told("a clash", matches!(Clash.fault(6), Err(Refusal::Clash(6))))?;
    told("no fault", matches!(Holds.fault(7), Ok(())))
}

#[test]
fn none_and_two_together() -> Result<(), Fail> {
    told("no branch", Together::Branches.alone() == Not)?;
    told("no operand", Together::Operands.alone() == Holds)?;
    for (a, b, branches, operands) in [
        (Not, Not, Not, Not),
        (Not, Holds, Holds, Not),
        (Clash, Not, Clash, Not),
        (Holds, Holds, Clash, Holds),
        (Holds, Clash, Clash, Clash),
    ] {
        told("two branches", Together::Branches.joined(a, b) == branches)?;
        told("two operands", Together::Operands.joined(a, b) == operands)?;
    }
    Ok(())
}
