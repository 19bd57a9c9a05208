// What the program prints: the report of an accepted run, by the two tables that it fills, or the line of a refusal. Assumes nothing.
ghost use Rattle.std.specs.Prelude.{◌*◌, ◌<◌};
ghost use Rattle.alpha.specs.Box.{size};
ghost use Rattle.alpha.specs.Holds.{variable};
ghost use Rattle.alpha.specs.Check.{total};
ghost use Rattle.alpha.specs.Verdict.{number_of, place_of};
ghost use Rattle.alpha.specs.Program as Program;
ghost use Rattle.laws.specs.Sheets.{vars_of, sheet_of};
ghost use Rattle.tree.specs.Formed.{Formed};
ghost use Rattle.domain.specs.Element.{PointOf};
ghost use Rattle.text.specs.Wrote.{WroteFew, Room};
ghost use Rattle.text.specs.Reports.{Accepted, text_of_element, text_of_line, text_of_variable, text_of_lines, text_of_report};

use super::writer::Writer;
use alpha::Refusal;
use sheet::table::Table;
use tree::variable::{dimension_of, sort_of};

// An accepted run: the sheet with its table of places, its element total, and the two tables that the run filled.
// `Formed` stands in each contract, and not as a ghost field: antt finds no proof that a formed sheet is a proposition. What writes the
// total requires `Accepted`.
#[derive(Clone, Copy)]
pub struct Report<'a> {
    pub sheet: &'a [u8],
    pub tab: &'a Table,
    pub total: usize,
    pub codes: &'a [u8; 4096],
    pub values: &'a [i32; 4096],
}

impl Report<'_> {
    // The name of variable v, and the coordinates of the i-th point of its box: at most 8 bytes and 4 times 7.
    fn element(&self, v: usize, i: usize, w: &mut Writer<'_>)
        requires formed { Formed self.now.sheet.now self.now.tab.now }
        requires point { PointOf self.now.sheet.now v i }
        requires room { Room 36 w.old }
        ensures { WroteFew 36 w.old w.new (text_of_element self.now v i) }
    {
        let place = self.tab.record_place(v);
        let z = points::point(self.sheet, place, i);
        let n = dimension_of(self.sheet, self.tab, v);
        w.name(self.sheet, place);
        w.coordinates(&z[..n]);
    }

    // The whole line, with the outcome that the tables have: 15 bytes more at most.
    pub fn line(&self, v: usize, i: usize, w: &mut Writer<'_>)
        requires formed { Formed self.now.sheet.now self.now.tab.now }
        requires point { PointOf self.now.sheet.now v i }
        requires room { Room 51 w.old }
        ensures { WroteFew 51 w.old w.new (text_of_line self.now v i) }
    {
        let n = self.tab.first_element(v) + i;
        let o = integer::decoded(self.codes[n], i64::from(self.values[n]));
        let sort = sort_of(self.sheet, self.tab, v);
        self.element(v, i, w);
        w.outcome(sort, o);
        w.byte(b'\n');
    }

    // The lines of the elements of variable v, each of at most 51 bytes.
    fn variable_lines(&self, v: usize, w: &mut Writer<'_>)
        requires formed { Formed self.now.sheet.now self.now.tab.now }
        requires known { v < vars_of self.now.sheet.now }
        requires room { Room (51 * size (variable (sheet_of self.now.sheet.now) v).head.box) w.old }
        ensures { WroteFew (51 * size (variable (sheet_of self.now.sheet.now) v).head.box) w.old w.new (text_of_variable self.now v) }
    {
        let first = self.tab.first_element(v);
        let next = self.tab.first_element(v + 1);
        for i in 0..next - first {
            self.line(v, i, w);
        }
    }

    // The lines of all elements.
    fn lines(&self, w: &mut Writer<'_>)
        requires formed { Formed self.now.sheet.now self.now.tab.now }
        requires room { Room (51 * total (sheet_of self.now.sheet.now)) w.old }
        ensures { WroteFew (51 * total (sheet_of self.now.sheet.now)) w.old w.new (text_of_lines self.now) }
    {
        for v in 0..self.tab.variable_count() {
            self.variable_lines(v, w);
        }
    }

    // The whole report: at most 14 bytes for the opening and 4,096 lines.
    pub fn write(&self, w: &mut Writer<'_>)
        requires accepted { Accepted self.now }
        requires room { Room 208910 w.old }
        ensures { WroteFew 208910 w.old w.new (text_of_report self.now) }
    {
        w.word(b"accepted ");
        w.natural(self.total as u64);
        w.byte(b'\n');
        self.lines(w);
    }
}

// The line of a refusal: its number and its place, each of at most 20 digits.
#[tactic(auto, using(crate::proofs::Numbers::few_digits))]
pub fn refusal(why: Refusal, w: &mut Writer<'_>)
    requires { Room 56 w.old }
    ensures { WroteFew 56 w.old w.new (Program.refusal (number_of why) (place_of why)) }
{
    w.word(b"refused ");
    w.natural(why.number());
    w.word(b" place ");
    w.natural(why.place() as u64);
    w.byte(b'\n');
}
