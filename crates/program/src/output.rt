// The text of an accepted run. The sheet is checked once more for its table of places, which the run does not hand out.
// Assumes nothing.
ghost use Rattle.std.specs.Prelude.{◌≡◌};
ghost use Rattle.alpha.specs.Answer as Answer;
ghost use Rattle.alpha.specs.Check.{check};
ghost use Rattle.alpha.specs.Promise.{total_of};
ghost use Rattle.laws.specs.Sheets.{sheet_of};
ghost use Rattle.text.specs.Wrote.{WroteFew, Room};
ghost use Rattle.text.specs.Lines.{report_in};

use sheet::table::Table;
use text::report::Report;
use text::writer::Writer;

// The report of the run that answered `total` and filled the tables.
pub fn report(
    sheet: &[u8],
    total: usize,
    codes: &[u8; 4096],
    values: &[i32; 4096],
    w: &mut Writer<'_>,
)
    requires { (Answer.accepted total ≡ total_of (check sheet.now)) × Room 208910 w.old }
    ensures { WroteFew 208910 w.old w.new (report_in (sheet_of sheet.now) codes.now values.now) × (check sheet.now ≡ Answer.accepted (sheet_of sheet.now)) }
{
    let mut tab = Table::new();
    let _ = accept::judge(sheet, &mut tab);
    let accepted = Report {
        sheet,
        tab: &tab,
        total,
        codes,
        values,
    };
    accepted.write(w);
}
