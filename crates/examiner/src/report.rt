// Report: the answer, and its text in the lent output.
ghost use Rattle.std.specs.Prelude.{◌≡◌, ◌≤◌, length, take};
ghost use Rattle.ast.specs.Tree.{Contract};
ghost use Rattle.rules.specs.Analyze.{analyze as analyze_of};
ghost use Rattle.rows.specs.Rows.{line_in};
ghost use Rattle.rows.specs.Work.{work_words, cleared};
ghost use Rattle.reader.specs.Spells.{SpellsContract};
ghost use Rattle.declarations.specs.Items.{ContractAt, DeclaredAs};
ghost use Rattle.reporting.specs.Text.{text_of};
ghost use Rattle.verdicts.specs.Reports.{reported, written};
ghost use Rattle.examiner.specs.Check.{check as check_of};
ghost use Rattle.examiner.specs.Report.{report as report_of, opening};
ghost use Rattle.examiner.specs.Examined.{Given};
ghost use Rattle.examiner.specs.Lent.{work_after, output_after};

use crate::examine;
use analyze::analyze;
use ast::ErrorKind;
use declarations::Declared;
use reporting::analyzed::Analyzed;
use rows::{Rows, WORK_WORDS};
use verdicts::{Reported, report_acceptance, report_refusal, without_text};

// The contract in n rows, analyzed and reported.
fn report_table(rows: &Rows<'_>, n: usize, d: Declared, output: &mut [u8]) -> Reported
    requires { Given rows.now n d }
    ensures value { (c : Contract) → SpellsContract (line_in rows.now.table.now) rows.now.listing.now c n → result ≡ reported (analyze_of c) (length output.old) }
    ensures output_after { (c : Contract) → SpellsContract (line_in rows.now.table.now) rows.now.listing.now c n → output.new ≡ written (text_of (analyze_of c)) output.old }
{
    match analyze(rows, n, d) {
        Err(x) => report_refusal(output, x),
        Ok(paths) => {
            let analyzed = Analyzed {
                rows: *rows,
                n,
                declared: d,
                paths: &paths,
            };
            report_acceptance(&analyzed, output)
        }
    }
}

// Report: what Check answers, or 6, with the text's length. A text opens with `A,` exactly where Check accepts.
pub fn report(listing: &[u8], work: &mut [u32], output: &mut [u8]) -> Reported
    ensures value { result ≡ report_of listing.now (length work.old) (length output.old) }
    ensures work_after { work.new ≡ work_after work.old }
    ensures output_after { output.new ≡ output_after listing.now (length work.old) output.old }
    ensures output_after_2 { (result.length ≡ 0 → ⊥) → take 2 output.new ≡ opening (check_of listing.now (length work.old)) }
{
    if work.len() < WORK_WORDS {
        return without_text(ErrorKind::WorkTooShort);
    }
    let examined = examine(
        listing,
        work,
        &mut |rows, n, d| report_table(rows, n, d, output),
    );
    match examined {
        Err(x) => report_refusal(output, x),
        Ok(r) => r,
    }
}
