// Rehearsing a witness: open, lay and take back.
#![tactic(auto)]

ghost use Rattle.std.specs.Prelude.{◌≡◌, List, ◌≤◌, length};
ghost use Rattle.ast.specs.Tree.{Contract};
ghost use Rattle.rows.specs.Rows.{line_in};
ghost use Rattle.rows.specs.Work.{work_words, cleared};
ghost use Rattle.reader.specs.Spells.{SpellsContract};
ghost use Rattle.rules.specs.Analyze.{analyze as analyze_of};
ghost use Rattle.names.specs.declared.Item.{Item};
ghost use Rattle.declarations.specs.Items.{ContractAt};
ghost use Rattle.declarations.specs.Noted.{Declares};
ghost use Rattle.rules.specs.Result.{answer};
ghost use Rattle.examiner.specs.Lent.{work_after};
ghost use Rattle.turns.specs.State.{DueInside};
ghost use Rattle.turns.specs.Turns.{turn_in, tests, turn_by};
ghost use Rattle.rehearsal.specs.Rehearse.{opened, laid, taken_back};
ghost use Rattle.rehearsal.specs.Acts.{turned};

use examiner::{analyze_rows, examine};
use turns::{Rehearsal, Rehearsed, Turn, turn_by};

// A turn on a rehearsal of a listing: the three operations in one.
pub fn rehearse(listing: &[u8], work: &mut [u32], r: Rehearsal, turn: Turn<'_>) -> Rehearsed
    ensures value { result ≡ turned listing.now (length work.old) r turn.entry }
    ensures work_after { work.new ≡ work_after work.old }
    ensures due_inside { DueInside listing.now result }
{
    let turned = examine(
        listing,
        work,
        &mut |rows, n, d| {
            let answer = analyze_rows(rows, n, d);
            turn_by(rows, d, answer, r, turn)
        },
    );
    match turned {
        Err(x) => Rehearsed::Refused(x),
        Ok(x) => x,
    }
}

// Open: a rehearsal of a path at its beginning.
pub fn open(listing: &[u8], work: &mut [u32], path: u32) -> Rehearsed
    ensures value { result ≡ opened listing.now (length work.old) path }
    ensures work_after { work.new ≡ work_after work.old }
    ensures due_inside { DueInside listing.now result }
{
    let r = Rehearsal { path, due: 0 };
    rehearse(listing, work, r, Turn::Open)
}

// Lay: an item by its name and the number of its type.
pub fn lay(listing: &[u8], work: &mut [u32], r: Rehearsal, name: &[u8], ty: u32) -> Rehearsed
    ensures value { result ≡ laid listing.now (length work.old) r (record { name = name.entry.now; ty = ty }) }
    ensures work_after { work.new ≡ work_after work.old }
    ensures due_inside { DueInside listing.now result }
{
    rehearse(listing, work, r, Turn::Lay(name, ty))
}

// Take back: the item laid last; at the beginning nothing is altered.
pub fn take_back(listing: &[u8], work: &mut [u32], r: Rehearsal) -> Rehearsed
    ensures value { result ≡ taken_back listing.now (length work.old) r }
    ensures work_after { work.new ≡ work_after work.old }
    ensures due_inside { DueInside listing.now result }
{
    rehearse(listing, work, r, Turn::TakeBack)
}
