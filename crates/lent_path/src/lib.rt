// A path in the caller's memory: its items are taken and handed on there.
#![tactic(auto)]

ghost use Rattle.std.specs.Prelude.{◌≡◌, ◌≤◌, length, true, cond, Some, None};
ghost use Rattle.std.specs.List.{list_all};
ghost use Rattle.std.specs.Result.{result_unwrap_or};
ghost use Rattle.ast.specs.Tree.{fault, unplaced};
ghost use Rattle.ast.specs.declared.ErrorKind.{ErrorKind};
ghost use Rattle.rows.specs.Rows.{row_in};
ghost use Rattle.reading.specs.Held.{listing_read, work_read};
ghost use Rattle.paths.specs.Path.{WellFormed, Walked};
ghost use Rattle.lent_path.specs.Rows.{is_inside, is_row, is_item, is_own, is_path, variable_in, if_in};
ghost use Rattle.lent_path.specs.Lent.{answered, take_at, transfer_at, Kept};

use ast::{CompileError, ErrorKind, Location};
use listing::letters;
use paths::{NamePlace, Path, take};
use reading::read_listing;
use rows::{ROW_WORDS, Rows, Words, row_in};
use taken::is_top_run;
use text::Place;
use transfer::transfer_prefix_consumption;

// An answer in numbers: 0 and no location, or the refusal's.
#[repr(C)]
#[derive(Clone, Copy, PartialEq, Eq)]
pub struct Answered {
    pub number: u32,
    pub start: u32,
    pub end: u32,
    pub line: u32,
    pub column: u32,
}

impl<T: Copy> From<Result<T, CompileError>> for Answered {
    ghost from_gives = { λ r a. a ≡ answered r };

    #[tactic(auto, unfolding(crate::specs::Lent::answered))]
    fn from(r: Result<T, CompileError>) -> Self {
        match r {
            Ok(_) => Answered {
                number: 0,
                start: 0,
                end: 0,
                line: 0,
                column: 0,
            },
            Err(x) => Answered {
                number: u32::from(x.kind),
                start: x.loc.start,
                end: x.loc.end,
                line: x.loc.line,
                column: x.loc.column,
            },
        }
    }
}

// Whether a part lies in the listing.
#[tactic(auto, unfolding(crate::specs::Rows::is_inside))]
fn is_inside(listing: &[u8], x: Place) -> bool
    ensures { result ≡ is_inside listing.now x }
{
    let n = listing.len();
    x.at <= n && x.len <= n - x.at
}

// Row i, if the table has it.
#[tactic(auto, unfolding(crate::specs::Rows::is_row))]
fn row_at(table: &[u32], i: usize) -> Option<Words>
    ensures { result ≡ cond (is_row table.now i) (Some (row_in table.now i)) None }
{
    if i < table.len() / ROW_WORDS {
        Some(row_in(table, i))
    } else {
        None
    }
}

// Whether row i is an item's line whose name lies in the listing.
#[tactic(auto, unfolding(crate::specs::Rows::is_item, crate::specs::Rows::is_named, rows::specs::Rows::line_in, rows::specs::Rows::line_of, rows::specs::Rows::kept_as))]
fn is_item(rows: &Rows<'_>, i: usize) -> bool
    ensures { result ≡ is_item rows.now.listing.now rows.now.table.now i }
{
    row_at(rows.table, i).is_some_and(|r| r.kind == letters::ITEM
        && is_inside(rows.listing, r.part()))
}

// Whether the taken positions run from the top and are below `count`.
#[tactic(auto, unfolding(crate::specs::Rows::is_own))]
fn is_own(taken: u32, count: u32) -> bool
    requires { count ≤ 32 }
    ensures { result ≡ is_own taken count }
{
    is_top_run(taken) && u64::from(taken) < 1 << count
}

// Whether the rows of places are items' lines.
fn are_items(rows: &Rows<'_>, places: &[NamePlace]) -> bool
    ensures { result ≡ list_all (λ q. is_item rows.now.listing.now rows.now.table.now q.row) places.now }
{
    places.iter().all(|q| is_item(rows, q.row as usize))
}

// Whether a path's rows are items' lines, and the taken positions are ones that it has and run from the top.
#[tactic(auto, unfolding(crate::specs::Rows::is_path))]
pub fn is_path(rows: &Rows<'_>, path: Path) -> bool
    ensures value { result ≡ is_path rows.now.listing.now rows.now.table.now path }
    ensures sound { result ≡ true → WellFormed rows.now.listing.now rows.now.table.now path }
{
    let count = path.count;
    count <= 32 && is_own(path.taken, count) && are_items(rows, &path.places[..count as usize])
}

// The variable of row i: where it stands, and its name.
#[tactic(auto, unfolding(crate::specs::Rows::variable_in, crate::specs::Rows::variable_of, rows::specs::Rows::line_in, rows::specs::Rows::line_of, rows::specs::Rows::kept_as))]
fn variable_at(rows: &Rows<'_>, i: usize) -> Option<(Location, Place)>
    ensures { result ≡ variable_in rows.now.listing.now rows.now.table.now i }
{
    if 65535 <= i {
        return None;
    }
    let r = row_at(rows.table, i)?;
    let x = r.part();
    if r.kind == letters::VARIABLE && is_inside(rows.listing, x) {
        Some((r.location(), x))
    } else {
        None
    }
}

// The location of row i's if.
#[tactic(auto, unfolding(crate::specs::Rows::if_in, crate::specs::Rows::if_of, rows::specs::Rows::line_in, rows::specs::Rows::line_of, rows::specs::Rows::kept_as))]
fn if_at(table: &[u32], i: usize) -> Option<Location>
    ensures { result ≡ if_in table.now i }
{
    let r = row_at(table, i)?;
    if r.kind == letters::IF {
        Some(r.location())
    } else {
        None
    }
}

// 3, nowhere: there is no such path, or the row is of another kind.
fn unfit() -> CompileError
    ensures { result ≡ fault ErrorKind.UnexpectedLine unplaced }
{
    CompileError::unplaced(ErrorKind::UnexpectedLine)
}

// The variable of row i is taken from a path: 12, 13, 15, or 3 where there is no such path or row.
pub fn take_at(rows: &Rows<'_>, i: usize, path: Path) -> Result<Path, CompileError>
    ensures { Walked rows.now.listing.now rows.now.table.now path (take_at rows.now.listing.now rows.now.table.now i path) result }
{
    if !is_path(rows, path) {
        return Err(unfit());
    }
    let (loc, x) = variable_at(rows, i).ok_or(unfit())?;
    take(rows, i, loc, x, path)
}

// What is taken in `from` at row i's if is taken in `to`: 20, or 3 where there is no such path or row.
pub fn transfer_at(rows: &Rows<'_>, i: usize, from: Path, to: Path) -> Result<Path, CompileError>
    ensures { Walked rows.now.listing.now rows.now.table.now to (transfer_at rows.now.listing.now rows.now.table.now i from to) result }
{
    if !is_path(rows, from) || !is_path(rows, to) {
        return Err(unfit());
    }
    let loc = if_at(rows.table, i).ok_or(unfit())?;
    transfer_prefix_consumption(rows, loc, from, to)
}

// What a walk over a lent path comes to is left there; a refusal leaves the path as it was.
fn store(path: &mut Path, walked: Result<Path, CompileError>) -> Answered
    ensures left { path.new ≡ result_unwrap_or walked path.old }
    ensures answer { result ≡ answered walked }
{
    if let Ok(after) = walked {
        *path = after;
    }
    Answered::from(walked)
}

// The rows of a listing, which the two functions below take as their table: 1 to 5 with no row left, as Check has them.
pub fn bithoven_rows(listing: &[u8], work: &mut [u32]) -> Answered
    ensures value { result ≡ answered (listing_read listing.now (length work.old)) }
    ensures work_after { work.new ≡ work_read listing.now work.old }
{
    Answered::from(read_listing(listing, work))
}

// The variable of row i is taken from a lent path: 12, 13, 15, or 3 where there is no such path or row. A refusal leaves the path as it was.
pub fn bithoven_take(path: &mut Path, listing: &[u8], table: &[u32], i: usize) -> Answered
    ensures { Kept listing.now table.now path.old (take_at listing.now table.now i path.old) result path.new }
{
    let walked = take_at(&Rows { listing, table }, i, *path);
    store(path, walked)
}

// What is taken in `from` at row i's if is taken in a lent path: 20, or 3 where there is no such path or row. A refusal leaves the path as it was.
pub fn bithoven_transfer(
    to: &mut Path,
    listing: &[u8],
    table: &[u32],
    i: usize,
    from: Path,
) -> Answered
    ensures { Kept listing.now table.now to.old (transfer_at listing.now table.now i from to.old) result to.new }
{
    let walked = transfer_at(&Rows { listing, table }, i, from, *to);
    store(to, walked)
}
