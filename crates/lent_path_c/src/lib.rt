// The C functions of a path in the caller's memory: the crate lent_path's, under the names that C knows.
#![tactic(auto)]

ghost use Rattle.std.specs.Prelude.{◌≡◌, length};
ghost use Rattle.reading.specs.Held.{listing_read, work_read};
ghost use Rattle.lent_path.specs.Lent.{answered, take_at, transfer_at, Kept};

use lent_path::Answered;
use paths::Path;

// The rows of a listing, which the two functions below take as their table: 1 to 5 with no row left, as Check has them.
#[unsafe(no_mangle)]
pub extern "C" fn bithoven_rows(listing: &[u8], work: &mut [u32]) -> Answered
    ensures value { result ≡ answered (listing_read listing.now (length work.old)) }
    ensures work_after { work.new ≡ work_read listing.now work.old }
{
    lent_path::bithoven_rows(listing, work)
}

// The variable of row i is taken from a lent path: 12, 13, 15, or 3 where there is no such path or row. A refusal leaves the path as it was.
#[unsafe(no_mangle)]
pub extern "C" fn bithoven_take(
    path: &mut Path,
    listing: &[u8],
    table: &[u32],
    i: usize,
) -> Answered
    ensures { Kept listing.now table.now path.old (take_at listing.now table.now i path.old) result path.new }
{
    lent_path::bithoven_take(path, listing, table, i)
}

// What is taken in `from` at row i's if is taken in a lent path: 20, or 3 where there is no such path or row. A refusal leaves the path as it was.
#[unsafe(no_mangle)]
pub extern "C" fn bithoven_transfer(
    to: &mut Path,
    listing: &[u8],
    table: &[u32],
    i: usize,
    from: Path,
) -> Answered
    ensures { Kept listing.now table.now to.old (transfer_at listing.now table.now i from to.old) result to.new }
{
    lent_path::bithoven_transfer(to, listing, table, i, from)
}
