// From a listing to rows of work memory that spell a contract.
#![tactic(auto)]

ghost use Rattle.std.specs.Prelude.{◌≡◌, List, ℕ, ◌≤◌, length};
ghost use Rattle.rows.specs.Rows.{HasRows};
ghost use Rattle.rows.specs.Work.{work_words};
ghost use Rattle.reader.specs.Source.{source};
ghost use Rattle.reader.specs.Reading.{contract};
ghost use Rattle.tree.specs.Table.{Holds, stepped};
ghost use Rattle.reading.specs.Held.{rows_of, rows_kept, listing_read, work_read, Spelled};

use ast::{CompileError, ErrorKind};
use rows::WORK_WORDS;
use tree::{Form, Kind, Left, Lines, Listed, read_end, read_parts};

mod store; // store.rt: the lines of a listing, stored as rows

const MAX_BYTES: usize = 32768;

const MAX_DEPTH: u32 = 32;

const MAX_BLOCK_DEPTH: u32 = 32;

// The whole listing: the T line and its declarations, the block, and nothing more. The first two are read as parts of one line.
fn read_contract(listed: &Listed<'_>) -> Result<usize, CompileError>
    ensures { (s : List ℕ) → Holds s listed.now.table.now listed.now.lines → result ≡ stepped (contract s (source s 0 0)) }
{
    let left = Left {
        blocks: MAX_BLOCK_DEPTH,
        expressions: MAX_DEPTH,
    };
    let whole = Form {
        kind: Kind::Contract,
        count: 2,
        first: Kind::Contract,
        rest: Kind::Block,
        within: true,
    };
    let next = read_parts(listed, 0, whole, left)?;
    read_end(listed.lines, next)
}

// The contract that was stored, or the refusal with work memory cleared.
fn read_stored(work: &mut [u32], lines: Lines) -> Result<usize, CompileError>
    requires { HasRows work.old lines.count × (work_words ≤ length work.old) }
    ensures { (s : List ℕ) → Holds s work.old lines → (result ≡ rows_of (contract s (source s 0 0))) × (work.new ≡ rows_kept (contract s (source s 0 0)) work.old) }
{
    let read = read_contract(&Listed {
        table: &work[..],
        lines,
    });
    if read.is_err() {
        rows::clear(work);
    }
    read
}

// A listing, read into rows of work memory: how many, or the refusal.
pub fn read_listing(listing: &[u8], work: &mut [u32]) -> Result<usize, CompileError>
    ensures value { result ≡ listing_read listing.now (length work.old) }
    ensures work_after { work.new ≡ work_read listing.now work.old }
    ensures spelled { (n : ℕ) → result ≡ Ok n → Spelled listing.now work.new n }
{
    if work.len() < WORK_WORDS {
        return Err(CompileError::unplaced(ErrorKind::WorkTooShort));
    }
    if MAX_BYTES < listing.len() {
        rows::clear(work);
        return Err(CompileError::unplaced(ErrorKind::ListingTooLong));
    }
    let lines = store::store_lines(listing, work);
    read_stored(work, lines)
}
