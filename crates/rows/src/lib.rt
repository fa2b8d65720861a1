// Lines kept as rows of lent work memory.
#![tactic(auto)]

ghost use Rattle.std.specs.Prelude.{◌≡◌, ◌*◌, ◌≤◌, length};
ghost use Rattle.std.proofs.lemmas.List.Edits.{sets};
ghost use Rattle.rows.specs.Rows.{place_in, signed_in, part_in, row_in, row_words, words_of, HasRow};
ghost use Rattle.rows.specs.Work.{work_words, cleared};

use ast::{Location, Signed};
use text::Place;

// How many words a row has.
pub const ROW_WORDS: usize = 9;

// How many words of work memory are asked.
pub const WORK_WORDS: usize = 16384;

// A listing, and the rows of its lines.
#[derive(Clone, Copy)]
pub struct Rows<'a> {
    pub listing: &'a [u8],
    pub table: &'a [u32],
}

// The letter of a line's form, its location, and up to four more fields.
#[derive(Clone, Copy, PartialEq, Eq)]
pub struct Words {
    pub kind: u32,
    pub start: u32,
    pub end: u32,
    pub line: u32,
    pub column: u32,
    pub a: u32,
    pub b: u32,
    pub c: u32,
    pub d: u32,
}

impl Words {
    // Where the line's node stands.
    pub fn location(self) -> Location
        ensures { result ≡ place_in self }
    {
        Location {
            start: self.start,
            end: self.end,
            line: self.line,
            column: self.column,
        }
    }

    pub fn signed(self) -> Signed
        ensures { result ≡ signed_in self }
    {
        Signed {
            negative: self.b == 1,
            magnitude: u64::from(self.d) * 4294967296 + u64::from(self.c),
        }
    }

    // The part of the listing that a line names.
    pub fn part(self) -> Place
        ensures { result ≡ part_in self }
    {
        Place {
            at: self.a as usize,
            len: self.b as usize,
        }
    }
}

// The row numbered i (from 0) of a table.
pub fn row_in(table: &[u32], i: usize) -> Words
    requires { HasRow table.now i }
    ensures { result ≡ row_in table.now i }
{
    let at = i * ROW_WORDS;
    Words {
        kind: table[at],
        start: table[at + 1],
        end: table[at + 2],
        line: table[at + 3],
        column: table[at + 4],
        a: table[at + 5],
        b: table[at + 6],
        c: table[at + 7],
        d: table[at + 8],
    }
}

// The row numbered i (from 0) of a table, stored.
#[tactic(auto, unfolding(crate::specs::Rows::words_of))]
pub fn store_row(table: &mut [u32], i: usize, r: Words)
    requires { HasRow table.old i }
    ensures { table.new ≡ sets table.old (i * row_words) (words_of r) }
{
    let first = i * ROW_WORDS;
    table[first] = r.kind;
    table[first + 1] = r.start;
    table[first + 2] = r.end;
    table[first + 3] = r.line;
    table[first + 4] = r.column;
    table[first + 5] = r.a;
    table[first + 6] = r.b;
    table[first + 7] = r.c;
    table[first + 8] = r.d;
}

// The first 16384 words zero, the rest unchanged.
pub fn clear(work: &mut [u32])
    requires { work_words ≤ length work.old }
    ensures { work.new ≡ cleared work.old }
{
    work[..WORK_WORDS].fill(0);
}
