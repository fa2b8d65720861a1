// The forms of a line: each function reads the fields that follow a letter, and byte 10, and gives the row of the line.
#![tactic(auto)]

ghost use Rattle.std.specs.Prelude.{◌≡◌, ℕ, ◌+◌, ◌^◌, ◌≤◌, ◌<◌, length};
ghost use Rattle.ast.specs.Tree.{unplaced};
ghost use Rattle.text.specs.Text.{◌<∘>◌, yield, word, index};
ghost use Rattle.listing.specs.declared.Line.{Line};
ghost use Rattle.listing.specs.Forms.{contract};
ghost use Rattle.rows.specs.Rows.{row_with, signed_row, part_row, PlaceFits, row_of};
ghost use Rattle.forms.specs.Rowed.{row_read, ended_row, item_fields, wait_fields, number_fields, name_fields, literal_fields, multi_fields};

use ast::{Location, Signed, unplaced};
use decimals::read_signed;
use listing::letters;
use rows::Words;
use text::{Cursor, Place};
use words::{read_index, read_word};

// The row of a line with no more fields than its location.
fn located(kind: u32, w: Location) -> Words
    ensures { result ≡ row_with kind w 0 0 0 0 }
{
    Words {
        kind,
        start: w.start,
        end: w.end,
        line: w.line,
        column: w.column,
        a: 0,
        b: 0,
        c: 0,
        d: 0,
    }
}

// The row of a line that names a part of the listing.
fn part_row(kind: u32, w: Location, x: Place, c: u32) -> Words
    requires { PlaceFits x }
    ensures { result ≡ part_row kind w x c }
{
    Words {
        a: x.at as u32,
        b: x.len as u32,
        c,
        ..located(kind, w)
    }
}

// The row of a line with a signed number: its sign, then its magnitude, the low word first.
fn signed_row(kind: u32, w: Location, a: u32, v: Signed) -> Words
    ensures { result ≡ signed_row kind w a v }
{
    Words {
        a,
        b: u32::from(v.negative),
        c: (v.magnitude % 4294967296) as u32,
        d: (v.magnitude / 4294967296) as u32,
        ..located(kind, w)
    }
}

// Byte 10 after the fields of a line, whose row is `row`.
fn ended(row: Words, c: Cursor) -> Option<(Words, Cursor)>
    ensures { result ≡ ended_row row c.entry }
{
    Some((row, c.skip(b'\n')?))
}

// T: target, declarations.
#[tactic(auto, using(crate::proofs::Rowed::contract_is))]
pub fn contract_row(c: Cursor) -> Option<(Words, Cursor)>
    ensures { result ≡ row_read contract c.entry }
{
    let (a, c) = read_index(c, 3)?;
    let (b, c) = read_word(c)?;
    ended(
        Words {
            a,
            b,
            ..located(letters::CONTRACT, unplaced())
        },
        c,
    )
}

// D, B: items or statements.
pub fn counted_row(c: Cursor, letter: u32) -> Option<(Words, Cursor)>
    ensures { (f : ℕ → Line) → ((v : ℕ) → row_with letter unplaced v 0 0 0 ≡ row_of (f v)) → result ≡ row_read (f <∘> word) c.entry }
{
    let (a, c) = read_word(c)?;
    ended(
        Words {
            a,
            ..located(letter, unplaced())
        },
        c,
    )
}

// P, after its location: type, name.
#[tactic(auto, using(crate::proofs::Rowed::item_is, crate::proofs::Rowed::name_fits))]
pub fn item_row(c: Cursor, w: Location) -> Option<(Words, Cursor)>
    requires { length c.listing.now < 2 ^ 32 }
    ensures { result ≡ row_read (item_fields w) c.entry }
{
    let (ty, c) = read_index(c, 4)?;
    let (name, c) = c.read_name()?;
    ended(part_row(letters::ITEM, w, name, ty), c)
}

// A form with a location and nothing after it.
pub fn plain_row(c: Cursor, letter: u32, w: Location) -> Option<(Words, Cursor)>
    ensures { (l : Line) → row_with letter w 0 0 0 0 ≡ row_of l → result ≡ row_read (yield l) c.entry }
{
    ended(located(letter, w), c)
}

// A form with a location and one number below `count`, after its location.
pub fn operator_row(c: Cursor, letter: u32, w: Location, count: u32) -> Option<(Words, Cursor)>
    ensures { (f : ℕ → Line) → ((v : ℕ) → v < count → row_with letter w v 0 0 0 ≡ row_of (f v)) → result ≡ row_read (f <∘> index count) c.entry }
{
    let (a, c) = read_index(c, count)?;
    ended(
        Words {
            a,
            ..located(letter, w)
        },
        c,
    )
}

// L, after its location: op, operand.
#[tactic(auto, using(crate::proofs::Rowed::wait_is))]
pub fn wait_row(c: Cursor, w: Location) -> Option<(Words, Cursor)>
    ensures { result ≡ row_read (wait_fields w) c.entry }
{
    let (op, c) = read_index(c, 3)?;
    let (v, c) = read_signed(c)?;
    ended(signed_row(letters::WAIT, w, op, v), c)
}

// n, after its location: value.
#[tactic(auto, using(crate::proofs::Rowed::number_is))]
pub fn number_row(c: Cursor, w: Location) -> Option<(Words, Cursor)>
    ensures { result ≡ row_read (number_fields w) c.entry }
{
    let (v, c) = read_signed(c)?;
    ended(signed_row(letters::NUMBER, w, 0, v), c)
}

// v, after its location: name.
#[tactic(auto, using(crate::proofs::Rowed::name_is, crate::proofs::Rowed::name_fits))]
pub fn name_row(c: Cursor, w: Location) -> Option<(Words, Cursor)>
    requires { length c.listing.now < 2 ^ 32 }
    ensures { result ≡ row_read (name_fields w) c.entry }
{
    let (name, c) = c.read_name()?;
    ended(part_row(letters::VARIABLE, w, name, 0), c)
}

// s, after its location: bytes, mark.
#[tactic(auto, using(crate::proofs::Rowed::literal_is, crate::proofs::Rowed::literal_fits))]
pub fn literal_row(c: Cursor, w: Location) -> Option<(Words, Cursor)>
    requires { length c.listing.now < 2 ^ 32 }
    ensures { result ≡ row_read (literal_fields w) c.entry }
{
    let (bytes, c) = c.read_literal()?;
    let (mark, c) = read_index(c, 2)?;
    ended(part_row(letters::LITERAL, w, bytes, mark), c)
}

// M, after its location: m, factors.
#[tactic(auto, using(crate::proofs::Rowed::multi_is))]
pub fn multi_row(c: Cursor, w: Location) -> Option<(Words, Cursor)>
    ensures { result ≡ row_read (multi_fields w) c.entry }
{
    let (a, c) = read_word(c)?;
    let (b, c) = read_word(c)?;
    ended(
        Words {
            a,
            b,
            ..located(letters::MULTI, w)
        },
        c,
    )
}
