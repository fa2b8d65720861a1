// A line of a listing, as a row: its form by its letter, and the fields of that form.
#![tactic(auto)]

ghost use Rattle.std.specs.Prelude.{◌≡◌, ◌^◌, ◌<◌, length, option_map, Some};
ghost use Rattle.text.specs.declared.Cursor.{Cursor};
ghost use Rattle.text.specs.Text.{read, location};
ghost use Rattle.listing.specs.declared.letters.TheConstants.{CONTRACT, DECLARATION, BLOCK};
ghost use Rattle.listing.specs.Forms.{forms, fields_of, line};
ghost use Rattle.rows.specs.Rows.{row_of};
ghost use Rattle.forms.specs.Rowed.{row_read};

use ast::Location;
use forms::{
    contract_row, counted_row, item_row, literal_row, multi_row, name_row, number_row,
    operator_row, plain_row, wait_row,
};
use listing::letters;
use rows::Words;
use text::Cursor;
use words::read_location;

// The forms with a location. It is read first, at one place for all of them.
fn located_row(c: Cursor, letter: u8) -> Option<(Words, Cursor)>
    requires small { length c.listing.now < 2 ^ 32 }
    requires located { (letter ≡ CONTRACT → ⊥) × (letter ≡ DECLARATION → ⊥) × (letter ≡ BLOCK → ⊥) }
    ensures { result ≡ row_read (fields_of forms letter) c.entry }
{
    let (w, c) = read_location(c)?;
    fields_row(c, letter, w)
}

// What follows the location w that stands at the cursor d. It is a function of its own so that the compiler takes no form for one seldom met.
fn fields_row(c: Cursor, letter: u8, w: Location) -> Option<(Words, Cursor)>
    requires small { length c.listing.now < 2 ^ 32 }
    requires located { (letter ≡ CONTRACT → ⊥) × (letter ≡ DECLARATION → ⊥) × (letter ≡ BLOCK → ⊥) }
    ensures { (d : Cursor) → read location d ≡ Some (w, c.entry) → result ≡ row_read (fields_of forms letter) d }
{
    match letter {
        b'P' => item_row(c, w),
        b'I' => operator_row(c, letters::IF, w, 2),
        b'L' => wait_row(c, w),
        b'V' => plain_row(c, letters::VERIFY, w),
        b'E' => plain_row(c, letters::RETURN, w),
        b'v' => name_row(c, w),
        b'n' => number_row(c, w),
        b'b' => operator_row(c, letters::BOOLEAN, w, 2),
        b's' => literal_row(c, w),
        b'l' => operator_row(c, letters::LOGIC, w, 2),
        b'c' => operator_row(c, letters::COMPARE, w, 8),
        b'm' => operator_row(c, letters::ARITHMETIC, w, 4),
        b'u' => operator_row(c, letters::UNARY, w, 5),
        b'h' => operator_row(c, letters::HASH, w, 2),
        b'z' => plain_row(c, letters::SIZE, w),
        b'g' => plain_row(c, letters::SIGNATURES, w),
        b'S' => plain_row(c, letters::SINGLE, w),
        b'M' => multi_row(c, w),
        _ => None,
    }
}

// The line that stands at a cursor, as a row, and the cursor after its byte 10. Each byte of a line is looked at a constant number of times.
pub fn read_line(c: Cursor) -> Option<(Words, Cursor)>
    requires { length c.listing.now < 2 ^ 32 }
    ensures { result ≡ option_map (λ p. (row_of p.0, p.1)) (read line c.entry) }
{
    let letter = *c.listing.get(c.at)?;
    let fields = Cursor { at: c.at + 1, ..c };
    match letter {
        b'T' => contract_row(fields),
        b'D' => counted_row(fields, letters::DECLARATION),
        b'B' => counted_row(fields, letters::BLOCK),
        _ => located_row(fields, letter),
    }
}
