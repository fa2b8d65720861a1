// Reading a text from the left: a cursor reads one field from its position on.
#![tactic(auto)]

ghost use Rattle.std.specs.Prelude.{◌≡◌, Bool, true, ◌↔◌, ℕ, ◌+◌, ◌-◌, ◌≤◌, ◌<◌, if◌then◌else◌, length, drop, get_or};
ghost use Rattle.std.specs.List.{list_all};
ghost use Rattle.text.specs.Text.{read, after, byte, within, is_digit, is_name_byte, is_hex_digit, run, run_end, name, literal, part};

use ast::{Location, Signed};

// A part of the listing: how many bytes precede it, and how many it has.
#[derive(Clone, Copy, PartialEq, Eq)]
pub struct Place {
    pub at: usize,
    pub len: usize,
}

impl Place {
    // Its bytes in the listing.
    #[tactic(auto, unfolding(crate::specs::Text::part))]
    pub fn of(self, listing: &[u8]) -> &[u8]
        requires { self.at + self.len ≤ length listing.now }
        ensures { result.now ≡ part listing.now self }
    {
        &listing[self.at..self.at + self.len]
    }
}

pub const COMMA: u8 = b',';

// A position in a listing, from which fields are read.
#[derive(Clone, Copy)]
pub struct Cursor<'a> {
    pub listing: &'a [u8],
    pub at: usize,
}

impl<'a> Cursor<'a> {
    // The bytes from here on.
    pub fn rest(self) -> &'a [u8]
        ensures { result.now ≡ drop self.entry.at self.entry.listing.now }
    {
        self.listing.get(self.at..).unwrap_or(&[])
    }

    // The byte `b` itself.
    pub fn skip(self, b: u8) -> Option<Self>
        ensures { result ≡ after (byte b) self.entry }
    {
        if self.at < self.listing.len() && self.listing[self.at] == b {
            return Some(Cursor {
                at: self.at + 1,
                ..self
            });
        }
        None
    }

    // The position after the bytes from here on that pass a test.
    pub fn run_end<F: Fn(u8) -> bool>(self, passes: F) -> usize
        requires { F.IsAlwaysCallable passes }
        ensures { (p : ℕ → Bool) → ((b : ℕ) (r : Bool) → F.post passes b r → r ≡ p b) → result ≡ run_end p self.entry.listing.now self.entry.at }
    {
        let rest = self.rest();
        let count = rest.iter().position(|&b| !passes(b));
        self.at + count.unwrap_or(rest.len())
    }

    // The position after the hex digits from here on: 16 at a time while all are digits, the rest byte by byte. A byte is read at most twice.
    pub fn hex_end(self) -> usize
        ensures { result ≡ run_end is_hex_digit self.entry.listing.now self.entry.at }
    {
        let rest = self.rest();
        let mut count = 0;
        while rest.len() - count >= 16 && are_hex(&rest[count..count + 16]) {
            count += 16;
        }
        Cursor {
            at: self.at + count,
            ..self
        }
        .run_end(is_hex_digit)
    }

    // A field that is a name: one or more bytes.
    pub fn read_name(self) -> Option<(Place, Self)>
        ensures { result ≡ read name self.entry }
    {
        let start = self.skip(COMMA)?;
        let end = start.run_end(is_name_byte);
        let len = end - start.at;
        if len == 0 {
            return None;
        }
        Some((Place { at: start.at, len }, Cursor { at: end, ..start }))
    }

    // A field that is a literal's bytes: pairs of hex digits, possibly none.
    pub fn read_literal(self) -> Option<(Place, Self)>
        ensures { result ≡ read literal self.entry }
    {
        let start = self.skip(COMMA)?;
        let end = start.hex_end();
        let len = end - start.at;
        if len % 2 != 0 {
            return None;
        }
        Some((Place { at: start.at, len }, Cursor { at: end, ..start }))
    }
}

// The number that a digit stands for. The byte is asked as 64 bits, so that what it stands for is computed once.
#[tactic(auto, unfolding(crate::specs::Text::is_digit, crate::specs::Text::within))]
pub fn digit(b: u8) -> Option<u64>
    ensures { result ≡ (if is_digit b then Some (b - 48) else None) }
{
    let n = u64::from(b);
    if (48 <= n) & (n <= 57) {
        Some(n - 48)
    } else {
        None
    }
}

// An ASCII letter, digit or underscore, tested without a branch.
#[tactic(auto, unfolding(crate::specs::Text::is_name_byte, crate::specs::Text::is_digit, crate::specs::Text::within))]
pub fn is_name_byte(b: u8) -> bool
    ensures { result ≡ is_name_byte b }
{
    ((48 <= b) & (b <= 57)) | ((65 <= b) & (b <= 90)) | ((97 <= b) & (b <= 122)) | (b == 95)
}

// A lower-case hex digit, tested without a branch.
#[tactic(auto, unfolding(crate::specs::Text::is_hex_digit, crate::specs::Text::is_digit, crate::specs::Text::within))]
pub fn is_hex_digit(b: u8) -> bool
    ensures { result ≡ is_hex_digit b }
{
    ((48 <= b) & (b <= 57)) | ((97 <= b) & (b <= 102))
}

// Whether bytes are all hex digits, with no way out before the last, so that they are tested together.
fn are_hex(run: &[u8]) -> bool
    ensures { result ≡ list_all is_hex_digit run.now }
{
    let mut ok = true;
    for &b in run {
        ok &= is_hex_digit(b);
    }
    ok
}
