// Fields that are numbers of 32 bits, and the location that four of them make.
#![tactic(auto)]

ghost use Rattle.std.specs.Prelude.{◌≡◌, ◌≤◌, length};
ghost use Rattle.text.specs.Text.{read, digits, capped, word, index, location};

use ast::Location;
use text::{COMMA, Cursor, digit};

const MAX_WORD: u64 = 4294967295;

// The digits from here on, after the number `first`, as a number of 32 bits. Ten times such a number and a digit fit 64 bits.
fn word_digits(c: Cursor, first: u64) -> Option<(u32, Cursor)>
    requires { (c.at ≤ length c.listing.now) × (first ≤ 4294967295) }
    ensures { result ≡ read (capped 4294967295 (digits first)) c.entry }
{
    let mut v = first;
    for at in c.at..c.listing.len() {
        let Some(n) = digit(c.listing[at]) else {
            return Some((v as u32, Cursor { at, ..c }));
        };
        v = v * 10 + n;
        if v > MAX_WORD {
            return None;
        }
    }
    Some((
        v as u32,
        Cursor {
            at: c.listing.len(),
            ..c
        },
    ))
}

// A field that is a number of 32 bits.
pub fn read_word(c: Cursor) -> Option<(u32, Cursor)>
    ensures { result ≡ read word c.entry }
{
    let start = c.skip(COMMA)?;
    let first = digit(*start.listing.get(start.at)?)?;
    let next = Cursor {
        at: start.at + 1,
        ..start
    };
    if first == 0 {
        return Some((0, next));
    }
    word_digits(next, first)
}

// A field that is an enum number below `count`.
#[tactic(auto, using(crate::proofs::Words::read_index_is))]
pub fn read_index(c: Cursor, count: u32) -> Option<(u32, Cursor)>
    ensures { result ≡ read (index count) c.entry }
{
    let (v, c) = read_word(c)?;
    if v < count { Some((v, c)) } else { None }
}

// What `read_word` reads: up to four digits without asking for each whether the listing goes on. It has one caller, so that it is inlined there.
fn short_word(c: Cursor) -> Option<(u32, Cursor)>
    requires { c.at ≤ length c.listing.now }
    ensures { result ≡ read word c.entry }
{
    if c.listing.len() - c.at < 6 {
        return read_word(c);
    }
    if c.listing[c.at] != COMMA {
        return None;
    }
    let mut v = digit(c.listing[c.at + 1])?;
    if v == 0 {
        return Some((0, Cursor { at: c.at + 2, ..c }));
    }
    for k in 2..5 {
        let Some(n) = digit(c.listing[c.at + k]) else {
            return Some((v as u32, Cursor { at: c.at + k, ..c }));
        };
        v = v * 10 + n;
    }
    word_digits(Cursor { at: c.at + 5, ..c }, v)
}

// w: start, end, line, column.
pub fn read_location(c: Cursor) -> Option<(Location, Cursor)>
    ensures { result ≡ read location c.entry }
{
    if c.at > c.listing.len() {
        return None;
    }
    let mut next = c;
    let mut words = [0; 4];
    for word in &mut words {
        (*word, next) = short_word(next)?;
    }
    let [start, end, line, column] = words;
    Some((
        Location {
            start,
            end,
            line,
            column,
        },
        next,
    ))
}
