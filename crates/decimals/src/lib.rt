// Fields that are numbers in decimal digits, and signed numbers of 64 bits.
#![tactic(auto)]

ghost use Rattle.std.specs.Prelude.{◌≡◌, ◌≤◌, ◌+◌, ◌*◌, nat_le, if◌then◌else◌, IfSome};
ghost use Rattle.text.specs.Text.{read, digits, capped, up_to, after_minus, unsigned, sign, signed};

use ast::Signed;
use text::{COMMA, Cursor, digit};

// The largest magnitude of a number below zero; of one that is not, it is one less.
const MAX_NEGATIVE: u64 = 9223372036854775808;

// One more decimal digit `d` after `v`, if the number stays within the limit.
pub fn push_digit(v: u64, d: u64, limit: u64) -> Option<u64>
    ensures { result ≡ (if nat_le (v * 10 + d) limit then Some (v * 10 + d) else None) }
{
    let next = v.checked_mul(10)?.checked_add(d)?;
    if next <= limit { Some(next) } else { None }
}

// The digits from here on, after the number `first`.
pub fn more_digits(c: Cursor, first: u64, limit: u64) -> Option<(u64, Cursor)>
    ensures value { result ≡ read (capped limit (digits first)) c.entry }
    ensures within { IfSome result (λ p. p.0 ≤ limit) }
{
    if limit < first {
        return None;
    }
    let rest = c.rest();
    let mut v = first;
    for (k, &b) in rest.iter().enumerate() {
        let Some(n) = digit(b) else {
            return Some((v, Cursor { at: c.at + k, ..c }));
        };
        v = push_digit(v, n, limit)?;
    }
    Some((
        v,
        Cursor {
            at: c.at + rest.len(),
            ..c
        },
    ))
}

// A number from 0 to the limit: no plus sign, no leading zero.
pub fn read_decimal(c: Cursor, limit: u64) -> Option<(u64, Cursor)>
    ensures value { result ≡ read (up_to limit) c.entry }
    ensures within { IfSome result (λ p. p.0 ≤ limit) }
{
    let first = digit(*c.listing.get(c.at)?)?;
    let next = Cursor { at: c.at + 1, ..c };
    if first == 0 {
        return Some((0, next));
    }
    more_digits(next, first, limit)
}

// What follows a minus sign: at most 2^63, no zero.
pub fn read_after_minus(c: Cursor) -> Option<(Signed, Cursor)>
    ensures { result ≡ read after_minus c.entry }
{
    let (magnitude, c) = read_decimal(c, MAX_NEGATIVE)?;
    if magnitude == 0 {
        return None;
    }
    Some((
        Signed {
            negative: true,
            magnitude,
        },
        c,
    ))
}

// A number with no sign: at most 2^63 - 1.
pub fn read_unsigned(c: Cursor) -> Option<(Signed, Cursor)>
    ensures { result ≡ read unsigned c.entry }
{
    let (magnitude, c) = read_decimal(c, MAX_NEGATIVE - 1)?;
    Some((
        Signed {
            negative: false,
            magnitude,
        },
        c,
    ))
}

// With a minus sign or without.
pub fn read_sign(c: Cursor) -> Option<(Signed, Cursor)>
    ensures { result ≡ read sign c.entry }
{
    match c.skip(b'-') {
        Some(after) => read_after_minus(after),
        None => read_unsigned(c),
    }
}

// A field that is a signed number of 64 bits.
pub fn read_signed(c: Cursor) -> Option<(Signed, Cursor)>
    ensures { result ≡ read signed c.entry }
{
    read_sign(c.skip(COMMA)?)
}
