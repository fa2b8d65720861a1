// What a literal's bytes are, over its digits in the listing. Each digit is read at most twice.
ghost use Rattle.std.specs.Prelude.{◌≡◌, ◌≤◌};
ghost use Rattle.ast.specs.declared.Target.TheVariants.{Legacy};
ghost use Rattle.text.specs.Text.{unhex};
ghost use Rattle.rules.specs.Keys.{digit, shaped, is_key, is_ascii};

use ast::Target;
use limits::literals::{all_pairs, byte_of, is_hex};

// Whether a literal has only ASCII.
pub fn is_ascii_literal(digits: &[u8]) -> bool
    ensures { result ≡ is_ascii (unhex digits.now) }
{
    all_pairs(digits, |a, b| byte_of(a, b) <= 127)
}

// What a hex digit of either case stands for.
#[tactic(auto, unfolding(rules::specs::Keys::digit))]
fn digit_value(b: u32) -> u32
    ensures value { result ≡ digit b }
    ensures upper_bound { result ≤ b }
{
    let zero = match b {
        ..=57 => 48,
        58..=70 => 55,
        _ => 87,
    };
    b.saturating_sub(zero)
}

// Whether a literal spells 33 bytes, the first of them 2 or 3.
#[tactic(auto, unfolding(rules::specs::Keys::shaped), using(crate::proofs::Bytes::first_two, limits::proofs::Digits::unhex_length))]
fn is_compressed(digits: &[u8]) -> bool
    ensures { result ≡ shaped Legacy (unhex digits.now) }
{
    if digits.len() / 2 != 66 {
        return false;
    }
    let high = digit_value(byte_of(digits[0], digits[1]));
    let low = digit_value(byte_of(digits[2], digits[3]));
    let first = high * 16 + low;
    first == 2 || first == 3
}

// Whether a literal has the shape of the target's keys: 33 bytes, the first of them 2 or 3, or 32 bytes.
#[tactic(auto, unfolding(rules::specs::Keys::shaped), using(limits::proofs::Digits::unhex_length))]
fn is_shaped(digits: &[u8], target: Target) -> bool
    ensures { result ≡ shaped target (unhex digits.now) }
{
    match target {
        Target::Legacy | Target::Segwit => is_compressed(digits),
        Target::Taproot => digits.len() / 2 == 64,
    }
}

// Whether a literal with a mark is a key of the target.
#[tactic(auto, unfolding(rules::specs::Keys::is_key))]
pub fn is_key(digits: &[u8], target: Target, mark: bool) -> bool
    ensures { result ≡ is_key target (unhex digits.now) mark }
{
    mark && is_shaped(digits, target) && is_hex(digits)
}
