// A literal's length, measured over its digits in the listing.
ghost use Rattle.std.specs.Prelude.{◌≡◌, ◌&&◌, ◌+◌, ◌*◌, ◌<◌, length};
ghost use Rattle.std.specs.List.{list_all};
ghost use Rattle.rules.specs.Keys.{is_digit, all_digits, is_hex, pushed};
ghost use Rattle.text.specs.Text.{is_hex_digit, hex_value, unhex};
ghost use Rattle.limits.specs.Pairs.{AllPairs};

// What a lower-case hex digit stands for. A byte that is none gets what the definition gives it, so nothing is asked of the listing's bytes.
#[tactic(auto, unfolding(text::specs::Text::hex_value))]
fn hex_value(b: u8) -> u32
    ensures value { result ≡ hex_value b }
    ensures upper_bound { result < 256 }
{
    match b {
        b'0'..=b'9' => u32::from(b - b'0'),
        87.. => u32::from(b - 87),
        _ => 0,
    }
}

// A hex digit of either case.
#[tactic(auto, unfolding(rules::specs::Keys::is_digit, rules::specs::Keys::within))]
pub fn is_digit(b: u32) -> bool
    ensures { result ≡ is_digit b }
{
    matches!(b, 48..=57 | 65..=70 | 97..=102)
}

// The byte that two digits of the listing spell.
pub fn byte_of(a: u8, b: u8) -> u32
    ensures value { result ≡ hex_value a * 16 + hex_value b }
    ensures upper_bound { result < 4352 }
{
    hex_value(a) * 16 + hex_value(b)
}

// Whether two lower-case hex digits spell a hex digit of either case, tested without a branch: '0' to '9' are 30 to 39, 'A' to 'F' 41 to 46, 'a' to 'f' 61 to 66.
fn is_digit_pair(a: u8, b: u8) -> bool
    ensures { result ≡ (is_hex_digit a && is_hex_digit b && is_digit (hex_value a * 16 + hex_value b)) }
{
    ((a == b'3') & (b'0' <= b) & (b <= b'9'))
        | (((a == b'4') | (a == b'6')) & (b'1' <= b) & (b <= b'6'))
}

// Whether 32 bytes are lower-case hex digits that spell hex digits. Each pair is tested, with no way out before the last, so that they are tested together.
fn is_digit_run(run: &[u8]) -> bool
    requires { length run.now ≡ 32 }
    ensures { result ≡ (list_all is_hex_digit run.now && all_digits (unhex run.now)) }
{
    let mut ok = true;
    for p in run.chunks_exact(2) {
        ok &= is_digit_pair(p[0], p[1]);
    }
    ok
}

// Whether two digits of the listing spell a hex digit. The test without a branch comes first.
fn is_spelled_digit(a: u8, b: u8) -> bool
    ensures { result ≡ is_digit (hex_value a * 16 + hex_value b) }
{
    is_digit_pair(a, b) || is_digit(byte_of(a, b))
}

// Whether each pair of digits passes a test, up to the first that does not.
pub fn all_pairs<F: Fn(u8, u8) -> bool>(digits: &[u8], test: F) -> bool
    requires { F.IsAlwaysCallable test }
    ensures { AllPairs (F.post test) digits.now result }
{
    digits.chunks_exact(2).all(|p| test(p[0], p[1]))
}

// Whether the bytes that digits spell are all hex digits: 16 pairs at a time while all are, the rest pair by pair. Each digit is read at most twice.
pub fn are_digits(digits: &[u8]) -> bool
    ensures { result ≡ all_digits (unhex digits.now) }
{
    let runs = digits.chunks_exact(32);
    let count = 32 * runs.take_while(|run| is_digit_run(run)).count();
    all_pairs(&digits[count..], is_spelled_digit)
}

// Whether a literal's bytes are an even count of hex digits.
#[tactic(auto, unfolding(rules::specs::Keys::is_hex), using(crate::proofs::Digits::unhex_length))]
pub fn is_hex(digits: &[u8]) -> bool
    ensures { result ≡ is_hex (unhex digits.now) }
{
    digits.len() / 2 % 2 == 0 && are_digits(digits)
}

// A literal's length: half its bytes if they are an even count of hex digits, else its bytes.
#[tactic(auto, unfolding(rules::specs::Keys::pushed), using(crate::proofs::Digits::unhex_length))]
pub fn literal_length(digits: &[u8]) -> usize
    ensures { result ≡ pushed (unhex digits.now) }
{
    let count = digits.len() / 2;
    if is_hex(digits) { count / 2 } else { count }
}
