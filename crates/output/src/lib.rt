// Text put into a sink: stored in a lent output, or only counted.
#![tactic(auto)]

ghost use Rattle.std.specs.Prelude.{◌≡◌, ◌≤◌, ◌∷◌, [], ℕ, ◌+◌, ◌/◌, List, length};
ghost use Rattle.std.proofs.lemmas.List.Edits.{sets};
ghost use Rattle.output.specs.Decimal.{decimal, last_digit};
ghost use Rattle.output.specs.Sink.{SinkLaws};
ghost use Rattle.output.specs.Sinks.{counted, IsCount, counter_laws, stored, HasRoom, writer_laws};

const COMMA: u8 = b',';

// Where text is put.
pub trait Sink {
    // the sink after a text
    ghost after: { Self → List ℕ → Self };

    // there is room for a text
    ghost fits: { Self → List ℕ → Type 0 };

    ghost laws: { SinkLaws after fits };

    // One byte.
    fn put(&mut self, b: u8)
        requires { fits self.old (b ∷ []) }
        ensures { self.new ≡ after self.old (b ∷ []) };

    // All of `s`.
    fn put_all(&mut self, s: &[u8])
        requires { fits self.old s.now }
        ensures { self.new ≡ after self.old s.now };

    // A number in decimal.
    fn put_decimal(&mut self, x: u32)
        requires { fits self.old (decimal x) }
        ensures { self.new ≡ after self.old (decimal x) };
}

// Counts the bytes of a text, in 64 bits, which hold the length of any report; past the largest number the count stays there.
#[derive(Clone, Copy, PartialEq, Eq)]
pub struct Counter {
    pub length: usize,
}

impl Sink for Counter {
    ghost after = { counted };

    ghost fits = { IsCount };

    ghost laws = { counter_laws };

    fn put(&mut self, _b: u8) {
        self.length = self.length.saturating_add(1);
    }

    fn put_all(&mut self, s: &[u8]) {
        self.length = self.length.saturating_add(s.len());
    }

    fn put_decimal(&mut self, x: u32) {
        self.length = self.length.saturating_add(decimal_length(x));
    }
}

// Stores a text in a lent output, from `at` on.
#[derive(Drop)]
pub struct Writer<'a> {
    pub output: &'a mut [u8],
    pub at: usize,
}

impl Sink for Writer<'_> {
    ghost after = { stored };

    ghost fits = { HasRoom };

    ghost laws = { writer_laws };

    fn put(&mut self, b: u8) {
        self.output[self.at] = b;
        self.at += 1;
    }

    // Byte by byte: with `copy_from_slice` the archive for C needs `memmove` from outside.
    fn put_all(&mut self, s: &[u8]) {
        for (k, &b) in s.iter().enumerate() {
            self.output[self.at + k] = b;
        }
        self.at += s.len();
    }

    fn put_decimal(&mut self, x: u32) {
        self.at = write_decimal(self.output, self.at, x);
    }
}

// How many digits a number has.
#[tactic(auto, using(crate::proofs::Laws::length_one, crate::proofs::Laws::length_power))]
fn decimal_length(x: u32) -> usize
    ensures { result ≡ length (decimal x) }
{
    x.checked_ilog10().map_or(1, |n| n as usize + 1)
}

// The last digit of a number.
fn digit(x: u32) -> u8
    ensures { result ≡ last_digit x }
{
    b'0' + (x % 10) as u8
}

// The last two digits of a number.
fn write_two(output: &mut [u8], at: usize, x: u32)
    requires { at + 2 ≤ length output.old }
    ensures { output.new ≡ sets output.old at (last_digit (x / 10) ∷ last_digit x ∷ []) }
{
    output[at] = digit(x / 10);
    output[at + 1] = digit(x);
}

// The last three digits of a number.
fn write_three(output: &mut [u8], at: usize, x: u32)
    requires { at + 3 ≤ length output.old }
    ensures { output.new ≡ sets output.old at (last_digit (x / 100) ∷ last_digit (x / 10) ∷ last_digit x ∷ []) }
{
    output[at] = digit(x / 100);
    write_two(output, at + 1, x);
}

// A number in decimal, three digits at a time, which is faster than one. Returns the position after it.
#[tactic(auto, using(crate::proofs::Laws::length_one, crate::proofs::Laws::length_two, crate::proofs::Laws::length_three, crate::proofs::Laws::length_thousands))]
fn write_decimal(output: &mut [u8], at: usize, x: u32) -> usize
    requires { at + length (decimal x) ≤ length output.old }
    ensures text { output.new ≡ sets output.old at (decimal x) }
    ensures past { result ≡ at + length (decimal x) }
{
    if x < 10 {
        output[at] = digit(x);
        return at + 1;
    }
    if x < 100 {
        write_two(output, at, x);
        return at + 2;
    }
    if x < 1000 {
        write_three(output, at, x);
        return at + 3;
    }
    let next = write_decimal(output, at, x / 1000);
    write_three(output, next, x);
    next + 3
}

// A field: a comma and a number.
pub fn put_field<S: Sink>(sink: &mut S, x: u32)
    requires { S.fits sink.old (44 ∷ decimal x) }
    ensures text { sink.new ≡ S.after sink.old (44 ∷ decimal x) }
    ensures short { length (44 ∷ decimal x) ≤ 11 }
{
    sink.put(COMMA);
    sink.put_decimal(x);
}

// A field of bytes: a comma and `s`.
pub fn put_part<S: Sink>(sink: &mut S, s: &[u8])
    requires { S.fits sink.old (44 ∷ s.now) }
    ensures text { sink.new ≡ S.after sink.old (44 ∷ s.now) }
    ensures short { length (44 ∷ s.now) ≤ 1 + length s.now }
{
    sink.put(COMMA);
    sink.put_all(s);
}
