// What the programs over stored listings have in common. A record of their files is a head that begins with the count of its bytes
// in five digits, the bytes, and byte 10.
#![tactic(auto)]

ghost use Rattle.std.specs.Prelude.{◌≡◌, ◌+◌, ◌-◌, ◌^◌, min, if◌then◌else◌, IsOk, IsErrOf, ◌<◌, ◌≤◌, [], ◌∷◌, IfOk, IfSome, OnOk, MatchOption, length, take, drop, vec_len};
ghost use Rattle.std.specs.Io.{ReadsAtMost};
ghost use Rattle.std.specs.Io.KnownBytes.{Consumes, IsAtEnd};
ghost use Rattle.records.specs.Bytes.{number_in, ReadsHead, ReadsRecord, BeginsWithHead, BeginsWithEnd, BeginsWithRecord};
ghost use Rattle.ast.specs.Tree.{number};
ghost use Rattle.std.specs.Iterator.{at_most};
ghost use Rattle.records.specs.declared.ReadError.TheVariants.{CutShort, Io};
ghost use Rattle.records.specs.Records.{records_input, records_left, records_longest};
ghost use Rattle.records.specs.Wrong.{wrong_in};

use ast::CompileError;
use rows::WORK_WORDS;
use std::alloc::Global;
use std::error::Error;
use std::io::Read;
use std::{fmt, io};

#[cfg(test)]
mod tests;

// What work memory holds before a call.
pub const FILLED: u32 = 7;

// How many words of it are lent: 16 more than are asked.
pub const LENT: usize = WORK_WORDS + 16;

// No listing of a record is longer.
pub const LONGEST_LISTING: usize = 32768;

// How many records with a listing are read of an input at most: nothing says that it ends.
pub const MOST_RECORDS: usize = 100_000;

// The room for a report.
pub const OUTPUT_BYTES: usize = 65536;

// Why a record was not read.
#[derive(Debug, Drop)]
pub enum ReadError {
    CutShort,
    Io(io::Error),
}

impl fmt::Display for ReadError {
    fn fmt<W: fmt::Write>(&self, f: &mut fmt::Formatter<W>) -> fmt::Result {
        match self {
            ReadError::CutShort => write!(f, "a record is cut short"),
            ReadError::Io(e) => write!(f, "{e}"),
        }
    }
}

impl Error for ReadError {}

impl From<io::Error> for ReadError {
    ghost from_gives = { λ e r. r ≡ Io e };

    fn from(e: io::Error) -> ReadError {
        ReadError::Io(e)
    }
}

// The number that decimal digits spell, each the low half of its byte.
pub fn decimal(digits: &[u8]) -> usize
    requires { length digits.now ≤ 5 }
    ensures { result ≡ number_in 0 digits.now }
{
    let mut number = 0;
    for digit in digits {
        number = 10 * number + usize::from(digit % 16);
    }
    number
}

// Reads until the buffer is full or the input ends, and answers how many bytes it put at the buffer's start. A read that fails is
// the error.
pub fn read_full<R: Read>(reader: &mut R, buffer: &mut [u8]) -> io::Result<usize>
    ensures bound { ReadsAtMost result buffer.new }
    ensures bytes { IfOk result (λ n. Consumes (R.remaining reader.old) (R.remaining reader.new) (take n buffer.new)) }
    ensures end { IfOk result (λ n. n < length buffer.new → IsAtEnd (R.remaining reader.new)) }
{
    let mut done = 0;
    while done < buffer.len() {
        let n = reader.read(&mut buffer[done..])?;
        if n == 0 {
            break;
        }
        done += n;
    }
    Ok(done)
}

// The next `size` bytes at the buffer's start, or fewer where the input ends among them; none, and nothing is read, where the buffer
// is too small.
pub fn read_up_to<R: Read>(reader: &mut R, buffer: &mut [u8], size: usize) -> io::Result<usize>
    ensures bound { ReadsAtMost result buffer.new }
    ensures size { IfOk result (λ n. n ≤ size) }
    ensures length { length buffer.new ≡ length buffer.old }
    ensures past { drop size buffer.new ≡ drop size buffer.old }
    ensures bytes { IfOk result (λ n. Consumes (R.remaining reader.old) (R.remaining reader.new) (take n buffer.new)) }
    ensures end { IfOk result (λ n. size ≤ length buffer.old → n < size → IsAtEnd (R.remaining reader.new)) }
{
    if size > buffer.len() {
        return Ok(0);
    }
    read_full(reader, &mut buffer[..size])
}

// The next `size` bytes at the buffer's start.
pub fn read_bytes<R: Read>(reader: &mut R, buffer: &mut [u8], size: usize) -> Result<(), ReadError>
    ensures size { OnOk result (size ≤ length buffer.new) }
    ensures length { length buffer.new ≡ length buffer.old }
    ensures past { drop size buffer.new ≡ drop size buffer.old }
    ensures bytes { OnOk result (Consumes (R.remaining reader.old) (R.remaining reader.new) (take size buffer.new)) }
    ensures cut_short { IsErrOf result ReadError.CutShort → size ≤ length buffer.old → IfSome (R.remaining reader.old) (λ xs. length xs < size) }
{
    if read_up_to(reader, buffer, size)? < size {
        return Err(ReadError::CutShort);
    }
    Ok(())
}

// The next head's five digits, and the byte that must stand after them; none at the input's end.
pub fn read_head<R: Read>(reader: &mut R, after: u8) -> Result<Option<usize>, ReadError>
    ensures ok { IfOk result (λ head. MatchOption head (IsAtEnd (R.remaining reader.old))
        (ReadsHead (R.remaining reader.old) (R.remaining reader.new) after)) }
    ensures cut_short { IsErrOf result ReadError.CutShort → IfSome (R.remaining reader.old) (λ xs. ¬ BeginsWithHead after xs) }
{
    let mut head = [0u8; 6];
    match read_full(reader, &mut head)? {
        0 => Ok(None),
        6 if head[5] == after => Ok(Some(decimal(&head[..5]))),
        _ => Err(ReadError::CutShort),
    }
}

// The byte 10 after a record's bytes.
pub fn read_end<R: Read>(reader: &mut R) -> Result<(), ReadError>
    ensures ok { OnOk result (Consumes (R.remaining reader.old) (R.remaining reader.new) (10 ∷ [])) }
    ensures cut_short { IsErrOf result ReadError.CutShort → IfSome (R.remaining reader.old) (λ xs. ¬ BeginsWithEnd xs) }
{
    let mut end = [0u8; 1];
    match read_full(reader, &mut end)? {
        1 if end[0] == b'\n' => Ok(()),
        _ => Err(ReadError::CutShort),
    }
}

// The next record's bytes at the buffer's start, and how many they are; none at the input's end. A record of more bytes than the
// buffer has is taken for one that is cut short.
pub fn read_record<R: Read>(reader: &mut R, buffer: &mut [u8]) -> Result<Option<usize>, ReadError>
    ensures ok { IfOk result (λ found. MatchOption found (IsAtEnd (R.remaining reader.old))
        (λ size. (size ≤ length buffer.new) × ReadsRecord (R.remaining reader.old) (R.remaining reader.new) (take size buffer.new))) }
    ensures length { length buffer.new ≡ length buffer.old }
    ensures past { IfOk result (λ found. MatchOption found (buffer.new ≡ buffer.old) (λ size. drop size buffer.new ≡ drop size buffer.old)) }
    ensures cut_short { IsErrOf result ReadError.CutShort → IfSome (R.remaining reader.old) (λ xs. ¬ BeginsWithRecord (length buffer.old) xs) }
{
    let Some(size) = read_head(reader, b'\n')? else {
        return Ok(None);
    };
    read_bytes(reader, buffer, size)?;
    read_end(reader)?;
    Ok(Some(size))
}

// The next `size` bytes, at most `longest`, in memory from the heap.
fn read_vec<R: Read>(
    reader: &mut R,
    alloc: Global,
    size: usize,
    longest: usize,
) -> Result<Vec<u8>, ReadError>
    ensures size { IfOk result (λ bytes. (vec_len bytes ≡ size) × (size ≤ longest)) }
    ensures bytes { IfOk result (λ bytes. Consumes (R.remaining reader.old) (R.remaining reader.new) bytes.items) }
    ensures cut_short { IsErrOf result ReadError.CutShort → size ≤ longest → IfSome (R.remaining reader.old) (λ xs. length xs < size) }
{
    if size > longest {
        return Err(ReadError::CutShort);
    }
    let mut bytes = vec![in alloc; 0; size].map_err(io::Error::from)?;
    read_bytes(reader, &mut bytes, size)?;
    Ok(bytes)
}

// The next record's bytes, at most `longest`, in memory from the heap; none at the input's end.
fn read_vec_record<R: Read>(
    reader: &mut R,
    alloc: Global,
    longest: usize,
) -> Result<Option<Vec<u8>>, ReadError>
    ensures ok { IfOk result (λ found. MatchOption found (IsAtEnd (R.remaining reader.old))
        (λ bytes. ReadsRecord (R.remaining reader.old) (R.remaining reader.new) bytes.items)) }
    ensures longest { IfOk result (λ found. IfSome found (λ bytes. vec_len bytes ≤ longest)) }
    ensures cut_short { IsErrOf result ReadError.CutShort → IfSome (R.remaining reader.old) (λ xs. ¬ BeginsWithRecord longest xs) }
{
    let bytes = match read_head(reader, b'\n')? {
        Some(size) => read_vec(reader, alloc, size, longest)?,
        None => return Ok(None),
    };
    read_end(reader).map(|()| Some(bytes))
}

// The records of an input, one after another, each in memory from the heap. No program here uses it.
#[derive(Drop)]
pub struct Records<R> {
    input: R,
    alloc: Global,
    longest: usize,
    turns: u64,
}

impl<R> Records<R> {
    // None is to have more bytes than `longest`. Nothing says that an input ends, so the records are counted down.
    pub fn new(alloc: Global, input: R, longest: usize) -> Records<R>
        ensures input { records_input result ≡ input }
        ensures longest { records_longest result ≡ longest }
        ensures left { records_left result ≡ 2 ^ 64 - 1 }
    {
        Records {
            input,
            alloc,
            longest,
            turns: u64::MAX,
        }
    }
}

impl<R: Read> Iterator for Records<R>
where
    R: Drop,
{
    type Item = Result<Vec<u8>, ReadError>;

    ghost next_gives = { λ s r t. (records_longest t ≡ records_longest s)
        × MatchOption r (0 < records_left s → IsAtEnd (R.remaining (records_input s))) (λ item.
        IfOk item (λ bytes. ReadsRecord (R.remaining (records_input s)) (R.remaining (records_input t)) bytes.items)
        × (IsErrOf item CutShort
        → IfSome (R.remaining (records_input s)) (λ xs. ¬ BeginsWithRecord (records_longest s) xs))
        × IfOk item (λ bytes. vec_len bytes ≤ records_longest s)
        × (0 < records_left s))
        × (records_left t ≡ records_left s - 1) };

    ghost remaining = { λ s. at_most (records_left s) };

    fn next(&mut self) -> Option<Result<Vec<u8>, ReadError>> {
        self.turns = self.turns.checked_sub(1)?;
        read_vec_record(&mut self.input, self.alloc, self.longest).transpose()
    }
}

// Prints the index of a record that is cut short, if that is why reading came to an end.
pub fn print_cut_short(rt: &impl Print, index: usize, read: Result<(), ReadError>) -> io::Result<()>
    ensures ok { IsOk read → IsOk result }
    ensures io { (e : _) → read ≡ Err (ReadError.Io e) → result ≡ Err e }
{
    match read {
        Ok(()) => Ok(()),
        Err(ReadError::CutShort) => println!(rt; "{index} is cut short"),
        Err(ReadError::Io(e)) => Err(e),
    }
}

// A refusal, printed as its number and its place.
#[derive(Clone, Copy)]
pub struct Refusal(pub CompileError);

impl Refusal {
    pub fn number(self) -> u32
        ensures { result ≡ number self.0.kind }
    {
        self.0.kind.into()
    }
}

impl fmt::Display for Refusal {
    fn fmt<W: fmt::Write>(&self, f: &mut fmt::Formatter<W>) -> fmt::Result {
        let number = self.number();
        let loc = self.0.loc;
        write!(
            f,
            "{number},{},{},{},{}",
            loc.start, loc.end, loc.line, loc.column
        )
    }
}

// How many listings there were, how many were accepted, and how many words of work are not what is due.
#[derive(Clone, Copy, Default)]
pub struct Tally {
    pub listings: usize,
    pub accepted: usize,
    pub wrong: usize,
}

impl Tally {
    // With one more listing. The counts stop at the largest number.
    pub fn add(&mut self, is_accepted: bool, wrong: usize)
        ensures listings { self.new.listings ≡ min (self.old.listings + 1) (2 ^ 64 - 1) }
        ensures accepted { self.new.accepted ≡ min (self.old.accepted + (if is_accepted then 1 else 0)) (2 ^ 64 - 1) }
        ensures wrong { self.new.wrong ≡ min (self.old.wrong + wrong) (2 ^ 64 - 1) }
    {
        self.listings = self.listings.saturating_add(1);
        self.accepted = self.accepted.saturating_add(usize::from(is_accepted));
        self.wrong = self.wrong.saturating_add(wrong);
    }
}

impl fmt::Display for Tally {
    fn fmt<W: fmt::Write>(&self, f: &mut fmt::Formatter<W>) -> fmt::Result {
        write!(
            f,
            "{} listings, {} accepted, {} words of work wrong",
            self.listings, self.accepted, self.wrong
        )
    }
}

// How many of the words are not `due`.
fn count_wrong(words: &[u32], due: u32) -> usize
    ensures value { result ≡ wrong_in due words.now }
    ensures bound { result ≤ length words.now }
{
    words.iter().filter(|word| **word != due).count()
}

// How many of the words were touched.
pub fn touched(work: &[u32; LENT]) -> usize
    ensures { result ≡ wrong_in 7 work.now }
{
    count_wrong(work, FILLED)
}

// How many of the words past the 16384 that are asked were touched.
pub fn touched_past(work: &[u32; LENT]) -> usize
    ensures { result ≡ wrong_in 7 (drop 16384 work.now) }
{
    let (_, past) = work.split_at(WORK_WORDS);
    count_wrong(past, FILLED)
}

// How many of the 16384 words that are asked are not zero.
pub fn not_cleared(work: &[u32; LENT]) -> usize
    ensures { result ≡ wrong_in 0 (take 16384 work.now) }
{
    let (asked, _) = work.split_at(WORK_WORDS);
    count_wrong(asked, 0)
}

// How many words are not as Check leaves them: 16384 are zero, and those past them untouched.
pub fn wrong_words(work: &[u32; LENT]) -> usize
    ensures { result ≡ wrong_in 0 (take 16384 work.now) + wrong_in 7 (drop 16384 work.now) }
{
    let (asked, past) = work.split_at(WORK_WORDS);
    count_wrong(asked, 0) + count_wrong(past, FILLED)
}
