// Rehearses on listings: reads records on standard input and answers each call at once, by a line on standard output. The first
// byte of a record says what it is:
//   t                      the rest is the listing that the calls after it are made on
//   o,path                 open
//   l,path,due,type,name   lay; the name is all that is left
//   b,path,due             take back
// An answer is `number,start,end,line,column path,due 1,place,length,type`, the last four 0,0,0,0 for a rehearsal that has ended;
// after a refusal it is `number,start,end,line,column - -`. A record of no form is answered by `no call`. `./examine --rehearse`
// asks this program, and the gate runs it on stdin, which tools/rehearsal_vectors.py writes.
#![tactic(auto)]

use records::{FILLED, LENT, ReadError, Refusal, read_bytes, read_end, read_head, wrong_words};
use std::io::Read;
use std::{fmt, io};
use text::{COMMA, Cursor};
use turns::{Rehearsal, Rehearsed};
use words::read_word;

// No record is longer: a byte that says what it is, and 65536 more.
const LONGEST: usize = 65537;

// How many calls on a listing are answered at most, and on how many listings: nothing says that the input ends.
const MOST_CALLS: usize = 1_000_000;

const MOST_LISTINGS: usize = 100_000;

// What is asked of a rehearsal.
#[derive(Clone, Copy)]
enum Call<'a> {
    Open(u32),
    Lay(Rehearsal, u32, &'a [u8]),
    Back(Rehearsal),
}

// The rehearsal that a call hands back.
fn read_rehearsal(c: Cursor) -> Option<(Rehearsal, Cursor)> {
    let (path, c) = read_word(c)?;
    let (due, c) = read_word(c)?;
    Some((Rehearsal { path, due }, c))
}

// Where nothing follows.
fn is_end(c: Cursor) -> bool {
    c.at == c.listing.len()
}

impl<'a> Call<'a> {
    // The call that a record is, if it has its form.
    fn read(record: &'a [u8]) -> Option<Call<'a>> {
        let kind = *record.first()?;
        let call = Cursor {
            listing: record,
            at: 1,
        };
        match kind {
            b'o' => Call::read_open(call),
            b'l' => Call::read_lay(call),
            b'b' => Call::read_back(call),
            _ => None,
        }
    }

    fn read_open(call: Cursor<'a>) -> Option<Call<'a>> {
        let (path, c) = read_word(call)?;
        is_end(c).then_some(Call::Open(path))
    }

    fn read_lay(call: Cursor<'a>) -> Option<Call<'a>> {
        let (rehearsal, c) = read_rehearsal(call)?;
        let (ty, c) = read_word(c)?;
        let name = c.skip(COMMA)?;
        Some(Call::Lay(rehearsal, ty, name.rest()))
    }

    fn read_back(call: Cursor<'a>) -> Option<Call<'a>> {
        let (rehearsal, c) = read_rehearsal(call)?;
        is_end(c).then_some(Call::Back(rehearsal))
    }

    fn answer(self, listing: &[u8], work: &mut [u32]) -> Answer {
        Answer(match self {
            Call::Open(path) => rehearsal::open(listing, work, path),
            Call::Lay(from, ty, name) => rehearsal::lay(listing, work, from, name, ty),
            Call::Back(from) => rehearsal::take_back(listing, work, from),
        })
    }
}

// A call's answer, printed as its line.
#[derive(Clone, Copy)]
struct Answer(Rehearsed);

impl fmt::Display for Answer {
    fn fmt<W: fmt::Write>(&self, f: &mut fmt::Formatter<W>) -> fmt::Result {
        match self.0 {
            Rehearsed::Due(name, ty, r) => {
                let ty = u32::from(ty);
                write!(
                    f,
                    "0,0,0,0,0 {},{} 1,{},{},{ty}",
                    r.path, r.due, name.at, name.len
                )
            }
            Rehearsed::Ended(r) => write!(f, "0,0,0,0,0 {},{} 0,0,0,0", r.path, r.due),
            Rehearsed::Refused(e) => write!(f, "{} - -", Refusal(e)),
        }
    }
}

// How many calls were answered, and how many words of work are not what is due.
#[derive(Clone, Copy, Default)]
struct Tally {
    calls: usize,
    wrong: usize,
}

fn answer_call(
    rt: &impl Print,
    listing: &[u8],
    record: &[u8],
    tally: &mut Tally,
) -> io::Result<()> {
    let Some(call) = Call::read(record) else {
        return println!(rt; "no call");
    };
    let mut work = [FILLED; LENT];
    let answer = call.answer(listing, &mut work);
    println!(rt; "{answer}")?;
    tally.calls = tally.calls.saturating_add(1);
    tally.wrong = tally.wrong.saturating_add(wrong_words(&work));
    Ok(())
}

// The calls on a listing. How many bytes of another listing follow, if one does.
fn answer_calls(
    rt: &impl Print,
    input: &mut impl Read,
    listing: &[u8],
    tally: &mut Tally,
) -> Result<Option<usize>, ReadError> {
    let mut record = [0u8; LONGEST];
    for _ in 0..MOST_CALLS {
        let Some(size) = read_head(input, b'\n')? else {
            break;
        };
        let first = size.min(1);
        read_bytes(input, &mut record, first)?;
        if record[..first].starts_with(b"t") {
            return Ok(Some(size - first));
        }
        read_bytes(input, &mut record[first..], size - first)?;
        read_end(input)?;
        answer_call(rt, listing, &record[..size], tally)?;
    }
    Ok(None)
}

// All calls, each on the listing last read. Those before the first are made on a listing of no bytes.
fn answer_all(rt: &impl Print, input: &mut impl Read, tally: &mut Tally) -> Result<(), ReadError> {
    let mut listing = [0u8; LONGEST - 1];
    let mut following = answer_calls(rt, input, b"", tally)?;
    for _ in 0..MOST_LISTINGS {
        let Some(size) = following else {
            break;
        };
        read_bytes(input, &mut listing, size)?;
        read_end(input)?;
        following = answer_calls(rt, input, &listing[..size], tally)?;
    }
    Ok(())
}

fn main(rt: HostRuntime) -> io::Result<()> {
    let mut tally = Tally::default();
    match answer_all(&rt, &mut rt.stdin(), &mut tally) {
        Ok(()) => {}
        Err(ReadError::CutShort) => {
            println!(rt; "{} calls, then a record that is cut short", tally.calls)?;
        }
        Err(ReadError::Io(e)) => return Err(e),
    }
    println!(rt;
        "{} calls, {} words of work wrong",
        tally.calls, tally.wrong
    )
}
