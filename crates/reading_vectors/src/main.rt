// Reads each listing of data/listings and prints what reading it answers: its index, the number and the line of the
// refusal, or 0 and the count of lines. tools/reading_vectors.py writes the listings and what is to be printed.
#![tactic(auto)]

use anyhow::{Context, Result};
use ast::CompileError;
use reading::read_listing;
use records::{
    FILLED, LENT, MOST_RECORDS, ReadError, Refusal, decimal, not_cleared, read_full, read_head,
    read_up_to, touched, touched_past,
};
use rows::WORK_WORDS;
use std::fs::File;
use std::io::Read;
use std::{fmt, io};

// No listing of a record is longer.
const LONGEST: usize = 65536;

// So many listings are also read with work that is too short.
const READ_TWICE: usize = 3;

// What a reading gives: how many lines, or a refusal.
#[derive(Clone, Copy, PartialEq, Eq)]
enum Answer {
    Lines(u64),
    Refused(Refused),
}

// A refusal's number and place.
#[derive(Clone, Copy, Default, PartialEq, Eq)]
struct Refused {
    number: u64,
    start: u64,
    end: u64,
    line: u64,
    column: u64,
}

impl Answer {
    // The answer of a number and a line, as a record's head has it: the line of a refusal, or, at number 0, the count of lines.
    fn due(number: u64, line: u64) -> Answer {
        if number == 0 {
            return Answer::Lines(line);
        }
        Answer::Refused(Refused {
            number,
            line,
            ..Refused::default()
        })
    }

    fn is_refused(self) -> bool {
        matches!(self, Answer::Refused(_))
    }

    fn number(self) -> u64 {
        match self {
            Answer::Lines(_) => 0,
            Answer::Refused(refused) => refused.number,
        }
    }

    fn line(self) -> u64 {
        match self {
            Answer::Lines(count) => count,
            Answer::Refused(refused) => refused.line,
        }
    }
}

impl From<Result<usize, CompileError>> for Answer {
    fn from(read: Result<usize, CompileError>) -> Answer {
        match read {
            Ok(count) => Answer::Lines(count as u64),
            Err(e) => Answer::Refused(Refused::from(e)),
        }
    }
}

impl From<CompileError> for Refused {
    fn from(e: CompileError) -> Refused {
        let loc = e.loc;
        Refused {
            number: u64::from(Refusal(e).number()),
            start: u64::from(loc.start),
            end: u64::from(loc.end),
            line: u64::from(loc.line),
            column: u64::from(loc.column),
        }
    }
}

impl fmt::Display for Answer {
    fn fmt<W: fmt::Write>(&self, f: &mut fmt::Formatter<W>) -> fmt::Result {
        write!(f, "{},{}", self.number(), self.line())
    }
}

// How many listings were read, how many answers differ from the record's, and how many words of work are not what is due.
#[derive(Clone, Copy, Default)]
struct Tally {
    listings: usize,
    differ: usize,
    wrong: usize,
}

impl Tally {
    fn add(&mut self, differs: bool, wrong: usize) {
        self.differ = self.differ.saturating_add(usize::from(differs));
        self.wrong = self.wrong.saturating_add(wrong);
    }
}

// The rest of a head after the comma: `number,line` in 1 and 4 digits, and byte 10.
fn read_due(input: &mut impl Read) -> io::Result<Answer> {
    let mut rest = [0u8; 7];
    read_full(input, &mut rest)?;
    Ok(Answer::due(decimal(&rest[..1]) as u64, decimal(&rest[2..6]) as u64))
}

// Says where the answer is another than the record's. Is it?
fn differs(rt: &impl Print, index: usize, answer: Answer, due: Answer) -> io::Result<bool> {
    if answer == due {
        return Ok(false);
    }
    println!(rt;
        "{index} differs: {} at 0,0,{},0 is due",
        due.number(),
        due.line()
    )?;
    Ok(true)
}

// After a refusal the words that are asked are zero; those past them are never touched.
fn wrong_words(work: &[u32; LENT], answer: Answer) -> usize {
    let past = touched_past(work);
    if answer.is_refused() {
        past.saturating_add(not_cleared(work))
    } else {
        past
    }
}

// A listing is read with work enough.
fn examine(rt: &impl Print, listing: &[u8], due: Answer, tally: &mut Tally) -> io::Result<()> {
    let mut work = [FILLED; LENT];
    let answer = Answer::from(read_listing(listing, &mut work));
    println!(rt; "{},{answer}", tally.listings)?;
    tally.add(
        differs(rt, tally.listings, answer, due)?,
        wrong_words(&work, answer),
    );
    Ok(())
}

// With a word too few the answer is 5 at 0,0,0,0, and work is as it was.
fn examine_short(rt: &impl Print, listing: &[u8], tally: &mut Tally) -> io::Result<()> {
    let mut work = [FILLED; LENT];
    let answer = Answer::from(read_listing(listing, &mut work[..WORK_WORDS - 1]));
    println!(rt; "{} with short work,{answer}", tally.listings)?;
    tally.add(
        differs(rt, tally.listings, answer, Answer::due(5, 0))?,
        touched(&work),
    );
    Ok(())
}

// One record, its listing in a lent buffer; false at the end of the input. What is left of a record that is cut short is read too.
fn examine_record(
    rt: &impl Print,
    input: &mut impl Read,
    buffer: &mut [u8],
    tally: &mut Tally,
) -> Result<bool, ReadError> {
    let Some(size) = read_head(input, b',')? else {
        return Ok(false);
    };
    let due = read_due(input)?;
    let n = read_up_to(input, buffer, size)?;
    read_full(input, &mut [0u8; 1])?;
    let listing = &buffer[..n];
    if tally.listings < READ_TWICE {
        examine_short(rt, listing, tally)?;
    }
    examine(rt, listing, due, tally)?;
    tally.listings = tally.listings.saturating_add(1);
    Ok(true)
}

fn examine_all(rt: &impl Print, input: &mut impl Read, tally: &mut Tally) -> Result<(), ReadError> {
    let mut buffer = [0u8; LONGEST];
    for _ in 0..MOST_RECORDS {
        if !examine_record(rt, input, &mut buffer, tally)? {
            break;
        }
    }
    Ok(())
}

fn main(rt: HostRuntime) -> Result<()> {
    let mut file = File::open(&rt, "listings").context("listings")?;
    let mut tally = Tally::default();
    match examine_all(&rt, &mut file, &mut tally) {
        Ok(()) | Err(ReadError::CutShort) => {}
        Err(ReadError::Io(e)) => return Err(e.into()),
    }
    println!(rt;
        "{} listings, {} differ, {} words of work wrong",
        tally.listings, tally.differ, tally.wrong
    )?;
    Ok(())
}
