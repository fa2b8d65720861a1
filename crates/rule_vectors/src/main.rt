// Runs Check on each listing of data/listings and prints its answer: the listing's index, then the number and the place of
// the refusal, or five zeros. `harness/run vectors` writes the listings and what is to be printed: the original's answers.
#![tactic(auto)]

use anyhow::{Context, Result};
use records::{
    FILLED, LENT, LONGEST_LISTING, MOST_RECORDS, ReadError, Refusal, Tally, print_cut_short,
    read_record, wrong_words,
};
use std::fs::File;
use std::io::Read;
use std::{fmt, io};

// What Check answered.
#[derive(Clone, Copy)]
struct Answer {
    refusal: Option<Refusal>,
}

impl fmt::Display for Answer {
    fn fmt<W: fmt::Write>(&self, f: &mut fmt::Formatter<W>) -> fmt::Result {
        match self.refusal {
            Some(refusal) => write!(f, "{refusal}"),
            None => write!(f, "0,0,0,0,0"),
        }
    }
}

fn examine(rt: &impl Print, listing: &[u8], tally: &mut Tally) -> io::Result<()> {
    let mut work = [FILLED; LENT];
    let refusal = examiner::check(listing, &mut work).err().map(Refusal);
    let answer = Answer { refusal };
    println!(rt; "{},{answer}", tally.listings)?;
    tally.add(answer.refusal.is_none(), wrong_words(&work));
    Ok(())
}

fn examine_all(rt: &impl Print, input: &mut impl Read, tally: &mut Tally) -> Result<(), ReadError> {
    let mut listing = [0u8; LONGEST_LISTING];
    for _ in 0..MOST_RECORDS {
        let Some(size) = read_record(input, &mut listing)? else {
            break;
        };
        examine(rt, &listing[..size], tally)?;
    }
    Ok(())
}

fn main(rt: HostRuntime) -> Result<()> {
    let mut file = File::open(&rt, "listings").context("listings")?;
    let mut tally = Tally::default();
    let read = examine_all(&rt, &mut file, &mut tally);
    print_cut_short(&rt, tally.listings, read)?;
    println!(rt; "{tally}")?;
    Ok(())
}
