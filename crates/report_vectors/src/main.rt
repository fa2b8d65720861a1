// Runs Check and Report on each listing of standard input and prints its index with the number that Check answers, 0 for
// acceptance, and then the report. `tools/report_vectors.py` writes the listings and what is to be printed: answers of a model that
// is independent of the examiner.
#![tactic(auto)]

use records::{
    FILLED, LENT, LONGEST_LISTING, MOST_RECORDS, OUTPUT_BYTES, ReadError, Refusal, Tally,
    print_cut_short, read_record, wrong_words,
};
use std::io;
use std::io::Read;

// The report of a listing; how many words of work are wrong after it.
fn print_report(rt: &impl Print, listing: &[u8]) -> io::Result<usize> {
    let mut work = [FILLED; LENT];
    let mut output = [0u8; OUTPUT_BYTES];
    let length = examiner::report::report(listing, &mut work, &mut output).length;
    rt.write_all(&output[..length])?;
    Ok(wrong_words(&work))
}

fn examine(rt: &impl Print, listing: &[u8], tally: &mut Tally) -> io::Result<()> {
    let mut work = [FILLED; LENT];
    let refusal = examiner::check(listing, &mut work).err().map(Refusal);
    let number = refusal.map_or(0, Refusal::number);
    println!(rt; "{},{number}", tally.listings)?;
    let wrong = print_report(rt, listing)?;
    tally.add(refusal.is_none(), wrong.saturating_add(wrong_words(&work)));
    Ok(())
}

fn examine_all(rt: &impl Print, input: &mut impl Read, tally: &mut Tally) -> Result<(), ReadError> {
    let mut listing = [0u8; LONGEST_LISTING];
    for _ in 0..MOST_RECORDS {
        let Some(size) = read_record(input, &mut listing)? else {
            break;
        };
        examine(rt, &listing[..size], tally)?;
    }
    Ok(())
}

fn main(rt: HostRuntime) -> io::Result<()> {
    let mut tally = Tally::default();
    let read = examine_all(&rt, &mut rt.stdin(), &mut tally);
    print_cut_short(&rt, tally.listings, read)?;
    println!(rt; "{tally}")
}
