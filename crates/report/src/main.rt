// Reads a listing on standard input and prints its report. The buffer is larger than a listing may be, so that one that is too
// long is seen to be.
#![tactic(auto)]

use records::{OUTPUT_BYTES, read_full};
use rows::WORK_WORDS;
use std::io;

// The most that is read of a listing.
const MOST_READ: usize = 65536;

// The report of a listing.
fn print_report(rt: &impl Print, listing: &[u8]) -> io::Result<()> {
    let mut work = [0u32; WORK_WORDS];
    let mut output = [0u8; OUTPUT_BYTES];
    let length = examiner::report::report(listing, &mut work, &mut output).length;
    rt.write_all(&output[..length])
}

fn main(rt: HostRuntime) -> io::Result<()> {
    let mut listing = [0u8; MOST_READ];
    let length = read_full(&mut rt.stdin(), &mut listing)?;
    print_report(&rt, &listing[..length])
}
