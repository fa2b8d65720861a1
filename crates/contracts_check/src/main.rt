// Runs Report and Name on each sample of contracts/ and prints the name of its file, the report, and the names of its items: the
// lines `N,path,position,name`, from the top of each path on until Name gives none. In data/listings a record with the file's name
// stands before each listing; tools/contracts.py writes data/listings and what is to be printed.
#![tactic(auto)]

use anyhow::{Context, Result};
use examiner::name::name;
use records::{
    LONGEST_LISTING, MOST_RECORDS, OUTPUT_BYTES, ReadError, Tally, print_cut_short, read_bytes,
    read_end, read_head, read_record,
};
use rows::WORK_WORDS;
use std::fs::File;
use std::io;
use std::io::Read;

// A listing has at most 32 paths, and a path 32 items; one more of each is asked for.
const ASKED: u32 = 33;

// No file's name is longer.
const LONGEST_NAME: usize = 4096;

// The report of a listing. Is it accepted?
fn print_report(rt: &impl Print, listing: &[u8]) -> io::Result<bool> {
    let mut work = [0u32; WORK_WORDS];
    let mut output = [0u8; OUTPUT_BYTES];
    let reported = examiner::report::report(listing, &mut work, &mut output);
    rt.write_all(&output[..reported.length])?;
    Ok(reported.answer.is_ok())
}

// The names of a path's items, from the top.
fn print_path(rt: &impl Print, listing: &[u8], path: u32) -> io::Result<()> {
    for position in 0..ASKED {
        let mut work = [0u32; WORK_WORDS];
        let name = name(listing, &mut work, path, position);
        if name.is_empty() {
            break;
        }
        print!(rt; "N,{path},{position},")?;
        rt.write_all(name)?;
        println!(rt;)?;
    }
    Ok(())
}

// The record of a file's name, as a line; false at the end of the input.
fn print_file(rt: &impl Print, input: &mut impl Read) -> Result<bool, ReadError> {
    let Some(size) = read_head(input, b'\n')? else {
        return Ok(false);
    };
    let mut file = [0u8; LONGEST_NAME];
    read_bytes(input, &mut file, size)?;
    rt.write_all(&file[..size])?;
    println!(rt;)?;
    read_end(input)?;
    Ok(true)
}

fn examine(rt: &impl Print, listing: &[u8], tally: &mut Tally) -> io::Result<()> {
    let is_accepted = print_report(rt, listing)?;
    for path in 0..ASKED {
        print_path(rt, listing, path)?;
    }
    tally.add(is_accepted, 0);
    Ok(())
}

// All samples, each a name and its listing.
fn examine_all(rt: &impl Print, input: &mut impl Read, tally: &mut Tally) -> Result<(), ReadError> {
    let mut listing = [0u8; LONGEST_LISTING];
    for _ in 0..MOST_RECORDS {
        if !print_file(rt, input)? {
            break;
        }
        let size = read_record(input, &mut listing)?.ok_or(ReadError::CutShort)?;
        examine(rt, &listing[..size], tally)?;
    }
    Ok(())
}

fn main(rt: HostRuntime) -> Result<()> {
    let mut file = File::open(&rt, "listings").context("listings")?;
    let mut tally = Tally::default();
    let read = examine_all(&rt, &mut file, &mut tally);
    print_cut_short(&rt, tally.listings, read)?;
    println!(rt; "{} listings, {} accepted", tally.listings, tally.accepted)?;
    Ok(())
}
