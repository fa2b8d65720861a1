// Check, Report and Name for C and Rust, and rehearsing a witness. Work memory is the function's own.
#![tactic(auto)]

ghost use Rattle.std.specs.Prelude.{◌≡◌, ◌↔◌, length, get_or, take};
ghost use Rattle.rows.specs.Work.{work_words};
ghost use Rattle.examiner.specs.Check.{check as check_of};
ghost use Rattle.examiner.specs.InOrder.{InOrder};
ghost use Rattle.examiner.specs.Report.{report as report_of, opening};
ghost use Rattle.examiner.specs.Lent.{output_after};
ghost use Rattle.examiner.specs.Name.{name as name_of};
ghost use Rattle.answers.specs.Numbers.{numbers_of, place_numbers};

use answers::numbers_of;
use examiner::check;
use examiner::name::name_place;
use examiner::report::report;
use rows::WORK_WORDS;

mod rehearse; // rehearse.rt: rehearsing a witness

// Check: 0 if the listing is accepted, else the number of the refusal; `answer` gets that number and the location.
#[unsafe(no_mangle)]
pub extern "C" fn bithoven_check(listing: &[u8], answer: &mut [u32; 5]) -> u32
    ensures value { result ≡ get_or (numbers_of (check_of listing.now work_words)) 0 0 }
    ensures answer_after { answer.new ≡ numbers_of (check_of listing.now work_words) }
    ensures variant { (result ≡ 0) ↔ InOrder listing.now work_words }
{
    let mut work = [0u32; WORK_WORDS];
    *answer = numbers_of(check(listing, &mut work));
    answer[0]
}

// Report: the length of the text in `output`; 0 with the numbers of 6 in `answer`, and `output` unchanged, if it is too short.
#[unsafe(no_mangle)]
pub extern "C" fn bithoven_report(listing: &[u8], output: &mut [u8], answer: &mut [u32; 5]) -> usize
    ensures value { result ≡ (report_of listing.now work_words (length output.old)).length }
    ensures answer_after { answer.new ≡ numbers_of (report_of listing.now work_words (length output.old)).answer }
    ensures output_after { output.new ≡ output_after listing.now work_words output.old }
    ensures output_after_2 { (result ≡ 0 → ⊥) → take 2 output.new ≡ opening (check_of listing.now work_words) }
{
    let mut work = [0u32; WORK_WORDS];
    let r = report(listing, &mut work, output);
    *answer = numbers_of(r.answer);
    r.length
}

// Name: the number that Check returns; `place` gets where the item's name stands in the listing and how long it is, or zeros if the
// listing is refused or has no such item.
#[unsafe(no_mangle)]
pub extern "C" fn bithoven_name(
    listing: &[u8],
    path: u32,
    position: u32,
    place: &mut [u32; 2],
) -> u32
    ensures value { result ≡ get_or (numbers_of (check_of listing.now work_words)) 0 0 }
    ensures place_after { place.new ≡ place_numbers (name_of listing.now work_words path position) }
{
    let mut work = [0u32; WORK_WORDS];
    *place = [0; 2];
    match name_place(listing, &mut work, path, position) {
        Ok(Some(x)) => {
            *place = [x.at as u32, x.len as u32];
            0
        }
        Ok(None) => 0,
        Err(x) => x.kind.into(),
    }
}
