// Rehearsing a witness, for C and Rust. Work memory is the function's own.
ghost use Rattle.rows.specs.Work.{work_words};
ghost use Rattle.rehearsal.specs.Rehearse.{opened, laid, taken_back};
ghost use Rattle.rehearsal.specs.Acts.{turned};
ghost use Rattle.answers.specs.Rehearsals.{rehearsal_in, Leaves};

use answers::{put_rehearsed, rehearsal_in};
use rehearsal::rehearse;
use rows::WORK_WORDS;
use turns::{Rehearsal, Turn};

// A turn on a rehearsal, in numbers. The three functions below come here, so that the optimizer sees one use of work memory.
fn answer_turn(
    listing: &[u8],
    r: Rehearsal,
    turn: Turn<'_>,
    rehearsal: &mut [u32; 2],
    due: &mut [u32; 4],
    answer: &mut [u32; 5],
) -> u32
    ensures { Leaves (turned listing.now work_words r turn.entry) rehearsal.old due.old result rehearsal.new due.new answer.new }
{
    let mut work = [0u32; WORK_WORDS];
    let x = rehearse(listing, &mut work, r, turn);
    put_rehearsed(rehearsal, due, answer, x);
    answer[0]
}

// Open: 0 with the rehearsal and the item due, else the number of the refusal.
#[unsafe(no_mangle)]
pub extern "C" fn bithoven_rehearse_open(
    listing: &[u8],
    path: u32,
    rehearsal: &mut [u32; 2],
    due: &mut [u32; 4],
    answer: &mut [u32; 5],
) -> u32
    ensures { Leaves (opened listing.now work_words path) rehearsal.old due.old result rehearsal.new due.new answer.new }
{
    let r = Rehearsal { path, due: 0 };
    answer_turn(listing, r, Turn::Open, rehearsal, due, answer)
}

// Lay: 0 with the rehearsal to go on with and the item due then, else the number of the refusal.
#[unsafe(no_mangle)]
pub extern "C" fn bithoven_rehearse_lay(
    listing: &[u8],
    name: &[u8],
    ty: u32,
    rehearsal: &mut [u32; 2],
    due: &mut [u32; 4],
    answer: &mut [u32; 5],
) -> u32
    ensures { Leaves (laid listing.now work_words (rehearsal_in rehearsal.old) (record { name = name.entry.now; ty = ty })) rehearsal.old due.old result rehearsal.new due.new answer.new }
{
    let r = rehearsal_in(rehearsal);
    answer_turn(listing, r, Turn::Lay(name, ty), rehearsal, due, answer)
}

// Take back: 0 with the rehearsal to go on with and the item due then, else the number of the refusal.
#[unsafe(no_mangle)]
pub extern "C" fn bithoven_rehearse_take_back(
    listing: &[u8],
    rehearsal: &mut [u32; 2],
    due: &mut [u32; 4],
    answer: &mut [u32; 5],
) -> u32
    ensures { Leaves (taken_back listing.now work_words (rehearsal_in rehearsal.old)) rehearsal.old due.old result rehearsal.new due.new answer.new }
{
    let r = rehearsal_in(rehearsal);
    answer_turn(listing, r, Turn::TakeBack, rehearsal, due, answer)
}
