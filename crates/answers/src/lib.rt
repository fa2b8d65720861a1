// Answers in numbers, as the C functions write them.
#![tactic(auto)]

ghost use Rattle.std.specs.Prelude.{◌≡◌, List, ℕ};
ghost use Rattle.turns.specs.State.{DueInside};
ghost use Rattle.answers.specs.Numbers.{numbers_of};
ghost use Rattle.answers.specs.Rehearsals.{rehearsal_in, rehearsal_numbers, Puts};

use ast::CompileError;
use turns::{Rehearsal, Rehearsed};

// An answer in numbers.
#[tactic(auto, unfolding(crate::specs::Numbers::numbers_of))]
pub fn numbers_of(answer: Result<(), CompileError>) -> [u32; 5]
    ensures { result ≡ numbers_of answer }
{
    match answer {
        Ok(()) => [0; 5],
        Err(CompileError { loc, kind }) => [kind.into(), loc.start, loc.end, loc.line, loc.column],
    }
}

// The rehearsal that two numbers are: its path, and the position due.
pub fn rehearsal_in(numbers: &[u32; 2]) -> Rehearsal
    ensures { result ≡ rehearsal_in numbers.now }
{
    Rehearsal {
        path: numbers[0],
        due: numbers[1],
    }
}

// A rehearsal in numbers.
fn rehearsal_numbers(r: Rehearsal) -> [u32; 2]
    ensures { result ≡ rehearsal_numbers r }
{
    [r.path, r.due]
}

// An answer in numbers; a refusal leaves the rehearsal and the item due.
pub fn put_rehearsed(
    rehearsal: &mut [u32; 2],
    due: &mut [u32; 4],
    answer: &mut [u32; 5],
    x: Rehearsed,
)
    requires { (s : List ℕ) × DueInside s x }
    ensures { Puts x rehearsal.old due.old rehearsal.new due.new answer.new }
{
    match x {
        Rehearsed::Due(p, t, r) => {
            *rehearsal = rehearsal_numbers(r);
            *due = [1, p.at as u32, p.len as u32, t.into()];
            *answer = numbers_of(Ok(()));
        }
        Rehearsed::Ended(r) => {
            *rehearsal = rehearsal_numbers(r);
            *due = [0; 4];
            *answer = numbers_of(Ok(()));
        }
        Rehearsed::Refused(e) => *answer = numbers_of(Err(e)),
    }
}
