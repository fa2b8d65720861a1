// The text of a report, put into a sink.
#![tactic(auto)]

ghost use Rattle.std.specs.Prelude.{◌≡◌, ◌≤◌, [], ◌∷◌, ◌++◌, length};
ghost use Rattle.output.specs.Decimal.{decimal};
ghost use Rattle.reporting.specs.Text.{taker, refusal};
ghost use Rattle.reporting.specs.Bounds.{refusal_bound};
ghost use Rattle.reporting.specs.Fields.{number_fields, number_line, taken_if};

use ast::CompileError;
use output::{Sink, put_field};

pub mod analyzed; // analyzed.rt: an acceptance
mod waits; // waits.rt: the lines of the waits

const LINE_END: u8 = b'\n';

// A line's letter with its comma, a number, and a field for each number of the rest.
fn put_fields<S: Sink>(sink: &mut S, opening: &[u8], first: u32, rest: &[u32])
    requires { S.fits sink.old (opening.now ++ (decimal first ++ number_fields rest.now)) }
    ensures { sink.new ≡ S.after sink.old (opening.now ++ (decimal first ++ number_fields rest.now)) }
{
    sink.put_all(opening);
    sink.put_decimal(first);
    for x in rest {
        put_field(sink, *x);
    }
}

// A line whose fields are numbers.
fn put_line<S: Sink>(sink: &mut S, opening: &[u8], first: u32, rest: &[u32])
    requires { S.fits sink.old (number_line opening.now first rest.now) }
    ensures { sink.new ≡ S.after sink.old (number_line opening.now first rest.now) }
{
    put_fields(sink, opening, first, rest);
    sink.put(LINE_END);
}

// R,number,start,end,line,column.
#[tactic(auto, unfolding(crate::specs::Text::refusal, crate::specs::Text::report_line, crate::specs::Text::fields, crate::specs::Fields::number_line))]
pub fn put_refusal<S: Sink>(sink: &mut S, x: CompileError)
    requires { S.fits sink.old (refusal x) }
    ensures text { sink.new ≡ S.after sink.old (refusal x) }
    ensures short { length (refusal x) ≤ refusal_bound }
{
    let CompileError { loc, kind } = x;
    put_line(
        sink,
        b"R,",
        u32::from(kind),
        &[loc.start, loc.end, loc.line, loc.column],
    );
}

// The two fields that say whether an item is taken, and by which line.
#[tactic(auto, unfolding(crate::specs::Text::taker))]
fn taker(taken: bool, line: u16) -> (u32, u32)
    ensures { taker (taken_if taken line) ≡ decimal result.0 ∷ decimal result.1 ∷ [] }
{
    if taken { (1, line as u32) } else { (0, 0) }
}
