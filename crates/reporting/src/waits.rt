// The lines of the waits, from the rows that hold them.
ghost use Rattle.std.specs.Prelude.{◌≡◌, ◌<◌};
ghost use Rattle.rows.specs.Rows.{line_in, HasRow};
ghost use Rattle.reader.specs.Ceilings.{max_lines};
ghost use Rattle.limits.specs.Waits.{found_in};
ghost use Rattle.reporting.specs.Text.{wait_lines};
ghost use Rattle.reporting.specs.Waits.{wait_at, waits_between, RowsBetween};

use crate::put_line;
use limits::waits::wait_in;
use output::Sink;

// W,listing line,number: of the wait in row i, if it holds one.
fn put_wait<S: Sink>(table: &[u32], sink: &mut S, i: usize)
    requires row { HasRow table.now i }
    requires few { i < max_lines }
    requires room { S.fits sink.old (wait_lines (wait_at i (found_in (line_in table.now i)))) }
    ensures { sink.new ≡ S.after sink.old (wait_lines (wait_at i (found_in (line_in table.now i)))) }
{
    if let Some(number) = wait_in(table, i) {
        put_line(sink, b"W,", (i + 1) as u32, &[number]);
    }
}

// The lines of the waits in the rows from `from` up to `to`.
pub fn put_waits<S: Sink>(table: &[u32], sink: &mut S, from: usize, to: usize)
    requires rows { RowsBetween table.now from to }
    requires room { S.fits sink.old (wait_lines (waits_between table.now from to)) }
    ensures { sink.new ≡ S.after sink.old (wait_lines (waits_between table.now from to)) }
{
    for i in from..to {
        put_wait(table, sink, i);
    }
}
