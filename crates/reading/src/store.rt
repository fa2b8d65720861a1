// The lines of a listing, stored as rows of work memory.
ghost use Rattle.std.specs.Prelude.{◌≤◌, length};
ghost use Rattle.rows.specs.Work.{work_words};
ghost use Rattle.reader.specs.Ceilings.{max_bytes};
ghost use Rattle.reading.specs.Held.{Stored};

use lines::read_line;
use rows::store_row;
use text::Cursor;
use tree::{Lines, MAX_LINES};

// One row more than a listing may have lines, so that the line after the last can still be asked for.
const MAX_ROWS: usize = MAX_LINES + 1;

pub fn store_lines(listing: &[u8], work: &mut [u32]) -> Lines
    requires { (length listing.now ≤ max_bytes) × (work_words ≤ length work.old) }
    ensures { Stored listing.now work.old work.new result }
{
    let mut c = Cursor { listing, at: 0 };
    for count in 0..MAX_ROWS {
        if c.at >= listing.len() {
            return Lines { count, ended: true };
        }
        let Some((row, next)) = read_line(c) else {
            return Lines {
                count,
                ended: false,
            };
        };
        store_row(work, count, row);
        c = next;
    }
    Lines {
        count: MAX_ROWS,
        ended: false,
    }
}
