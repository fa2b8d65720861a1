// Drives two paths of the listing on standard input through the same takes and transfers, once lent and once by value, and
// prints after each step the answer, what is taken by which lines, and whether both agree.
#![tactic(auto)]

ghost use Rattle.std.specs.Prelude.{◌≡◌};
ghost use Rattle.std.specs.Fn.{FnOnceReturnsAtMut};
ghost use Rattle.std.specs.Result.{result_unwrap_or};
ghost use Rattle.lent_path.specs.Lent.{answered, Kept, take_at, transfer_at};

use ast::CompileError;
use lent_path::{Answered, bithoven_take, bithoven_transfer, take_at, transfer_at};
use paths::{NamePlace, Path};
use reading::read_listing;
use records::read_full;
use rows::{Rows, WORK_WORDS};
use std::io;

// The most that is read of a listing.
const MOST_READ: usize = 65536;

// A path that was lent at each step, and the same by value.
#[derive(Clone, Copy)]
struct Both {
    lent: Path,
    held: Path,
}

// What a step leaves of a path, and its answer.
#[derive(Clone, Copy, PartialEq, Eq)]
struct Left {
    path: Path,
    answered: Answered,
}

impl Left {
    // What a call leaves of a path of its own, which it is lent.
    fn lent<F: FnOnce(&mut Path) -> Answered>(path: Path, call: F) -> Left
        requires { F.IsAlwaysCallable call }
        ensures { FnOnceReturnsAtMut F.FnOnce call path result.answered result.path }
    {
        let mut path = path;
        let answered = call(&mut path);
        Left { path, answered }
    }

    // A take from a path of its own, which it lends.
    fn taken(rows: &Rows<'_>, i: usize, path: Path) -> Left
        ensures { Kept rows.now.listing.now rows.now.table.now path (take_at rows.now.listing.now rows.now.table.now i path) result.answered result.path }
    {
        Left::lent(path, |path| {
            bithoven_take(path, rows.listing, rows.table, i)
        })
    }

    // A transfer into a path of its own, which it lends.
    fn transferred(rows: &Rows<'_>, i: usize, from: Path, path: Path) -> Left
        ensures { Kept rows.now.listing.now rows.now.table.now path (transfer_at rows.now.listing.now rows.now.table.now i from path) result.answered result.path }
    {
        Left::lent(path, |path| {
            bithoven_transfer(path, rows.listing, rows.table, i, from)
        })
    }

    // What a walk by value leaves: the path that it came to, or after a refusal the one before.
    fn held(path: Path, walked: Result<Path, CompileError>) -> Left
        ensures { result ≡ record { path = result_unwrap_or walked path; answered = answered walked } }
    {
        Left {
            path: walked.unwrap_or(path),
            answered: Answered::from(walked),
        }
    }
}

// Whether both ways agree.
fn agreement(lent: &Left, held: &Left) -> &'static str {
    if lent.answered != held.answered {
        "OTHER ANSWER"
    } else if lent.path != held.path {
        "OTHER PATH"
    } else {
        "same"
    }
}

// A path of two items, and those of them that are taken.
fn two_items(top: u16, below: u16, taken: u32) -> Both {
    let mut places = [NamePlace { row: 0, line: 0 }; 32];
    places[0].row = top;
    places[1].row = below;
    let path = Path {
        places,
        count: 2,
        taken,
    };
    Both {
        lent: path,
        held: path,
    }
}

// A listing with its rows, and where the steps are printed.
#[derive(Clone, Copy)]
struct Driver<'a, P> {
    rt: &'a P,
    rows: Rows<'a>,
}

impl<P: Print> Driver<'_, P> {
    // A step's answer, the path's taken set, the lines that took its first two items, and whether both ways agree; the paths after it.
    fn step(&self, name: &str, i: usize, lent: Left, held: Left) -> io::Result<Both> {
        let a = lent.answered;
        let [first, second, ..] = lent.path.places;
        println!(self.rt;
            "{name} {i}: {},{},{},{},{}; taken {} by {},{}; {}",
            a.number,
            a.start,
            a.end,
            a.line,
            a.column,
            lent.path.taken,
            first.line,
            second.line,
            agreement(&lent, &held)
        )?;
        Ok(Both {
            lent: lent.path,
            held: held.path,
        })
    }

    fn take(&self, i: usize, paths: Both) -> io::Result<Both> {
        let lent = Left::taken(&self.rows, i, paths.lent);
        let walked = take_at(&self.rows, i, paths.held);
        self.step("take", i, lent, Left::held(paths.held, walked))
    }

    fn transfer(&self, i: usize, from: Both, paths: Both) -> io::Result<Both> {
        let lent = Left::transferred(&self.rows, i, from.lent, paths.lent);
        let walked = transfer_at(&self.rows, i, from.held, paths.held);
        self.step("transfer", i, lent, Left::held(paths.held, walked))
    }

    // Rows 2 and 3 are the items of the first path, 5 and 6 of the second; row 8 is the if, 9 its condition, 14 and 19 are variables.
    fn drive(&self) -> io::Result<()> {
        let fresh = two_items(3, 2, 0);
        let mut p = two_items(3, 2, 0);
        let mut q = two_items(6, 5, 0);
        p = self.take(14, p)?;
        p = self.take(9, p)?;
        p = self.take(9, p)?;
        p = self.take(19, p)?;
        p = self.take(15, p)?;
        p = self.take(5000, p)?;
        q = self.transfer(9, p, q)?;
        q = self.transfer(8, fresh, q)?;
        q = self.transfer(8, p, q)?;
        p = self.take(14, p)?;
        q = self.transfer(8, p, q)?;
        q = self.take(9, q)?;
        q = self.take(19, q)?;
        q = self.transfer(8, q, q)?;
        p = self.transfer(8, q, p)?;
        // no paths: row 8 is no item's
        let mut bad = two_items(3, 8, 0);
        bad = self.take(9, bad)?;
        bad = self.transfer(8, p, bad)?;
        p = self.transfer(8, bad, p)?;
        self.take(9, p)?;
        // nor where the top is passed over
        let mut gap = two_items(3, 2, 2);
        gap = self.take(9, gap)?;
        gap = self.transfer(8, fresh, gap)?;
        self.transfer(8, gap, q)?;
        Ok(())
    }
}

fn main(rt: HostRuntime) -> io::Result<()> {
    let mut buffer = [0u8; MOST_READ];
    let length = read_full(&mut rt.stdin(), &mut buffer)?;
    let listing = &buffer[..length];
    let mut work = [0u32; WORK_WORDS];
    if read_listing(listing, &mut work).is_err() {
        return println!(rt; "the listing is refused");
    }
    let rows = Rows {
        listing,
        table: &work,
    };
    Driver { rt: &rt, rows }.drive()
}
