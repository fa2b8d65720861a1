// A wait: its bounds, else 21, and the number that the script will carry.
ghost use Rattle.std.specs.Prelude.{◌≡◌, true};
ghost use Rattle.rules.specs.Limits.{up_to, in_bounds, carried, wait};
ghost use Rattle.rows.specs.Rows.{line_in, HasRow};
ghost use Rattle.limits.specs.Waits.{found_in};

use ast::{CompileError, ErrorKind, Location, LocktimeOp, Signed};
use listing::letters;
use rows::row_in;

// The longest wait of `older`, in blocks or in units of 512 seconds, and of `after`.
const MAX_OLDER: u64 = 65535;

const MAX_AFTER: u64 = 4294967295;

// What the script carries for no units of 512 seconds: bit 22.
const TIME_UNITS: u64 = 4194304;

// From 0 to a bound.
#[tactic(auto, unfolding(rules::specs::Limits::up_to))]
fn up_to(high: u64, v: Signed) -> bool
    ensures { result ≡ up_to high v }
{
    if v.negative {
        v.magnitude == 0
    } else {
        v.magnitude <= high
    }
}

// Whether a wait is within the bounds of its op.
#[tactic(auto, unfolding(rules::specs::Limits::in_bounds))]
fn in_bounds(op: LocktimeOp, v: Signed) -> bool
    ensures { result ≡ in_bounds op v }
{
    match op {
        LocktimeOp::Cltv => up_to(MAX_AFTER, v),
        LocktimeOp::Csv | LocktimeOp::CsvTime => up_to(MAX_OLDER, v),
    }
}

// The number that the script carries for a wait within its bounds.
#[tactic(auto, unfolding(rules::specs::Limits::in_bounds, rules::specs::Limits::carried), using(crate::proofs::Found::most_up_to))]
fn carried_number(op: LocktimeOp, v: Signed) -> u64
    requires { in_bounds op v ≡ true }
    ensures { result ≡ carried op v }
{
    match op {
        LocktimeOp::Cltv | LocktimeOp::Csv => v.magnitude,
        LocktimeOp::CsvTime => TIME_UNITS + v.magnitude,
    }
}

// The number that the script carries for a wait within its bounds, else 21 at the wait.
#[tactic(auto, unfolding(rules::specs::Limits::wait, rules::specs::Limits::or21), using(crate::proofs::Found::small_carried))]
pub fn check_wait(loc: Location, op: LocktimeOp, v: Signed) -> Result<u32, CompileError>
    ensures { result ≡ wait loc op v }
{
    if in_bounds(op, v) {
        Ok(carried_number(op, v) as u32)
    } else {
        Err(CompileError::new(ErrorKind::IntegerOverflow, loc))
    }
}

// The number of the wait in row i; nothing if another line stands there, or a wait out of its bounds.
#[tactic(auto, unfolding(rows::specs::Rows::line_in, rows::specs::Rows::line_of, rows::specs::Rows::kept_as))]
pub fn wait_in(table: &[u32], i: usize) -> Option<u32>
    requires { HasRow table.now i }
    ensures { result ≡ found_in (line_in table.now i) }
{
    let r = row_in(table, i);
    match r.kind {
        letters::WAIT => check_wait(r.location(), LocktimeOp::from(r.a), r.signed()).ok(),
        _ => None,
    }
}
