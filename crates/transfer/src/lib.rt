// What is taken on one path at an if, handed over to the next path.
#![tactic(auto)]

ghost use Rattle.std.specs.Prelude.{◌≡◌, ◌≤◌};
ghost use Rattle.ast.specs.Tree.{same};
ghost use Rattle.rules.specs.Transfer.{placed, transfer};
ghost use Rattle.names.specs.Items.{NamedRow, item_in};
ghost use Rattle.taken.specs.Taken.{first_free};
ghost use Rattle.paths.specs.Path.{table_of, WellFormed, Walked};
ghost use Rattle.transfer.specs.Handed.{handed};

use ast::{CompileError, ErrorKind, Location};
use names::{item_at, same_name};
use paths::{NamePlace, Path};
use rows::Rows;
use taken::{first_free, is_top_run};

// Whether the items of two places have the same name.
fn same_item(rows: &Rows<'_>, p: NamePlace, q: NamePlace) -> bool
    requires { NamedRow rows.now.listing.now rows.now.table.now p.row × NamedRow rows.now.listing.now rows.now.table.now q.row }
    ensures { result ≡ same (item_in rows.now.listing.now rows.now.table.now p.row).identifier (item_in rows.now.listing.now rows.now.table.now q.row).identifier }
{
    let a = item_at(rows.table, p.row as usize);
    let b = item_at(rows.table, q.row as usize);
    same_name(a.name.of(rows.listing), b.name.of(rows.listing))
}

// Whether what is taken in `from`, its first `run` items, stands in `to` at the same positions by the same names.
#[tactic(auto, unfolding(rules::specs::Transfer::placed))]
fn shares_prefix(rows: &Rows<'_>, run: u32, from: Path, to: Path) -> bool
    requires { (run ≡ first_free from.taken) × WellFormed rows.now.listing.now rows.now.table.now from × WellFormed rows.now.listing.now rows.now.table.now to }
    ensures { result ≡ placed (table_of rows.now.listing.now rows.now.table.now from) (table_of rows.now.listing.now rows.now.table.now to) }
{
    if to.count < run {
        return false;
    }
    for k in 0..run as usize {
        if !same_item(rows, from.places[k], to.places[k]) {
            return false;
        }
    }
    true
}

// The first `run` items of `to` taken by the lines that took those of `from`.
#[tactic(auto, unfolding(crate::specs::Handed::handed))]
fn hand_over(run: u32, from: Path, to: Path) -> Path
    requires { run ≤ 32 }
    ensures { result ≡ handed from to run }
{
    let mut out = to;
    for k in 0..run {
        out.mark(k, from.places[k as usize].line);
    }
    out
}

// What is taken in `from` is taken in `to` by the same lines; 20 at `loc` unless that is a run from position 0 of items that `to` has at the same
// positions.
pub fn transfer_prefix_consumption(
    rows: &Rows<'_>,
    loc: Location,
    from: Path,
    to: Path,
) -> Result<Path, CompileError>
    requires { WellFormed rows.now.listing.now rows.now.table.now from × WellFormed rows.now.listing.now rows.now.table.now to }
    ensures { Walked rows.now.listing.now rows.now.table.now to (transfer loc (table_of rows.now.listing.now rows.now.table.now from) (table_of rows.now.listing.now rows.now.table.now to)) result }
{
    if !is_top_run(from.taken) {
        return Err(CompileError::new(ErrorKind::DeclarationPathMismatch, loc));
    }
    let run = first_free(from.taken);
    if !shares_prefix(rows, run, from, to) {
        return Err(CompileError::new(ErrorKind::DeclarationPathMismatch, loc));
    }
    Ok(hand_over(run, from, to))
}
