// A turn of a rehearsal, on the items that the rows of a contract declare.
#![tactic(auto)]

ghost use Rattle.std.specs.Prelude.{◌≡◌, List, ℕ};
ghost use Rattle.names.specs.declared.Item.{Item as Item-as-Item};
ghost use Rattle.names.specs.Items.{Inside};
ghost use Rattle.declarations.specs.Noted.{Declares};
ghost use Rattle.reporting.specs.Text.{item_of};
ghost use Rattle.turns.specs.State.{same_item, lowered as lowered_of};
ghost use Rattle.turns.specs.Turns.{RowsAt, param_of, due_in, lay_in, turn_in, check_path, tests, turn_by};

use ast::{CompileError, ErrorKind, Type};
use declarations::{Declared, item_in};
use names::{Item, same_name};
use rows::Rows;
use text::Place;

// The position where a rehearsal begins.
const BEGINNING: u32 = 0;

// A rehearsal: the number of its path, and the position due, from 0 at the top.
#[derive(Clone, Copy)]
pub struct Rehearsal {
    pub path: u32,
    pub due: u32,
}

// What a call answers: the item due, by where its name stands in the listing and its type, with the rehearsal to go on with; that it
// has ended; or a refusal, after which the rehearsal handed in is still good.
#[derive(Clone, Copy)]
pub enum Rehearsed {
    Due(Place, Type, Rehearsal),
    Ended(Rehearsal),
    Refused(CompileError),
}

// What is done on a rehearsal: it is opened, an item of this name and this type is laid, or the item laid last is taken back.
#[derive(Clone, Copy)]
pub enum Turn<'a> {
    Open,
    Lay(&'a [u8], u32),
    TakeBack,
}

// Whether an item has this name and a type of this number.
#[tactic(auto, unfolding(crate::specs::State::same_item))]
fn is_item(listing: &[u8], x: Item, name: &[u8], ty: u32) -> bool
    requires { Inside listing.now x.name }
    ensures { result ≡ same_item (record { name = name.entry.now; ty = ty }) (item_of (param_of listing.now x)) }
{
    u32::from(x.ty) == ty && same_name(name, x.name.of(listing))
}

// What is due at a rehearsal's position.
fn shown_in(table: &[u32], d: Declared, r: Rehearsal) -> Rehearsed
    requires { (s : List ℕ) × RowsAt s table.now d }
    ensures { (ps : List (List Item-as-Item)) → Declares table.now ps → result ≡ due_in ps r }
{
    match item_in(table, d, r.path, r.due) {
        Some(x) => Rehearsed::Due(x.name, x.ty, r),
        None => Rehearsed::Ended(r),
    }
}

// An item laid: if it is the one due, the following one.
fn lay_in(rows: &Rows<'_>, d: Declared, r: Rehearsal, name: &[u8], ty: u32) -> Rehearsed
    requires { RowsAt rows.now.listing.now rows.now.table.now d }
    ensures { (ps : List (List Item-as-Item)) → Declares rows.now.table.now ps → result ≡ lay_in rows.now.listing.now ps r (record { name = name.entry.now; ty = ty }) }
{
    match item_in(rows.table, d, r.path, r.due) {
        Some(x) if is_item(rows.listing, x, name, ty) => {
            let due = r.due + 1;
            shown_in(rows.table, d, Rehearsal { due, ..r })
        }
        _ => Rehearsed::Refused(CompileError::unplaced(ErrorKind::NotDue)),
    }
}

// One position less, unless it is the beginning or above it.
#[tactic(auto, unfolding(crate::specs::State::lowered))]
fn lowered(begin: u32, due: u32) -> u32
    ensures { result ≡ lowered_of begin due }
{
    if begin < due { due - 1 } else { due }
}

// A turn on a path that is there.
fn turn_in(rows: &Rows<'_>, d: Declared, r: Rehearsal, turn: Turn<'_>) -> Rehearsed
    requires { RowsAt rows.now.listing.now rows.now.table.now d }
    ensures { (ps : List (List Item-as-Item)) → Declares rows.now.table.now ps → result ≡ turn_in rows.now.listing.now ps r turn.entry }
{
    match turn {
        Turn::Open => {
            let due = BEGINNING;
            shown_in(rows.table, d, Rehearsal { due, ..r })
        }
        Turn::Lay(name, ty) => lay_in(rows, d, r, name, ty),
        Turn::TakeBack => {
            let due = lowered(BEGINNING, r.due);
            shown_in(rows.table, d, Rehearsal { due, ..r })
        }
    }
}

// Whether a path is one of so many: 31 if it is not.
#[tactic(auto, unfolding(crate::specs::Turns::check_path))]
fn check_path(count: u32, path: u32) -> Result<(), CompileError>
    ensures { result ≡ check_path count path }
{
    if path < count {
        Ok(())
    } else {
        Err(CompileError::unplaced(ErrorKind::NoSuchPath))
    }
}

// A turn after Check's answer, then 31.
#[tactic(auto, unfolding(crate::specs::Turns::turn_by))]
pub fn turn_by(
    rows: &Rows<'_>,
    d: Declared,
    answer: Result<(), CompileError>,
    r: Rehearsal,
    turn: Turn<'_>,
) -> Rehearsed
    requires { RowsAt rows.now.listing.now rows.now.table.now d }
    ensures { (ps : List (List Item-as-Item)) → Declares rows.now.table.now ps → result ≡ turn_by (tests answer d.count r) (turn_in rows.now.listing.now ps r turn.entry) }
{
    let there = check_path(d.count, r.path);
    match answer.and(there) {
        Err(x) => Rehearsed::Refused(x),
        Ok(()) => turn_in(rows, d, r, turn),
    }
}
