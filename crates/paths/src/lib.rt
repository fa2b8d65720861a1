// A path and its items: built, taken, left over.
#![tactic(auto)]

ghost use Rattle.std.specs.Prelude.{◌≡◌, ℕ, ◌+◌, ◌<◌, ◌≤◌, suc, List, false};
ghost use Rattle.ast.specs.Tree.{StackParam, Declaration};
ghost use Rattle.text.specs.Text.{part};
ghost use Rattle.rows.specs.Rows.{line_in};
ghost use Rattle.reader.specs.Reading.{item};
ghost use Rattle.reader.specs.Spells.{SpellsItems};
ghost use Rattle.rules.specs.Table.{params};
ghost use Rattle.rules.specs.Usage.{take as take_of};
ghost use Rattle.rules.specs.Unused.{unused};
ghost use Rattle.names.specs.Items.{Inside, ItemsAt, found_in};
ghost use Rattle.paths.specs.Path.{table_of, no_path, WellFormed, marked, Walked};
ghost use Rattle.paths.specs.Tables.{Built};

use ast::{CompileError, ErrorKind, Location};
use names::{ItemRows, item_at, same_name};
use rows::Rows;
use taken::{first_free, is_taken, with_bit};
use text::Place;

// Where an item's name stands, as the number of its row, and the listing line that took the item (0 where none). A listing has at most 1024
// lines; with 16 bits each the tables of all paths take 4 kB.
#[repr(C)]
#[derive(Clone, Copy, PartialEq, Eq)]
pub struct NamePlace {
    pub row: u16,
    pub line: u16,
}

// A path's items, position 0 being the top; the taken positions are the ones of `taken`, which run from the top.
#[repr(C)]
#[derive(Clone, Copy, PartialEq, Eq)]
pub struct Path {
    pub places: [NamePlace; 32],
    pub count: u32,
    pub taken: u32,
}

impl Path {
    // A path without items.
    pub fn empty() -> Self
        ensures { result ≡ no_path }
    {
        Path {
            places: [NamePlace { row: 0, line: 0 }; 32],
            count: 0,
            taken: 0,
        }
    }

    // Position k taken by a line.
    pub fn mark(&mut self, k: u32, line: u16)
        requires { k < 32 }
        ensures { self.new ≡ marked self.old k line }
    {
        self.places[k as usize].line = line;
        self.taken = with_bit(self.taken, k);
    }
}

// The position of a name among a path's items.
pub fn find_place(rows: &Rows<'_>, name: &[u8], path: Path) -> Option<u32>
    requires { WellFormed rows.now.listing.now rows.now.table.now path }
    ensures { result ≡ found_in (params (table_of rows.now.listing.now rows.now.table.now path)) name.now }
{
    for k in 0..path.count {
        let it = item_at(rows.table, path.places[k as usize].row as usize);
        if same_name(name, it.name.of(rows.listing)) {
            return Some(k);
        }
    }
    None
}

// The variable x of row i: unknown 12, taken before 13, a smaller position not yet taken 15; else the row's listing line takes it.
pub fn take(
    rows: &Rows<'_>,
    i: usize,
    loc: Location,
    x: Place,
    path: Path,
) -> Result<Path, CompileError>
    requires { Inside rows.now.listing.now x × WellFormed rows.now.listing.now rows.now.table.now path × (i + 1 < 65536) }
    ensures { Walked rows.now.listing.now rows.now.table.now path (take_of false loc (suc i) (part rows.now.listing.now x) (table_of rows.now.listing.now rows.now.table.now path)) result }
{
    let k = find_place(rows, x.of(rows.listing), path).ok_or(CompileError::new(
        ErrorKind::UndefinedVariable,
        loc,
    ))?;
    if is_taken(path.taken, k) {
        return Err(CompileError::new(ErrorKind::VariableConsumed, loc));
    }
    if first_free(path.taken) < k {
        return Err(CompileError::new(ErrorKind::InvalidConsumptionOrder, loc));
    }
    let mut out = path;
    out.mark(k, (i + 1) as u16);
    Ok(out)
}

// The path of the items of some rows, from the last declared to the first: a name already met is 11 at the one met now.
pub fn build_symbol_table(rows: &Rows<'_>, items: ItemRows) -> Result<Path, CompileError>
    requires { ItemsAt rows.now.listing.now rows.now.table.now items.count items.first × (items.count ≤ 32) }
    ensures { (d : Declaration) → SpellsItems (line_in rows.now.table.now) StackParam (item rows.now.listing.now) items.count items.first d (items.first + items.count) → Built rows.now.listing.now rows.now.table.now d (items.first + items.count) result }
{
    let mut path = Path::empty();
    for k in 0..items.count {
        let row = items.row_at(k);
        let it = item_at(rows.table, row);
        if find_place(rows, it.name.of(rows.listing), path).is_some() {
            return Err(CompileError::new(ErrorKind::DuplicateVariable, it.loc));
        }
        path.places[k as usize] = NamePlace {
            row: row as u16,
            line: 0,
        };
        path.count = k + 1;
    }
    Ok(path)
}

// An item that no line took is 14 at it, first declared first: from the bottom up.
pub fn check_unused_variable(table: &[u32], path: Path) -> Result<(), CompileError>
    requires { (s : List ℕ) × WellFormed s table.now path }
    ensures { (s : List ℕ) → WellFormed s table.now path → result ≡ unused (table_of s table.now path) }
{
    for k in (0..path.count).rev() {
        if !is_taken(path.taken, k) {
            let it = item_at(table, path.places[k as usize].row as usize);
            return Err(CompileError::new(ErrorKind::UnusedVariable, it.loc));
        }
    }
    Ok(())
}
