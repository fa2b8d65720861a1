// Names, and the items of a declaration as rows of a table.
#![tactic(auto)]

ghost use Rattle.std.specs.Prelude.{◌≡◌, ◌+◌, ◌-◌, ◌<◌};
ghost use Rattle.ast.specs.Tree.{StackParam, Declaration, from_top, same};
ghost use Rattle.rows.specs.Rows.{line_in};
ghost use Rattle.reader.specs.Reading.{item};
ghost use Rattle.reader.specs.Spells.{SpellsItems};
ghost use Rattle.names.specs.Items.{ItemsAt, HoldsItem, line_of, found_in};

use ast::{Location, Type};
use rows::{Rows, row_in};
use text::Place;

// An item: where it stands, its type, and where its name stands in the listing.
#[derive(Clone, Copy)]
pub struct Item {
    pub loc: Location,
    pub ty: Type,
    pub name: Place,
}

// The rows of a declaration's items: the first of them, and how many there are.
#[derive(Clone, Copy, PartialEq, Eq)]
pub struct ItemRows {
    pub first: u32,
    pub count: u32,
}

impl ItemRows {
    // The row of the item at position k: 0 at the top, which is the last row.
    pub fn row_at(self, k: u32) -> usize
        requires { k < self.count }
        ensures { result ≡ self.first + (self.count - 1 - k) }
    {
        self.first as usize + (self.count - 1 - k) as usize
    }
}

// Whether two names are the same, byte for byte. The last byte is looked at first: names of one contract often begin alike.
#[tactic(auto, using(crate::proofs::Laws::lengths_differ, crate::proofs::Laws::byte_differs, crate::proofs::Laws::bytes_agree))]
pub fn same_name(a: &[u8], b: &[u8]) -> bool
    ensures { result ≡ same a.now b.now }
{
    if a.len() != b.len() {
        return false;
    }
    for k in (0..a.len()).rev() {
        if a[k] != b[k] {
            return false;
        }
    }
    true
}

// The item of an item's line.
#[tactic(auto, unfolding(rows::specs::Rows::line_in, rows::specs::Rows::line_of, rows::specs::Rows::kept_as))]
pub fn item_at(table: &[u32], i: usize) -> Item
    requires { HoldsItem table.now i }
    ensures { line_in table.now i ≡ line_of result }
{
    let r = row_in(table, i);
    Item {
        loc: r.location(),
        ty: Type::from(r.c),
        name: r.part(),
    }
}

// The position of a name among the items of some rows: 0 at the top, which is the last row.
pub fn find_item(rows: &Rows<'_>, items: ItemRows, name: &[u8]) -> Option<u32>
    requires { ItemsAt rows.now.listing.now rows.now.table.now items.count items.first }
    ensures { (d : Declaration) → SpellsItems (line_in rows.now.table.now) StackParam (item rows.now.listing.now) items.count items.first d (items.first + items.count) → result ≡ found_in (from_top d) name.now }
{
    for k in 0..items.count {
        let it = item_at(rows.table, items.row_at(k));
        if same_name(name, it.name.of(rows.listing)) {
            return Some(k);
        }
    }
    None
}
