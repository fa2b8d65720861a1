// The declarations of a contract, as its rows have them.
#![tactic(auto)]

ghost use Rattle.std.specs.Prelude.{◌≡◌, List, ℕ};
ghost use Rattle.ast.specs.Tree.{Contract};
ghost use Rattle.rows.specs.Rows.{line_in};
ghost use Rattle.reader.specs.Spells.{SpellsContract};
ghost use Rattle.names.specs.declared.Item.{Item};
ghost use Rattle.declarations.specs.Noted.{declared_in, Declares, item_at, found};
ghost use Rattle.declarations.specs.Items.{ContractAt, DeclaredAs};

use ast::Target;
use names::{Item, ItemRows, item_at};
use nodes::{FIRST_DECLARATION, contract_at, declaration_at};
use rows::Rows;

// The target, how many declarations there are, the rows of the items of each, and the row of the block.
#[derive(Clone, Copy)]
pub struct Declared {
    pub target: Target,
    pub count: u32,
    pub items: [ItemRows; 32],
    pub block: u32,
}

// The declarations of a contract that stands in n rows.
pub fn declarations(rows: &Rows<'_>, n: usize) -> Declared
    requires { ContractAt rows.now.listing.now rows.now.table.now n }
    ensures value { result ≡ declared_in (line_in rows.now.table.now) }
    ensures declared_as { (c : Contract) → SpellsContract (line_in rows.now.table.now) rows.now.listing.now c n → DeclaredAs rows.now.listing.now rows.now.table.now result c n }
{
    let head = contract_at(rows.table, 0);
    let mut items = [ItemRows { first: 0, count: 0 }; 32];
    let mut at = FIRST_DECLARATION;
    for p in 0..head.declarations {
        let count = declaration_at(rows.table, at as usize);
        let first = at + 1;
        items[p as usize] = ItemRows { first, count };
        at = first + count;
    }
    Declared {
        target: head.target,
        count: head.declarations,
        items,
        block: at,
    }
}

// The item at a position of a path, from the top: the last of a declaration's rows is the top.
pub fn item_in(table: &[u32], d: Declared, path: u32, position: u32) -> Option<Item>
    requires { (d ≡ declared_in (line_in table.now)) × ((s : List ℕ) × (n : ℕ) × ContractAt s table.now n) }
    ensures { (ps : List (List Item)) → Declares table.now ps → result ≡ found (item_at ps path position) }
{
    if d.count <= path {
        return None;
    }
    let items = d.items[path as usize];
    if items.count <= position {
        return None;
    }
    Some(item_at(table, items.row_at(position)))
}
