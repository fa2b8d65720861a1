// The tables of all paths.
ghost use Rattle.std.specs.Prelude.{ℕ};
ghost use Rattle.ast.specs.Tree.{Contract};
ghost use Rattle.rules.specs.Table.{build_all};
ghost use Rattle.declarations.specs.Items.{DeclaredAs, Given};
ghost use Rattle.tables.specs.State.{Answered};

use ast::CompileError;
use declarations::Declared;
use paths::{Path, build_symbol_table};
use rows::Rows;

// The path of each declaration, in order; those past the last of them have no items.
pub fn build_tables(rows: &Rows<'_>, d: Declared) -> Result<[Path; 32], CompileError>
    requires { Given rows.now.listing.now rows.now.table.now d }
    ensures { (c : Contract) (n : ℕ) → DeclaredAs rows.now.listing.now rows.now.table.now d c n → Answered rows.now.listing.now rows.now.table.now d (build_all c.declarations) result }
{
    let mut paths = [Path::empty(); 32];
    for p in 0..d.count as usize {
        paths[p] = build_symbol_table(rows, d.items[p])?;
    }
    Ok(paths)
}
