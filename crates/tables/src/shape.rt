// What is asked before the statements: flow, and the count of paths against that of declarations.
ghost use Rattle.std.specs.Prelude.{◌≡◌, List, ℕ};
ghost use Rattle.ast.specs.Tree.{Contract};
ghost use Rattle.rules.specs.Result.{both};
ghost use Rattle.rules.specs.Paths.{count};
ghost use Rattle.rules.specs.Flow.{flow};
ghost use Rattle.rules.specs.Analyze.{first_item, counted};
ghost use Rattle.declarations.specs.Items.{DeclaredAs, Given};

use ast::{CompileError, ErrorKind, Location, nowhere};
use declarations::Declared;
use flow::flow::check_flow;
use flow::necessity::count_paths;
use names::item_at;

// Where the first item of the first declaration stands, or 0,0,1,0.
pub fn first_item(table: &[u32], d: Declared) -> Location
    requires { (s : List ℕ) × Given s table.now d }
    ensures { (s : List ℕ) (c : Contract) (n : ℕ) → DeclaredAs s table.now d c n → result ≡ first_item c.declarations }
{
    if d.count == 0 {
        return nowhere();
    }
    let rows = d.items[0];
    if rows.count == 0 {
        return nowhere();
    }
    item_at(table, rows.first as usize).loc
}

// Flow, then as many declarations as paths.
pub fn check_shape(table: &[u32], d: Declared) -> Result<(), CompileError>
    requires { (s : List ℕ) × Given s table.now d }
    ensures { (s : List ℕ) (c : Contract) (n : ℕ) → DeclaredAs s table.now d c n → result ≡ both (flow c.block) (counted (count c.block) c.declarations) }
{
    let block = d.block as usize;
    check_flow(table, block)?;
    if count_paths(table, block).count == d.count {
        return Ok(());
    }
    let loc = first_item(table, d);
    Err(CompileError::new(ErrorKind::DeclarationPathMismatch, loc))
}
