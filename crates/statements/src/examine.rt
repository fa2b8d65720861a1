// A verify, return or condition on one path: usage, then truth, then check_security.
ghost use Rattle.std.specs.Prelude.{◌≡◌, ℕ, ◌<◌};
ghost use Rattle.ast.specs.Tree.{Expression};
ghost use Rattle.rows.specs.Rows.{line_in};
ghost use Rattle.reader.specs.Spells.{SpellsExpression};
ghost use Rattle.nodes.specs.Stands.{ExpressionAt, walked};
ghost use Rattle.names.specs.Items.{ItemsAt, items_down};
ghost use Rattle.rules.specs.Walk.{examine as examine_of};
ghost use Rattle.declarations.specs.Items.{item_rows};
ghost use Rattle.paths.specs.Path.{table_of};
ghost use Rattle.usage.specs.Walk.{WalkedTo};
ghost use Rattle.tables.specs.State.{ReadyAt};
ghost use Rattle.statements.specs.Steps.{judged};

use ast::CompileError;
use declarations::Declared;
use limits::check_security;
use operands::Context;
use paths::Path;
use rows::Rows;
use typing::check_type_boolean;
use usage::{Used, check_variable};

// The expression at row i with the types of declaration p: truth, then check_security.
pub fn judge(rows: &Rows<'_>, d: Declared, p: usize, i: usize) -> Result<usize, CompileError>
    requires { ExpressionAt rows.now.listing.now rows.now.table.now i × ItemsAt rows.now.listing.now rows.now.table.now (item_rows d p).count (item_rows d p).first × (p < 32) }
    ensures { (e : Expression) (j : ℕ) → SpellsExpression (line_in rows.now.table.now) rows.now.listing.now i e j → result ≡ walked (judged d.target e (items_down rows.now.listing.now rows.now.table.now (item_rows d p).first (item_rows d p).count)) j }
{
    let context = Context {
        target: d.target,
        items: d.items[p],
    };
    check_type_boolean(rows, context, i)?;
    check_security(rows, i)
}

// The expression at row i on path p.
pub fn examine(
    rows: &Rows<'_>,
    d: Declared,
    p: usize,
    i: usize,
    path: Path,
) -> Result<Used, CompileError>
    requires { ExpressionAt rows.now.listing.now rows.now.table.now i × ReadyAt rows.now.listing.now rows.now.table.now d p path × (p < 32) }
    ensures { (e : Expression) (j : ℕ) → SpellsExpression (line_in rows.now.table.now) rows.now.listing.now i e j → WalkedTo rows.now.listing.now rows.now.table.now path (examine_of d.target e (table_of rows.now.listing.now rows.now.table.now path)) j result }
{
    let used = check_variable(rows, i, path)?;
    judge(rows, d, p, i)?;
    Ok(used)
}
