// The blocks of a contract, walked over their rows.
#![tactic(auto)]

ghost use Rattle.std.specs.Prelude.{◌≡◌, true, ℕ};
ghost use Rattle.std.specs.Result.{is_err};
ghost use Rattle.ast.specs.Tree.{Statement, Block};
ghost use Rattle.listing.specs.declared.Line.{Line};
ghost use Rattle.listing.specs.declared.StatementLine.{StatementLine};
ghost use Rattle.rows.specs.Rows.{line_in};
ghost use Rattle.reader.specs.Spells.{SpellsStatement, SpellsBlock};
ghost use Rattle.nodes.specs.Stands.{StatementAt, BlockAt};
ghost use Rattle.tables.specs.Held.{statement_held, walk_held};
ghost use Rattle.tables.specs.State.{tables_of, Ready};
ghost use Rattle.statements.specs.Walks.{no_walk, leaving, Moved};

use ast::{CompileError, Location};
use declarations::Declared;
use nodes::block_at;
use rows::Rows;
use statements::{Step, Walk, analyze_statement, cross, examine_at};

// The statements of the block at the walk's next row. A refusal leaves nothing of the walk.
pub fn analyze_block(rows: &Rows<'_>, d: Declared, walk: &mut Walk) -> Result<(), CompileError>
    requires { BlockAt rows.now.listing.now rows.now.table.now walk.old.next × Ready rows.now.listing.now rows.now.table.now d walk.old.paths }
    ensures moved { (b : Block) (j : ℕ) → SpellsBlock (line_in rows.now.table.now) rows.now.listing.now walk.old.next b j → Moved rows.now.listing.now rows.now.table.now d (walk_held b d.target (tables_of rows.now.listing.now rows.now.table.now d walk.old.paths) walk.old.branch) j (leaving result walk.new) }
    ensures refused { is_err result ≡ true → walk.new ≡ no_walk }
{
    let walked = walk_block(rows, d, walk);
    if walked.is_err() {
        *walk = Walk::new();
    }
    walked
}

// The same, whatever a refusal leaves.
#[cycle(walk_block_walk_if)]
fn walk_block(rows: &Rows<'_>, d: Declared, walk: &mut Walk) -> Result<(), CompileError>
    requires { BlockAt rows.now.listing.now rows.now.table.now walk.old.next × Ready rows.now.listing.now rows.now.table.now d walk.old.paths }
    ensures { (b : Block) (j : ℕ) → SpellsBlock (line_in rows.now.table.now) rows.now.listing.now walk.old.next b j → Moved rows.now.listing.now rows.now.table.now d (walk_held b d.target (tables_of rows.now.listing.now rows.now.table.now d walk.old.paths) walk.old.branch) j (leaving result walk.new) }
{
    let count = block_at(rows.table, walk.next);
    walk.next += 1;
    for _ in 0..count {
        match analyze_statement(rows, d, walk.branch, walk.next)? {
            Step::Pass(next) => walk.next = next,
            Step::Examine(loc) => {
                let used = examine_at(rows, d, loc, walk, walk.next + 1)?;
                walk.resume(used);
            }
            Step::If(loc, has_else) => walk_if(rows, d, loc, has_else, walk)?,
        }
    }
    Ok(())
}

// The if at the walk's next row: its condition on the path in use, its block, and the else-block on the paths that follow.
#[cycle(walk_block_walk_if)]
fn walk_if(
    rows: &Rows<'_>,
    d: Declared,
    loc: Location,
    has_else: bool,
    walk: &mut Walk,
) -> Result<(), CompileError>
    requires { StatementAt rows.now.listing.now rows.now.table.now walk.old.next × Ready rows.now.listing.now rows.now.table.now d walk.old.paths × (line_in rows.now.table.now walk.old.next ≡ Line.Statement (StatementLine.IfStatement loc has_else)) }
    ensures { (x : Statement) (j : ℕ) → SpellsStatement (line_in rows.now.table.now) rows.now.listing.now walk.old.next x j → Moved rows.now.listing.now rows.now.table.now d (statement_held x d.target (tables_of rows.now.listing.now rows.now.table.now d walk.old.paths) walk.old.branch) j (leaving result walk.new) }
{
    let used = examine_at(rows, d, loc, walk, walk.next + 1)?;
    let from = used.path;
    walk.resume(used);
    if !has_else {
        return walk_block(rows, d, walk);
    }
    walk_block(rows, d, walk)?;
    let to = cross(rows, d, loc, from, walk)?;
    walk.turn(to);
    walk_block(rows, d, walk)
}
