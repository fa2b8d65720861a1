// A statement, and the step from an if-block to the next path.
#![tactic(auto)]

ghost use Rattle.std.specs.Prelude.{◌≡◌, false, ℕ, suc, ◌≤◌, ◌<◌, length};
ghost use Rattle.ast.specs.Tree.{Expression, Statement};
ghost use Rattle.rows.specs.Rows.{line_in};
ghost use Rattle.reader.specs.Spells.{SpellsExpression, SpellsStatement};
ghost use Rattle.nodes.specs.Stands.{ExpressionAt, StatementAt};
ghost use Rattle.usage.specs.Names.{has_names};
ghost use Rattle.paths.specs.Path.{table_of, WellFormed};
ghost use Rattle.tables.specs.Held.{cross_held};
ghost use Rattle.tables.specs.State.{tables_of, InUse, Ready};
ghost use Rattle.statements.specs.Steps.{in_range, ItemsOf, Decided, Told, examined};
ghost use Rattle.statements.specs.Walks.{no_walk, held_of, resumed, turned, Tried, Stepped};

use ast::{CompileError, ErrorKind, Location};
use declarations::Declared;
use limits::waits::check_wait;
use listing::StatementLine;
use nodes::statement_at;
use paths::Path;
use rows::Rows;
use transfer::transfer_prefix_consumption;
use usage::{Used, has_names};

mod examine; // examine.rt: one expression on one path

// Where the walk over the statements stands: the path of each declaration, the number of the one in use, and the next row.
#[derive(Clone, Copy)]
pub struct Walk {
    pub paths: [Path; 32],
    pub branch: u32,
    pub next: usize,
}

impl Walk {
    // A walk that stands nowhere.
    pub fn new() -> Self
        ensures { result ≡ no_walk }
    {
        Walk {
            paths: [Path::empty(); 32],
            branch: 0,
            next: 0,
        }
    }

    // On after an expression on the path in use.
    pub fn resume(&mut self, used: Used)
        requires { self.old.branch < length self.old.paths }
        ensures { self.new ≡ resumed self.old used }
    {
        self.paths[self.branch as usize] = used.path;
        self.next = used.next;
    }

    // On with the next path.
    pub fn turn(&mut self, to: Path)
        requires { (suc self.old.branch < length self.old.paths) × (self.old.branch < 32) }
        ensures { self.new ≡ turned self.old to }
    {
        self.branch += 1;
        self.paths[self.branch as usize] = to;
    }
}

// What a statement is to the walk, unless it is refused: passed, an expression to examine on the path in use, or an if.
#[derive(Clone, Copy)]
pub enum Step {
    Pass(usize),
    Examine(Location),
    If(Location, bool),
}

// Whether the path `branch` is one of the `count` that are declared; the refusal where it is not.
#[tactic(auto, unfolding(crate::specs::Steps::in_range))]
fn ensure_branch_in_range(count: u32, branch: u32, loc: Location) -> Result<(), CompileError>
    ensures { result ≡ in_range count branch loc }
{
    if branch < count {
        Ok(())
    } else {
        Err(CompileError::new(ErrorKind::DeclarationPathMismatch, loc))
    }
}

// The expression at row i, on the path in use.
pub fn examine_at(
    rows: &Rows<'_>,
    d: Declared,
    loc: Location,
    walk: &Walk,
    i: usize,
) -> Result<Used, CompileError>
    requires { ExpressionAt rows.now.listing.now rows.now.table.now i × (d.count ≤ 32) × InUse rows.now.listing.now rows.now.table.now d walk.now.branch walk.now.paths }
    ensures { (e : Expression) (j : ℕ) → SpellsExpression (line_in rows.now.table.now) rows.now.listing.now i e j → Tried rows.now.listing.now rows.now.table.now d (examined d.target loc e (tables_of rows.now.listing.now rows.now.table.now d walk.now.paths) walk.now.branch) j walk.now result }
{
    ensure_branch_in_range(d.count, walk.branch, loc)?;
    let p = walk.branch as usize;
    examine::examine(rows, d, p, i, walk.paths[p])
}

// From the if-block to the next path, `from` being the path in use after the condition.
pub fn cross(
    rows: &Rows<'_>,
    d: Declared,
    loc: Location,
    from: Path,
    walk: &Walk,
) -> Result<Path, CompileError>
    requires { WellFormed rows.now.listing.now rows.now.table.now from × Ready rows.now.listing.now rows.now.table.now d walk.now.paths }
    ensures { Stepped rows.now.listing.now rows.now.table.now d (cross_held loc (table_of rows.now.listing.now rows.now.table.now from) (held_of rows.now.listing.now rows.now.table.now d walk.now)) walk.now.next (suc walk.now.branch) (turned walk.now) result }
{
    ensure_branch_in_range(d.count, walk.branch, loc)?;
    let next = walk.branch + 1;
    ensure_branch_in_range(d.count, next, loc)?;
    let to = walk.paths[next as usize];
    transfer_prefix_consumption(rows, loc, from, to)
}

// A verify or a return, its expression at row i: one without names leaves the path as it is, and truth and check_security decide; one with names is to be examined on the path in use.
fn expression_step(
    rows: &Rows<'_>,
    d: Declared,
    loc: Location,
    branch: u32,
    i: usize,
) -> Result<Step, CompileError>
    requires { ExpressionAt rows.now.listing.now rows.now.table.now i × ItemsOf rows.now.listing.now rows.now.table.now d branch × (d.count ≤ 32) }
    ensures { (e : Expression) (j : ℕ) → SpellsExpression (line_in rows.now.table.now) rows.now.listing.now i e j → Decided rows.now.listing.now rows.now.table.now d branch loc e j result }
{
    if has_names(rows.table, i) {
        return Ok(Step::Examine(loc));
    }
    ensure_branch_in_range(d.count, branch, loc)?;
    let next = examine::judge(rows, d, branch as usize, i)?;
    Ok(Step::Pass(next))
}

// The statement at row i, on the path `branch`: what does not touch the path is checked here, the rest is left to the walk.
pub fn analyze_statement(
    rows: &Rows<'_>,
    d: Declared,
    branch: u32,
    i: usize,
) -> Result<Step, CompileError>
    requires { StatementAt rows.now.listing.now rows.now.table.now i × ItemsOf rows.now.listing.now rows.now.table.now d branch × (d.count ≤ 32) }
    ensures { (x : Statement) (j : ℕ) → SpellsStatement (line_in rows.now.table.now) rows.now.listing.now i x j → Told rows.now.listing.now rows.now.table.now d branch x i j result }
{
    match statement_at(rows.table, i) {
        StatementLine::LocktimeStatement(loc, op, v) => {
            check_wait(loc, op, v)?;
            Ok(Step::Pass(i + 1))
        }
        StatementLine::VerifyStatement(loc) | StatementLine::ExpressionStatement(loc) => {
            expression_step(rows, d, loc, branch, i + 1)
        }
        StatementLine::IfStatement(loc, has_else) => Ok(Step::If(loc, has_else)),
    }
}
