// The names of expressions, taken from a path in the order in which they stand.
#![tactic(auto)]

ghost use Rattle.std.specs.Prelude.{◌≡◌, ℕ, List};
ghost use Rattle.rules.specs.Usage.{usage, usage_inner, usage_factors};
ghost use Rattle.rows.specs.Rows.{line_in, HasRow};
ghost use Rattle.reader.specs.Spells.{SpellsExpression, SpellsFactor, SpellsFactors};
ghost use Rattle.nodes.specs.Stands.{ExpressionAt, FactorAt, FactorsAt};
ghost use Rattle.paths.specs.Path.{WellFormed};
ghost use Rattle.nodes.specs.Somewhere.{Somewhere};
ghost use Rattle.ast.specs.Tree.{Expression, Factor};
ghost use Rattle.usage.specs.Walk.{SpellsExpressions, ExpressionsAt, usage_all, FactorParts, PartsAre, Walks};
ghost use Rattle.usage.specs.Names.{has_names, is_name};

use ast::{CompileError, Location};
use listing::{ExpressionLine, FactorLine, letters};
use nodes::{expression_at, factor_at, operand_count, operands_below, skip_factor};
use paths::{Path, take};
use rows::{Rows, row_in};
use text::Place;

// What a walk that takes names comes to: the path after it, and the next row.
#[derive(Clone, Copy, PartialEq, Eq)]
pub struct Used {
    pub path: Path,
    pub next: usize,
}

// What an expression's line says of the names in it: a name itself, or how many expressions, or factors of a multi-signature, stand below
// it, and the row of the first.
#[derive(Clone, Copy)]
pub enum Parts {
    Named(Location, Place),
    Expressions(u32, usize),
    Factors(u32, usize),
}

// Below a signature check, whose factor stands at row i.
fn signatures_at(table: &[u32], i: usize) -> Parts
    requires { Somewhere (λ s. FactorAt s table.now i) }
    ensures { (s : List ℕ) (f : Factor) (j : ℕ) → SpellsFactor (line_in table.now) s i f j → FactorParts (line_in table.now) s i f j result }
{
    let first = i + 1;
    match factor_at(table, i) {
        FactorLine::SingleSigFactor(_) => Parts::Expressions(2, first),
        FactorLine::MultiSigFactor(_, _, n) => Parts::Factors(n, first),
    }
}

// Below the expression at row i.
fn parts_at(table: &[u32], i: usize) -> Parts
    requires { Somewhere (λ s. ExpressionAt s table.now i) }
    ensures { (s : List ℕ) (e : Expression) (j : ℕ) → SpellsExpression (line_in table.now) s i e j → PartsAre (line_in table.now) s i e j result }
{
    let line = expression_at(table, i);
    let first = i + 1;
    match line {
        ExpressionLine::Variable(loc, x) => Parts::Named(loc, x),
        ExpressionLine::CheckSigExpression(_) => signatures_at(table, first),
        _ => Parts::Expressions(operand_count(line), first),
    }
}

// The names of an expression, in the order in which they stand.
pub fn check_variable(rows: &Rows<'_>, i: usize, path: Path) -> Result<Used, CompileError>
    requires { ExpressionAt rows.now.listing.now rows.now.table.now i × WellFormed rows.now.listing.now rows.now.table.now path }
    ensures { Walks (SpellsExpression (line_in rows.now.table.now) rows.now.listing.now) usage rows.now.listing.now rows.now.table.now i path result }
{
    check_variables(rows, i, 1, path)
}

// The names of n expressions, one after the other: left before right, signature before key. What stands below a line is counted among
// what is still due, so that the path is not handed down.
#[cycle(check_factors_check_inner_check_variables)]
fn check_variables(rows: &Rows<'_>, i: usize, n: u32, path: Path) -> Result<Used, CompileError>
    requires { ExpressionsAt rows.now.listing.now rows.now.table.now n i × WellFormed rows.now.listing.now rows.now.table.now path }
    ensures { Walks (SpellsExpressions (line_in rows.now.table.now) rows.now.listing.now n) usage_all rows.now.listing.now rows.now.table.now i path result }
{
    let mut used = Used { path, next: i };
    let mut due = n;
    while 0 < due {
        due -= 1;
        match parts_at(rows.table, used.next) {
            Parts::Expressions(count, first) => {
                due += count;
                used.next = first;
            }
            Parts::Named(loc, x) => {
                used.path = take(rows, used.next, loc, x, used.path)?;
                used.next += 1;
            }
            Parts::Factors(count, first) => {
                used = check_factors(rows, first, count, used.path)?;
            }
        }
    }
    Ok(used)
}

// A factor of a multi-signature: one that is a multi-signature itself is skipped.
#[cycle(check_factors_check_inner_check_variables)]
fn check_inner(rows: &Rows<'_>, i: usize, path: Path) -> Result<Used, CompileError>
    requires { FactorAt rows.now.listing.now rows.now.table.now i × WellFormed rows.now.listing.now rows.now.table.now path }
    ensures { Walks (SpellsFactor (line_in rows.now.table.now) rows.now.listing.now) usage_inner rows.now.listing.now rows.now.table.now i path result }
{
    match factor_at(rows.table, i) {
        FactorLine::SingleSigFactor(_) => check_variables(rows, i + 1, 2, path),
        FactorLine::MultiSigFactor(..) => Ok(Used {
            path,
            next: skip_factor(rows.table, i),
        }),
    }
}

// The n factors of a multi-signature.
#[cycle(check_factors_check_inner_check_variables)]
fn check_factors(rows: &Rows<'_>, i: usize, n: u32, path: Path) -> Result<Used, CompileError>
    requires { FactorsAt rows.now.listing.now rows.now.table.now n i × WellFormed rows.now.listing.now rows.now.table.now path }
    ensures { Walks (SpellsFactors (line_in rows.now.table.now) rows.now.listing.now n) usage_factors rows.now.listing.now rows.now.table.now i path result }
{
    let mut used = Used { path, next: i };
    for _ in 0..n {
        used = check_inner(rows, used.next, used.path)?;
    }
    Ok(used)
}

// Whether row i is a variable's line.
#[tactic(auto, unfolding(rows::specs::Rows::line_in, rows::specs::Rows::line_of, rows::specs::Rows::kept_as))]
fn is_name(table: &[u32], i: usize) -> bool
    requires { HasRow table.now i }
    ensures { result ≡ is_name (line_in table.now i) }
{
    row_in(table, i).kind == letters::VARIABLE
}

// Whether any name stands in the expression at row i.
pub fn has_names(table: &[u32], i: usize) -> bool
    requires { Somewhere (λ s. ExpressionAt s table.now i) }
    ensures { (s : List ℕ) (e : Expression) (j : ℕ) → SpellsExpression (line_in table.now) s i e j → result ≡ has_names e }
{
    let mut next = i;
    let mut due: u32 = 1;
    while 0 < due {
        if is_name(table, next) {
            return true;
        }
        due = due - 1 + operands_below(table, next);
        next += 1;
    }
    false
}
