// The nodes of a contract as rows of a table: what a walk over them needs.
#![tactic(auto, unfolding(rows::specs::Rows::line_in, rows::specs::Rows::line_of, rows::specs::Rows::kept_as))]

ghost use Rattle.std.specs.Prelude.{◌≡◌, List, ℕ, ◌≤◌};
ghost use Rattle.listing.specs.declared.Line.{Line};
ghost use Rattle.ast.specs.Tree.{Expression, Factor, Statement, Block, loc};
ghost use Rattle.rows.specs.Rows.{line_of, line_in, HasRow};
ghost use Rattle.reader.specs.Parts.{factor_kind, kind_of, count_of};
ghost use Rattle.reader.specs.Spells.{SpellsExpression, SpellsFactor, SpellsStatement, SpellsStatements};
ghost use Rattle.nodes.specs.declared.Head.{Head};
ghost use Rattle.nodes.specs.Stands.{Holds, ExpressionAt, FactorAt, StatementAt, StatementsAt};
ghost use Rattle.nodes.specs.Somewhere.{Somewhere};
ghost use Rattle.nodes.specs.Nodes.{operands_of, Spans, Spanned};

use ast::{
    BinaryCompareOp, BinaryLogicalOp, BinaryMathOp, Location, LocktimeOp, Target, UnaryCryptoOp,
    UnaryMathOp,
};
use listing::{ExpressionLine, FactorLine, StatementLine, letters};
use rows::{Words, row_in};

// The row of the first declaration: right after the T line.
pub const FIRST_DECLARATION: u32 = 1;

// What the T line holds.
#[derive(Clone, Copy, PartialEq, Eq)]
pub struct Head {
    pub target: Target,
    pub declarations: u32,
}

// The line of an expression.
pub fn expression_at(table: &[u32], i: usize) -> ExpressionLine
    requires { Holds Line.Expression table.now i }
    ensures { line_in table.now i ≡ Line.Expression result }
{
    let r = row_in(table, i);
    let loc = r.location();
    match r.kind {
        letters::VARIABLE => ExpressionLine::Variable(loc, r.part()),
        letters::NUMBER => ExpressionLine::NumberLiteral(loc, r.signed()),
        letters::BOOLEAN => ExpressionLine::BooleanLiteral(loc, r.a == 1),
        letters::LITERAL => ExpressionLine::StringLiteral(loc, r.part(), r.c == 1),
        letters::LOGIC => ExpressionLine::LogicalExpression(loc, BinaryLogicalOp::from(r.a)),
        letters::COMPARE => ExpressionLine::CompareExpression(loc, BinaryCompareOp::from(r.a)),
        letters::ARITHMETIC => ExpressionLine::BinaryMathExpression(loc, BinaryMathOp::from(r.a)),
        letters::UNARY => ExpressionLine::UnaryMathExpression(loc, UnaryMathOp::from(r.a)),
        letters::HASH => ExpressionLine::UnaryCryptoExpression(loc, UnaryCryptoOp::from(r.a)),
        letters::SIGNATURES => ExpressionLine::CheckSigExpression(loc),
        _ => ExpressionLine::ByteExpression(loc),
    }
}

// The line of a factor.
pub fn factor_at(table: &[u32], i: usize) -> FactorLine
    requires { Holds Line.Factor table.now i }
    ensures { line_in table.now i ≡ Line.Factor result }
{
    let r = row_in(table, i);
    let loc = r.location();
    match r.kind {
        letters::MULTI => FactorLine::MultiSigFactor(loc, r.a, r.b),
        _ => FactorLine::SingleSigFactor(loc),
    }
}

// The line of a statement.
pub fn statement_at(table: &[u32], i: usize) -> StatementLine
    requires { Holds Line.Statement table.now i }
    ensures { line_in table.now i ≡ Line.Statement result }
{
    let r = row_in(table, i);
    let loc = r.location();
    match r.kind {
        letters::IF => StatementLine::IfStatement(loc, r.a == 1),
        letters::WAIT => StatementLine::LocktimeStatement(loc, LocktimeOp::from(r.a), r.signed()),
        letters::VERIFY => StatementLine::VerifyStatement(loc),
        _ => StatementLine::ExpressionStatement(loc),
    }
}

// How many statements a block has.
pub fn block_at(table: &[u32], i: usize) -> u32
    requires { Holds Line.Block table.now i }
    ensures { line_in table.now i ≡ Line.Block result }
{
    let r = row_in(table, i);
    match r.kind {
        letters::BLOCK => r.a,
        _ => 0,
    }
}

// How many items a declaration has.
pub fn declaration_at(table: &[u32], i: usize) -> u32
    requires { Holds Line.Declaration table.now i }
    ensures { line_in table.now i ≡ Line.Declaration result }
{
    let r = row_in(table, i);
    r.a
}

// The T line: the target, and how many declarations there are.
pub fn contract_at(table: &[u32], i: usize) -> Head
    requires { Holds (λ (h : Head). Line.Contract h.target h.declarations) table.now i }
    ensures { line_in table.now i ≡ Line.Contract result.target result.declarations }
{
    let r = row_in(table, i);
    Head {
        target: Target::from(r.a),
        declarations: r.b,
    }
}

// The location of the expression at row i.
pub fn loc_at(table: &[u32], i: usize) -> Location
    requires { HasRow table.now i }
    ensures { (s : List ℕ) (e : Expression) (j : ℕ) → SpellsExpression (line_in table.now) s i e j → result ≡ loc e }
{
    row_in(table, i).location()
}

// How many operands the line of an expression has; a signature check has its factor.
pub fn operand_count(line: ExpressionLine) -> u32
    ensures { result ≡ count_of (Line.Expression line) }
{
    match line {
        ExpressionLine::Variable(..)
        | ExpressionLine::NumberLiteral(..)
        | ExpressionLine::BooleanLiteral(..)
        | ExpressionLine::StringLiteral(..) => 0,
        ExpressionLine::LogicalExpression(..)
        | ExpressionLine::CompareExpression(..)
        | ExpressionLine::BinaryMathExpression(..) => 2,
        ExpressionLine::UnaryMathExpression(..)
        | ExpressionLine::UnaryCryptoExpression(..)
        | ExpressionLine::ByteExpression(_)
        | ExpressionLine::CheckSigExpression(_) => 1,
    }
}

// How many parts a line with one of the first letters has, those up to I.
fn early_parts(r: Words) -> u32
    requires { r.kind ≤ 73 }
    ensures { result ≡ count_of (line_of r) }
{
    match r.kind {
        letters::BLOCK | letters::DECLARATION => r.a,
        letters::RETURN => 1,
        letters::IF => { if r.a == 1 { 3 } else { 2 } }
        _ => 0,
    }
}

// How many parts the line of a row has, if it is an expression's or a factor's.
fn operands_of(r: Words) -> u32
    ensures { result ≡ operands_of (line_of r) }
{
    match r.kind {
        letters::LOGIC => 2,
        letters::COMPARE => 2,
        letters::ARITHMETIC => 2,
        letters::UNARY => 1,
        letters::HASH => 1,
        letters::SIZE => 1,
        letters::SIGNATURES => 1,
        letters::SINGLE => 2,
        letters::MULTI => r.b,
        _ => 0,
    }
}

// How many parts the line of a row has. With the first letters apart, the others are told from each other by a few tests of bits, which is faster than
// a jump by a table of all letters.
fn row_parts(r: Words) -> u32
    ensures { result ≡ count_of (line_of r) }
{
    if r.kind <= letters::IF {
        return early_parts(r);
    }
    match r.kind {
        letters::CONTRACT => r.b,
        letters::VERIFY => 1,
        _ => operands_of(r),
    }
}

// How many parts the line of row i has: the nodes directly below it.
pub fn parts_below(table: &[u32], i: usize) -> u32
    requires { HasRow table.now i }
    ensures { result ≡ count_of (line_in table.now i) }
{
    row_parts(row_in(table, i))
}

// The same of a row that holds an expression or a factor, for a walk that meets no others: fewer letters to tell apart.
#[tactic(auto, unfolding(rows::specs::Rows::line_in), using(crate::proofs::Letters::operands_all))]
pub fn operands_below(table: &[u32], i: usize) -> u32
    requires { HasRow table.now i × (kind_of (line_in table.now i) ≤ factor_kind) }
    ensures { result ≡ count_of (line_in table.now i) }
{
    operands_of(row_in(table, i))
}

// The row after n nodes of any kind, one after the other. What stands below a line is counted among what is still due.
fn skip_nodes(table: &[u32], i: usize, n: u32) -> usize
    requires { Spanned table.now n i }
    ensures { (j : ℕ) → Spans (line_in table.now) n i j → result ≡ j }
{
    let mut next = i;
    let mut due = n;
    while 0 < due {
        due = due - 1 + parts_below(table, next);
        next += 1;
    }
    next
}

// The row after an expression, whatever it says.
pub fn skip_expression(table: &[u32], i: usize) -> usize
    requires { Somewhere (λ s. ExpressionAt s table.now i) }
    ensures { (s : List ℕ) (e : Expression) (j : ℕ) → SpellsExpression (line_in table.now) s i e j → result ≡ j }
{
    skip_nodes(table, i, 1)
}

// The row after a factor.
pub fn skip_factor(table: &[u32], i: usize) -> usize
    requires { Somewhere (λ s. FactorAt s table.now i) }
    ensures { (s : List ℕ) (f : Factor) (j : ℕ) → SpellsFactor (line_in table.now) s i f j → result ≡ j }
{
    skip_nodes(table, i, 1)
}

// The row after a statement.
pub fn skip_statement(table: &[u32], i: usize) -> usize
    requires { Somewhere (λ s. StatementAt s table.now i) }
    ensures { (s : List ℕ) (t : Statement) (j : ℕ) → SpellsStatement (line_in table.now) s i t j → result ≡ j }
{
    skip_nodes(table, i, 1)
}

// The row after n statements.
pub fn skip_statements(table: &[u32], i: usize, n: u32) -> usize
    requires { Somewhere (λ s. StatementsAt s table.now n i) }
    ensures { (s : List ℕ) (b : Block) (j : ℕ) → SpellsStatements (line_in table.now) s n i b j → result ≡ j }
{
    skip_nodes(table, i, n)
}
