// Bounds on numbers, literals and waits: 21.
#![tactic(auto)]

ghost use Rattle.std.specs.Prelude.{◌≡◌, ℕ};
ghost use Rattle.ast.specs.Tree.{Expression};
ghost use Rattle.rows.specs.Rows.{line_in};
ghost use Rattle.reader.specs.Spells.{SpellsExpression};
ghost use Rattle.rules.specs.Limits.{or21, security};
ghost use Rattle.nodes.specs.Stands.{walked, ExpressionAt};
ghost use Rattle.limits.specs.Lines.{overflow, PartWithin};

use ast::{CompileError, ErrorKind, Location};
use listing::ExpressionLine;
use nodes::{expression_at, operand_count, skip_factor};
use rows::Rows;

pub mod literals; // literals.rt: the length of a literal
pub mod waits; // waits.rt: the bounds of a wait, and the number that the script carries

// The largest number of four bytes, on either side of zero.
const MAX_NUMBER: u64 = 2147483647;

// The longest literal, in bytes.
const MAX_ELEMENT: usize = 520;

// A bound that is kept, or else 21.
#[tactic(auto, unfolding(rules::specs::Limits::or21))]
fn bounded(loc: Location, kept: bool) -> Result<(), CompileError>
    ensures { result ≡ or21 loc kept }
{
    if kept {
        Ok(())
    } else {
        Err(CompileError::new(ErrorKind::IntegerOverflow, loc))
    }
}

// A number of four bytes, a literal of at most 520 bytes; else 21 at the node.
#[tactic(auto, unfolding(rules::specs::Limits::four_bytes, rules::specs::Limits::element, text::specs::Text::bytes_of))]
pub fn check_overflow(listing: &[u8], e: ExpressionLine) -> Result<(), CompileError>
    requires { PartWithin listing.now e }
    ensures { result ≡ overflow listing.now e }
{
    match e {
        ExpressionLine::NumberLiteral(loc, v) => bounded(loc, v.magnitude <= MAX_NUMBER),
        ExpressionLine::StringLiteral(loc, x, _) => {
            bounded(loc, literals::literal_length(x.of(listing)) <= MAX_ELEMENT)
        }
        ExpressionLine::Variable(..)
        | ExpressionLine::BooleanLiteral(..)
        | ExpressionLine::LogicalExpression(..)
        | ExpressionLine::CompareExpression(..)
        | ExpressionLine::BinaryMathExpression(..)
        | ExpressionLine::UnaryMathExpression(..)
        | ExpressionLine::UnaryCryptoExpression(..)
        | ExpressionLine::ByteExpression(_)
        | ExpressionLine::CheckSigExpression(_) => Ok(()),
    }
}

// An expression: the node, then its operands, left first; signature checks are not entered. What stands below a line is counted among what is still due.
pub fn check_security(rows: &Rows<'_>, i: usize) -> Result<usize, CompileError>
    requires { ExpressionAt rows.now.listing.now rows.now.table.now i }
    ensures { (e : Expression) (j : ℕ) → SpellsExpression (line_in rows.now.table.now) rows.now.listing.now i e j → result ≡ walked (security e) j }
{
    let mut next = i;
    let mut due: u32 = 1;
    while 0 < due {
        let line = expression_at(rows.table, next);
        check_overflow(rows.listing, line)?;
        due -= 1;
        next += 1;
        match line {
            ExpressionLine::CheckSigExpression(_) => next = skip_factor(rows.table, next),
            _ => due += operand_count(line),
        }
    }
    Ok(next)
}
