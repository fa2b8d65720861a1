// The types of expressions. The five type rules go over the rows of a table and answer the row after what they passed, or the first fault.
#![tactic(auto)]

ghost use Rattle.std.specs.Prelude.{◌≡◌};
ghost use Rattle.rules.specs.Types.{string, number, truth, hashed, general};
ghost use Rattle.operands.specs.Typed.{ExpressionUnder, TwoUnder, Checks, ChecksTwo, Answers, SpellsTwo, rule_of, compare_two};

use ast::{BinaryCompareOp, CompileError, ErrorKind, Location, Type, UnaryMathOp};
use listing::ExpressionLine;
use nodes::{expression_at, loc_at};
use operands::signatures::check_factor;
use operands::{Context, check_ascii, check_variable_type, judge_compare, sort_at};
use rows::Rows;

// String: a literal, a hash, a variable of type String.
#[cycle(type_rules)]
pub fn check_type_string(rows: &Rows<'_>, context: Context, i: usize) -> Result<usize, CompileError>
    requires { ExpressionUnder rows.now.listing.now rows.now.table.now context i }
    ensures { Checks string rows.now.listing.now rows.now.table.now context i result }
{
    let next = i + 1;
    match expression_at(rows.table, i) {
        ExpressionLine::Variable(l, x) => {
            let wanted = |ty: Type| ty == Type::String;
            check_variable_type(rows, context, next, l, x, wanted)
        }
        ExpressionLine::StringLiteral(..) => Ok(next),
        ExpressionLine::UnaryCryptoExpression(..) => {
            check_type_crypto_operand(rows, context, next)
        }
        _ => Err(CompileError::new(ErrorKind::InvalidOperation, loc_at(rows.table, i))),
    }
}

// Number: a number, a variable of type Number, size, arithmetic, a unary other than not.
#[cycle(type_rules)]
pub fn check_type_numeric(
    rows: &Rows<'_>,
    context: Context,
    i: usize,
) -> Result<usize, CompileError>
    requires { ExpressionUnder rows.now.listing.now rows.now.table.now context i }
    ensures { Checks number rows.now.listing.now rows.now.table.now context i result }
{
    let next = i + 1;
    match expression_at(rows.table, i) {
        ExpressionLine::Variable(l, x) => {
            let wanted = |ty: Type| ty == Type::Number;
            check_variable_type(rows, context, next, l, x, wanted)
        }
        ExpressionLine::NumberLiteral(..) => Ok(next),
        ExpressionLine::BinaryMathExpression(..) => {
            check_both(rows, context, next, Type::Number)
        }
        ExpressionLine::UnaryMathExpression(l, op) => match op {
            UnaryMathOp::Not => Err(CompileError::new(ErrorKind::InvalidOperation, l)),
            _ => check_type_numeric(rows, context, next),
        },
        ExpressionLine::ByteExpression(_) => check_type(rows, context, i),
        _ => Err(CompileError::new(ErrorKind::InvalidOperation, loc_at(rows.table, i))),
    }
}

// Truth: a boolean, a variable of type Boolean, logic, not, compare, a signature check.
#[cycle(type_rules)]
pub fn check_type_boolean(
    rows: &Rows<'_>,
    context: Context,
    i: usize,
) -> Result<usize, CompileError>
    requires { ExpressionUnder rows.now.listing.now rows.now.table.now context i }
    ensures { Checks truth rows.now.listing.now rows.now.table.now context i result }
{
    let next = i + 1;
    match expression_at(rows.table, i) {
        ExpressionLine::Variable(l, x) => {
            let wanted = |ty: Type| ty == Type::Boolean;
            check_variable_type(rows, context, next, l, x, wanted)
        }
        ExpressionLine::BooleanLiteral(..) => Ok(next),
        ExpressionLine::LogicalExpression(..) => { check_both(rows, context, next, Type::Boolean) }
        ExpressionLine::CompareExpression(..) | ExpressionLine::CheckSigExpression(_) => {
            check_type(rows, context, i)
        }
        ExpressionLine::UnaryMathExpression(l, op) => match op {
            UnaryMathOp::Not => check_type_boolean(rows, context, next),
            _ => {
                check_type_numeric(rows, context, i)?;
                Err(CompileError::new(ErrorKind::InvalidOperation, l))
            }
        },
        ExpressionLine::BinaryMathExpression(l, _) | ExpressionLine::ByteExpression(l) => {
            check_type_numeric(rows, context, i)?;
            Err(CompileError::new(ErrorKind::InvalidOperation, l))
        }
        _ => Err(CompileError::new(ErrorKind::InvalidOperation, loc_at(rows.table, i))),
    }
}

// A hash's operand: a variable not of type Signature, a hash by this rule again, others by the general rule.
#[cycle(type_rules)]
pub fn check_type_crypto_operand(
    rows: &Rows<'_>,
    context: Context,
    i: usize,
) -> Result<usize, CompileError>
    requires { ExpressionUnder rows.now.listing.now rows.now.table.now context i }
    ensures { Checks hashed rows.now.listing.now rows.now.table.now context i result }
{
    let next = i + 1;
    match expression_at(rows.table, i) {
        ExpressionLine::Variable(l, x) => {
            let wanted = |ty: Type| ty != Type::Signature;
            check_variable_type(rows, context, next, l, x, wanted)
        }
        ExpressionLine::UnaryCryptoExpression(..) => {
            check_type_crypto_operand(rows, context, next)
        }
        _ => check_type(rows, context, i),
    }
}

// General: literals and variables pass; any other node by the rule that its operands are due.
#[cycle(type_rules)]
pub fn check_type(rows: &Rows<'_>, context: Context, i: usize) -> Result<usize, CompileError>
    requires { ExpressionUnder rows.now.listing.now rows.now.table.now context i }
    ensures { Checks general rows.now.listing.now rows.now.table.now context i result }
{
    let next = i + 1;
    match expression_at(rows.table, i) {
        ExpressionLine::Variable(..)
        | ExpressionLine::NumberLiteral(..)
        | ExpressionLine::BooleanLiteral(..)
        | ExpressionLine::StringLiteral(..) => Ok(next),
        ExpressionLine::LogicalExpression(..) => { check_both(rows, context, next, Type::Boolean) }
        ExpressionLine::CompareExpression(l, op) => { check_compare(rows, context, next, l, op) }
        ExpressionLine::BinaryMathExpression(..) => {
            check_both(rows, context, next, Type::Number)
        }
        ExpressionLine::UnaryMathExpression(_, op) => match op {
            UnaryMathOp::Not => check_type_boolean(rows, context, next),
            _ => check_type_numeric(rows, context, next),
        },
        ExpressionLine::UnaryCryptoExpression(..) => {
            check_type_crypto_operand(rows, context, next)
        }
        ExpressionLine::ByteExpression(_) => {
            let n = check_type_string(rows, context, next)?;
            check_ascii(rows, next, n)
        }
        ExpressionLine::CheckSigExpression(_) => check_factor(rows, context, next),
    }
}

// An operand by the rule for a type. What is of type Signature passes none of the three.
#[cycle(type_rules)]
#[tactic(auto, unfolding(operands::specs::Typed::rule_of))]
fn check_operand(
    rows: &Rows<'_>,
    context: Context,
    i: usize,
    ty: Type,
) -> Result<usize, CompileError>
    requires { ExpressionUnder rows.now.listing.now rows.now.table.now context i }
    ensures { Checks (rule_of ty) rows.now.listing.now rows.now.table.now context i result }
{
    match ty {
        Type::Number => check_type_numeric(rows, context, i),
        Type::String => check_type_string(rows, context, i),
        Type::Signature | Type::Boolean => check_type_boolean(rows, context, i),
    }
}

// Two operands in turn, both by the rule for a type.
#[cycle(type_rules)]
fn check_both(rows: &Rows<'_>, context: Context, i: usize, ty: Type) -> Result<usize, CompileError>
    requires { TwoUnder rows.now.listing.now rows.now.table.now context i }
    ensures { ChecksTwo (rule_of ty) (rule_of ty) rows.now.listing.now rows.now.table.now context i result }
{
    let n = check_operand(rows, context, i, ty)?;
    check_operand(rows, context, n, ty)
}

// A compare at `loc`, its operands from row i on: by the one type that the left operand can have, so that none is gone into twice.
#[cycle(type_rules)]
fn check_compare(
    rows: &Rows<'_>,
    context: Context,
    i: usize,
    loc: Location,
    op: BinaryCompareOp,
) -> Result<usize, CompileError>
    requires { TwoUnder rows.now.listing.now rows.now.table.now context i }
    ensures { Answers (SpellsTwo rows.now.listing.now rows.now.table.now) (compare_two loc op) rows.now.listing.now rows.now.table.now context i result }
{
    match sort_at(rows, context, i) {
        None => Err(CompileError::new(ErrorKind::InvalidOperation, loc)),
        Some(ty) => { judge_compare(loc, op, ty, check_both(rows, context, i, ty)) }
    }
}
