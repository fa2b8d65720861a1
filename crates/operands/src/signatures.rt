// The signature and key rule, and the multi-signature.
ghost use Rattle.rules.specs.Types.{signature, key, sig_key, inner, inners, factor};
ghost use Rattle.operands.specs.Typed.{ExpressionUnder, TwoUnder, FactorUnder, FactorsUnder, Answers, Checks, SpellsTwo, ChecksFactor, ChecksFactors, counted};

use crate::literals::is_key;
use crate::{Context, Leaf, check_variable_type, leaf_at};
use ast::{CompileError, ErrorKind, Location, Type};
use listing::FactorLine;
use nodes::{factor_at, skip_factor};
use rows::Rows;

// The signature at row i: not a variable 16, not of type Signature 17.
fn check_signature(rows: &Rows<'_>, context: Context, i: usize) -> Result<usize, CompileError>
    requires { ExpressionUnder rows.now.listing.now rows.now.table.now context i }
    ensures { Checks (λ e g ps. signature ps e) rows.now.listing.now rows.now.table.now context i result }
{
    match leaf_at(rows, i) {
        Leaf::Named(l, x) => {
            check_variable_type(rows, context, i + 1, l, x, |ty| ty == Type::Signature)
        }
        Leaf::Bytes(l, _, _) | Leaf::Other(l) => Err(CompileError::new(ErrorKind::TypeMismatch, l)),
    }
}

// The key at row i: not a literal 16, no marked key of the target 22.
fn check_key(rows: &Rows<'_>, context: Context, i: usize) -> Result<usize, CompileError>
    requires { ExpressionUnder rows.now.listing.now rows.now.table.now context i }
    ensures { Checks (λ e g ps. key g e) rows.now.listing.now rows.now.table.now context i result }
{
    match leaf_at(rows, i) {
        Leaf::Named(l, _) | Leaf::Other(l) => Err(CompileError::new(ErrorKind::TypeMismatch, l)),
        Leaf::Bytes(l, x, mark) => {
            if is_key(x.of(rows.listing), context.target, mark) {
                Ok(i + 1)
            } else {
                Err(CompileError::new(ErrorKind::MalformedPubkey, l))
            }
        }
    }
}

// The signature at row i, then the key after it.
pub fn check_type_sig_pubkey(
    rows: &Rows<'_>,
    context: Context,
    i: usize,
) -> Result<usize, CompileError>
    requires { TwoUnder rows.now.listing.now rows.now.table.now context i }
    ensures { Answers (SpellsTwo rows.now.listing.now rows.now.table.now) (λ e g ps. sig_key g ps e.left e.right) rows.now.listing.now rows.now.table.now context i result }
{
    let n = check_signature(rows, context, i)?;
    check_key(rows, context, n)
}

// A factor of a multi-signature: an inner multi-signature is skipped.
fn check_inner(rows: &Rows<'_>, context: Context, i: usize) -> Result<usize, CompileError>
    requires { FactorUnder rows.now.listing.now rows.now.table.now context i }
    ensures { ChecksFactor inner rows.now.listing.now rows.now.table.now context i result }
{
    match factor_at(rows.table, i) {
        FactorLine::SingleSigFactor(_) => check_type_sig_pubkey(rows, context, i + 1),
        FactorLine::MultiSigFactor(..) => Ok(skip_factor(rows.table, i)),
    }
}

// The `count` factors of a multi-signature in turn, from row i on.
fn check_inners(
    rows: &Rows<'_>,
    context: Context,
    i: usize,
    count: u32,
) -> Result<usize, CompileError>
    requires { FactorsUnder count rows.now.listing.now rows.now.table.now context i }
    ensures { ChecksFactors count (λ fs g ps. inners g ps fs) rows.now.listing.now rows.now.table.now context i result }
{
    let mut next = i;
    for _ in 0..count {
        next = check_inner(rows, context, next)?;
    }
    Ok(next)
}

// A multi-signature at `loc` with the threshold m: m = 0 or m above the factor count is 17, then its factors, from row i on.
fn check_multi(
    rows: &Rows<'_>,
    context: Context,
    i: usize,
    loc: Location,
    m: u32,
    count: u32,
) -> Result<usize, CompileError>
    requires { FactorsUnder count rows.now.listing.now rows.now.table.now context i }
    ensures { ChecksFactors count (counted loc m) rows.now.listing.now rows.now.table.now context i result }
{
    if m == 0 || count < m {
        return Err(CompileError::new(ErrorKind::InvalidOperation, loc));
    }
    check_inners(rows, context, i, count)
}

// A signature check's factor.
pub fn check_factor(rows: &Rows<'_>, context: Context, i: usize) -> Result<usize, CompileError>
    requires { FactorUnder rows.now.listing.now rows.now.table.now context i }
    ensures { ChecksFactor factor rows.now.listing.now rows.now.table.now context i result }
{
    match factor_at(rows.table, i) {
        FactorLine::SingleSigFactor(_) => check_type_sig_pubkey(rows, context, i + 1),
        FactorLine::MultiSigFactor(l, m, count) => {
            check_multi(rows, context, i + 1, l, m, count)
        }
    }
}
