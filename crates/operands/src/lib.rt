// Names and literals as operands, and what an answer on the operands of a compare comes to.
#![tactic(auto)]

ghost use Rattle.std.specs.Prelude.{◌≡◌, ℕ, Bool};
ghost use Rattle.ast.specs.declared.ErrorKind.{ErrorKind};
ghost use Rattle.ast.specs.Tree.{Expression, Declaration, from_top};
ghost use Rattle.text.specs.Text.{part};
ghost use Rattle.rows.specs.Rows.{line_in};
ghost use Rattle.reader.specs.Spells.{SpellsExpression};
ghost use Rattle.nodes.specs.Stands.{ExpressionAt, walked};
ghost use Rattle.rules.specs.Result.{Checked};
ghost use Rattle.rules.specs.Types.{type_of, is_equality, ascii, variable};
ghost use Rattle.names.specs.Items.{ItemsAt, Inside};
ghost use Rattle.operands.specs.Typed.{Declares, ExpressionUnder, Computes, type_found, LeafIs, sort_of, allows, judged};

use crate::literals::is_ascii_literal;
use ast::{BinaryCompareOp, CompileError, ErrorKind, Location, Target, Type, UnaryMathOp};
use listing::ExpressionLine;
use names::{ItemRows, find_item, item_at};
use nodes::{expression_at, loc_at};
use rows::Rows;
use text::Place;

pub mod literals; // literals.rt: what a literal's bytes are
pub mod signatures; // signatures.rt: the signature and key rule, the multi-signature

// What the rules are asked under: the target, and the rows of the items that the path's declaration has.
#[derive(Clone, Copy, PartialEq, Eq)]
pub struct Context {
    pub target: Target,
    pub items: ItemRows,
}

// An expression's own row: a variable's name, a literal's digits and mark, or neither of the two.
#[derive(Clone, Copy)]
pub enum Leaf {
    Named(Location, Place),
    Bytes(Location, Place, bool),
    Other(Location),
}

// The type of the name x in the context's declaration.
pub fn type_of(rows: &Rows<'_>, context: Context, x: Place) -> Option<Type>
    requires { ItemsAt rows.now.listing.now rows.now.table.now context.items.count context.items.first × Inside rows.now.listing.now x }
    ensures { (d : Declaration) → Declares rows.now.listing.now rows.now.table.now context d → result ≡ type_found (type_of (from_top d) (part rows.now.listing.now x)) }
{
    let k = find_item(rows, context.items, x.of(rows.listing))?;
    Some(item_at(rows.table, context.items.row_at(k)).ty)
}

// The variable x at `loc`: an unknown name is 12, a type that fails the test 17. A pass goes on at `next`.
pub fn check_variable_type<F: FnOnce(Type) -> bool>(
    rows: &Rows<'_>,
    context: Context,
    next: usize,
    loc: Location,
    x: Place,
    wanted: F,
) -> Result<usize, CompileError>
    requires stands { ItemsAt rows.now.listing.now rows.now.table.now context.items.count context.items.first × Inside rows.now.listing.now x }
    requires callable { F.IsAlwaysCallable wanted }
    ensures { (d : Declaration) (p : _ → Bool) → Declares rows.now.listing.now rows.now.table.now context d → Computes (F.post wanted) p → result ≡ walked (variable (from_top d) loc (part rows.now.listing.now x) p) next }
{
    match type_of(rows, context, x) {
        None => Err(CompileError::new(ErrorKind::UndefinedVariable, loc)),
        Some(ty) if wanted(ty) => Ok(next),
        Some(_) => Err(CompileError::new(ErrorKind::InvalidOperation, loc)),
    }
}

// The operand at row i, as a name or a literal.
pub fn leaf_at(rows: &Rows<'_>, i: usize) -> Leaf
    requires { ExpressionAt rows.now.listing.now rows.now.table.now i }
    ensures { (e : Expression) (j : ℕ) → SpellsExpression (line_in rows.now.table.now) rows.now.listing.now i e j → LeafIs rows.now.listing.now i result e j }
{
    match expression_at(rows.table, i) {
        ExpressionLine::Variable(l, x) => Leaf::Named(l, x),
        ExpressionLine::StringLiteral(l, x, mark) => Leaf::Bytes(l, x, mark),
        _ => Leaf::Other(loc_at(rows.table, i)),
    }
}

// The one type that the operand at row i can have, by its own row.
pub fn sort_at(rows: &Rows<'_>, context: Context, i: usize) -> Option<Type>
    requires { ExpressionUnder rows.now.listing.now rows.now.table.now context i }
    ensures { (e : Expression) (j : ℕ) (d : Declaration) → SpellsExpression (line_in rows.now.table.now) rows.now.listing.now i e j → Declares rows.now.listing.now rows.now.table.now context d → result ≡ sort_of (from_top d) e }
{
    match expression_at(rows.table, i) {
        ExpressionLine::Variable(_, x) => type_of(rows, context, x),
        ExpressionLine::UnaryMathExpression(_, op) => match op {
            UnaryMathOp::Not => Some(Type::Boolean),
            _ => Some(Type::Number),
        },
        ExpressionLine::BooleanLiteral(..)
        | ExpressionLine::LogicalExpression(..)
        | ExpressionLine::CompareExpression(..)
        | ExpressionLine::CheckSigExpression(_) => Some(Type::Boolean),
        ExpressionLine::NumberLiteral(..)
        | ExpressionLine::BinaryMathExpression(..)
        | ExpressionLine::ByteExpression(_) => Some(Type::Number),
        ExpressionLine::StringLiteral(..) | ExpressionLine::UnaryCryptoExpression(..) => {
            Some(Type::String)
        }
    }
}

// The operand of a size, at row i: a literal has only ASCII, else 17 at it. A pass goes on at `next`.
pub fn check_ascii(rows: &Rows<'_>, i: usize, next: usize) -> Result<usize, CompileError>
    requires { ExpressionAt rows.now.listing.now rows.now.table.now i }
    ensures { (e : Expression) (j : ℕ) → SpellsExpression (line_in rows.now.table.now) rows.now.listing.now i e j → result ≡ walked (ascii e) next }
{
    match leaf_at(rows, i) {
        Leaf::Named(..) | Leaf::Other(_) => Ok(next),
        Leaf::Bytes(l, x, _) => {
            if is_ascii_literal(x.of(rows.listing)) {
                Ok(next)
            } else {
                Err(CompileError::new(ErrorKind::InvalidOperation, l))
            }
        }
    }
}

#[tactic(auto, unfolding(rules::specs::Types::is_equality))]
fn is_equality(op: BinaryCompareOp) -> bool
    ensures { result ≡ is_equality op }
{
    matches!(op, BinaryCompareOp::Equal | BinaryCompareOp::NotEqual)
}

// Whether two operands of a type may be compared so: numbers always, others by == and !=.
#[tactic(auto, unfolding(crate::specs::Typed::allows))]
fn may_compare(ty: Type, op: BinaryCompareOp) -> bool
    ensures { result ≡ allows ty op }
{
    ty == Type::Number || is_equality(op)
}

// A compare at `loc` of operands of a type, after their answer: any fault is 17 at the compare.
#[tactic(auto, unfolding(crate::specs::Typed::judged, rules::specs::Types::or17))]
pub fn judge_compare(
    loc: Location,
    op: BinaryCompareOp,
    ty: Type,
    operands: Result<usize, CompileError>,
) -> Result<usize, CompileError>
    ensures { (c : Checked) (j : ℕ) → operands ≡ walked c j → result ≡ walked (judged loc op ty c) j }
{
    match operands {
        Ok(n) if may_compare(ty, op) => Ok(n),
        _ => Err(CompileError::new(ErrorKind::InvalidOperation, loc)),
    }
}
