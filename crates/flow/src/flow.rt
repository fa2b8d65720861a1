// check_flow: 18 and 19.
ghost use Rattle.std.specs.Prelude.{◌≡◌, List, ℕ};
ghost use Rattle.ast.specs.Tree.{Statement, Block};
ghost use Rattle.rows.specs.Rows.{line_in};
ghost use Rattle.reader.specs.Spells.{SpellsStatement, SpellsBlock};
ghost use Rattle.rules.specs.Flow.{flow_last, flow};
ghost use Rattle.nodes.specs.Stands.{StatementAt, BlockAt, walked};
ghost use Rattle.nodes.specs.Somewhere.{Somewhere};

use crate::{goes_on, place_of};
use ast::{CompileError, ErrorKind, nowhere};
use listing::StatementLine;
use nodes::{block_at, skip_expression, skip_statement, statement_at};

// A block: first 19 at a statement after an if or a return, then its last statement; an empty block is 18.
#[cycle(check_flow_check_last)]
pub fn check_flow(table: &[u32], i: usize) -> Result<usize, CompileError>
    requires { Somewhere (λ s. BlockAt s table.now i) }
    ensures { (s : List ℕ) (b : Block) (j : ℕ) → SpellsBlock (line_in table.now) s i b j → result ≡ walked (flow b) j }
{
    let n = block_at(table, i);
    if n == 0 {
        return Err(CompileError::new(ErrorKind::NoReturn, nowhere()));
    }
    let mut at = i + 1;
    for _ in 1..n {
        let line = statement_at(table, at);
        at = skip_statement(table, at);
        if !goes_on(line) {
            let after = statement_at(table, at);
            return Err(CompileError::new(ErrorKind::UnreachableCode, place_of(after)));
        }
    }
    check_last(table, at)
}

// The last statement of a block: 18 unless it is a return, or an if with its else and two blocks that pass.
#[cycle(check_flow_check_last)]
fn check_last(table: &[u32], i: usize) -> Result<usize, CompileError>
    requires { Somewhere (λ s. StatementAt s table.now i) }
    ensures { (s : List ℕ) (t : Statement) (j : ℕ) → SpellsStatement (line_in table.now) s i t j → result ≡ walked (flow_last t) j }
{
    let line = statement_at(table, i);
    let first = i + 1;
    match line {
        StatementLine::IfStatement(loc, has_else) => {
            if !has_else {
                return Err(CompileError::new(ErrorKind::NoReturn, loc));
            }
            let block = skip_expression(table, first);
            let other = check_flow(table, block)?;
            check_flow(table, other)
        }
        StatementLine::LocktimeStatement(loc, _, _) | StatementLine::VerifyStatement(loc) => {
            Err(CompileError::new(ErrorKind::NoReturn, loc))
        }
        StatementLine::ExpressionStatement(_) => Ok(skip_expression(table, first)),
    }
}
