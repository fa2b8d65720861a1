// count_paths: how many paths a block has.
ghost use Rattle.std.specs.Prelude.{◌≡◌, List, ℕ};
ghost use Rattle.ast.specs.Tree.{Statement, Block};
ghost use Rattle.rows.specs.Rows.{line_in};
ghost use Rattle.reader.specs.Spells.{SpellsStatement, SpellsBlock};
ghost use Rattle.rules.specs.Paths.{count_through, count};
ghost use Rattle.nodes.specs.Stands.{StatementAt, BlockAt};
ghost use Rattle.nodes.specs.Somewhere.{Somewhere};

use crate::goes_on;
use listing::StatementLine;
use nodes::{block_at, skip_expression, skip_statements, statement_at};

// A number of paths, and the row after what was counted.
#[derive(Clone, Copy, PartialEq, Eq)]
pub struct Counted {
    pub count: u32,
    pub next: usize,
}

// The paths through a block: those of its first if or return; none if it has neither.
#[cycle(count_paths_count_through)]
pub fn count_paths(table: &[u32], i: usize) -> Counted
    requires { Somewhere (λ s. BlockAt s table.now i) }
    ensures { (s : List ℕ) (b : Block) (j : ℕ) → SpellsBlock (line_in table.now) s i b j → result ≡ record { count = count b; next = j } }
{
    let n = block_at(table, i);
    let mut at = i + 1;
    for left in (0..n).rev() {
        let line = statement_at(table, at);
        let counted = count_through(table, at);
        at = counted.next;
        if !goes_on(line) {
            let next = skip_statements(table, at, left);
            return Counted {
                count: counted.count,
                next,
            };
        }
    }
    Counted { count: 0, next: at }
}

// The paths through a statement that end in it.
#[cycle(count_paths_count_through)]
fn count_through(table: &[u32], i: usize) -> Counted
    requires { Somewhere (λ s. StatementAt s table.now i) }
    ensures { (s : List ℕ) (t : Statement) (j : ℕ) → SpellsStatement (line_in table.now) s i t j → result ≡ record { count = count_through t 0; next = j } }
{
    let line = statement_at(table, i);
    let first = i + 1;
    match line {
        StatementLine::IfStatement(_, has_else) => {
            let block = skip_expression(table, first);
            let one = count_paths(table, block);
            if !has_else {
                return one;
            }
            let other = count_paths(table, one.next);
            Counted {
                count: one.count + other.count,
                next: other.next,
            }
        }
        StatementLine::LocktimeStatement(_, _, _) => Counted {
            count: 0,
            next: first,
        },
        StatementLine::VerifyStatement(_) => Counted {
            count: 0,
            next: skip_expression(table, first),
        },
        StatementLine::ExpressionStatement(_) => Counted {
            count: 1,
            next: skip_expression(table, first),
        },
    }
}
