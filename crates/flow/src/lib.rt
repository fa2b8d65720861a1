// The flow of statements: what may follow what, and how many paths there are.
#![tactic(auto)]

ghost use Rattle.std.specs.Prelude.{◌≡◌};
ghost use Rattle.flow.specs.Lines.{line_goes_on, line_place};

use ast::Location;
use listing::StatementLine;

pub mod flow; // flow.rt: check_flow
pub mod necessity; // necessity.rt: count_paths

// Whether statements may follow: after a wait and a verify, not after an if or a return.
pub fn goes_on(line: StatementLine) -> bool
    ensures { result ≡ line_goes_on line }
{
    matches!(
        line,
        StatementLine::LocktimeStatement(..) | StatementLine::VerifyStatement(_)
    )
}

// Where a statement stands.
pub fn place_of(line: StatementLine) -> Location
    ensures { result ≡ line_place line }
{
    match line {
        StatementLine::IfStatement(loc, _)
        | StatementLine::LocktimeStatement(loc, _, _)
        | StatementLine::VerifyStatement(loc)
        | StatementLine::ExpressionStatement(loc) => loc,
    }
}
