// Which line may follow, and the ceilings: the reading of the tree over a table of rows, of which nothing is written.
#![tactic(auto)]

ghost use Rattle.std.specs.Prelude.{◌≡◌, true, false, List, ℕ, ◌<◌, leb, eqb};
ghost use Rattle.rows.specs.Rows.{line_in, line_of, HasRows};
ghost use Rattle.tree.specs.Table.{asked};
ghost use Rattle.tree.specs.Walk.{form_of, parts_of, fits_here, line_number, refusal, due_line, due, node, depth_of, deepest, finished};

use ast::{CompileError, ErrorKind, Location};
use listing::letters;
use rows::{Words, row_in};

// The rows that were stored: how many, and whether the listing ends after the last of them or goes on with a line of no form.
#[derive(Clone, Copy)]
pub struct Lines {
    pub count: usize,
    pub ended: bool,
}

// The lines of a listing, as rows of a table.
#[derive(Clone, Copy)]
pub struct Listed<'a> {
    pub table: &'a [u32],
    pub lines: Lines,
    pub ghost room: { HasRows table.now lines.count },
}

// The kinds of line, by where they may stand, and one that no line has.
#[derive(Clone, Copy, PartialEq, Eq)]
pub enum Kind {
    Expression,
    Factor,
    Block,
    Statement,
    Item,
    Declaration,
    Contract,
    Other,
}

// By its number.
impl From<u32> for Kind {
    ghost use Rattle.tree.specs.Walk.{kind_from};

    ghost from_gives = { λ n k. k ≡ kind_from n };

    #[tactic(auto, using(crate::proofs::Walk::kind_past))]
    fn from(n: u32) -> Self {
        match n {
            0 => Kind::Expression,
            1 => Kind::Factor,
            2 => Kind::Block,
            3 => Kind::Statement,
            4 => Kind::Item,
            5 => Kind::Declaration,
            6 => Kind::Contract,
            _ => Kind::Other,
        }
    }
}

// The ceilings.
pub const MAX_LINES: usize = 1024;

const MAX_DECLARATIONS: u32 = 32;

const MAX_ITEMS: u32 = 32;

const MAX_NAME: u32 = 32;

// Two digits for each of 1200 bytes.
const MAX_DIGITS: u32 = 2400;

const MAX_FACTORS: u32 = 64;

// How many levels of blocks and of expressions are left.
#[derive(Clone, Copy)]
pub struct Left {
    pub blocks: u32,
    pub expressions: u32,
}

impl Left {
    ghost use Rattle.std.specs.Prelude.{true};
    ghost use Rattle.tree.specs.Walk.{has_room, below};

    // Whether a level is left for a node of this kind.
    fn has_room(self, kind: Kind) -> bool
        ensures { result ≡ has_room kind self }
    {
        match kind {
            Kind::Expression | Kind::Factor => 0 < self.expressions,
            Kind::Block => 0 < self.blocks,
            _ => true,
        }
    }

    // The levels left for its parts.
    fn below(self, kind: Kind) -> Left
        requires { has_room kind self ≡ true }
        ensures { result ≡ below kind self }
    {
        match kind {
            Kind::Expression | Kind::Factor => Left {
                expressions: self.expressions - 1,
                ..self
            },
            Kind::Block => Left {
                blocks: self.blocks - 1,
                ..self
            },
            _ => self,
        }
    }
}

// What is asked of a line: its kind, how many parts it has, the kinds of the first and of the others, and whether it is within its own ceiling.
#[derive(Clone, Copy)]
pub struct Form {
    pub kind: Kind,
    pub count: u32,
    pub first: Kind,
    pub rest: Kind,
    pub within: bool,
}

impl Form {
    ghost use Rattle.std.specs.Prelude.{true, leb};
    ghost use Rattle.tree.specs.Walk.{form_part};
    ghost use Rattle.tree.specs.declared.Kind.TheVariants.{Expression, Block, Statement};

    // A line with parts of one kind, and no ceiling of its own.
    fn of(kind: Kind, count: u32, part: Kind) -> Form
        ensures { result ≡ record { kind = kind; count = count; first = part; rest = part; within = true } }
    {
        Form {
            kind,
            count,
            first: part,
            rest: part,
            within: true,
        }
    }

    // An expression with operands, if any.
    fn expression(count: u32) -> Form
        ensures { result ≡ record { kind = Expression; count = count; first = Expression; rest = Expression; within = true } }
    {
        Form::of(Kind::Expression, count, Kind::Expression)
    }

    // A statement: its condition first, then blocks.
    fn statement(count: u32) -> Form
        ensures { result ≡ record { kind = Statement; count = count; first = Expression; rest = Block; within = true } }
    {
        Form {
            rest: Kind::Block,
            ..Form::of(Kind::Statement, count, Kind::Expression)
        }
    }

    // The same with a ceiling of its own: n, its count or the length of its name or literal, is at most `most`.
    fn within(self, n: u32, most: u32) -> Form
        ensures { result ≡ record { kind = self.kind; count = self.count; first = self.first; rest = self.rest; within = leb n most } }
    {
        Form {
            within: n <= most,
            ..self
        }
    }

    // The kind of the part numbered k, from 0.
    fn part(self, k: u32) -> Kind
        ensures { result ≡ form_part self k }
    {
        if k == 0 { self.first } else { self.rest }
    }
}

// By the letter of the line that a row keeps.
impl From<Words> for Form {
    ghost from_gives = { λ r f. f ≡ form_of (line_of r) };

    #[tactic(auto, unfolding(rows::specs::Rows::line_of, rows::specs::Rows::kept_as))]
    fn from(r: Words) -> Self {
        match r.kind {
            letters::CONTRACT => {
                Form::of(Kind::Contract, r.b, Kind::Declaration).within(r.b, MAX_DECLARATIONS)
            }
            letters::DECLARATION => {
                Form::of(Kind::Declaration, r.a, Kind::Item).within(r.a, MAX_ITEMS)
            }
            letters::ITEM => Form::of(Kind::Item, 0, Kind::Expression).within(r.b, MAX_NAME),
            letters::BLOCK => Form::of(Kind::Block, r.a, Kind::Statement),
            letters::IF => Form::statement(if r.a == 1 { 3 } else { 2 }),
            letters::WAIT => Form::statement(0),
            letters::VERIFY | letters::RETURN => Form::statement(1),
            letters::VARIABLE => Form::expression(0).within(r.b, MAX_NAME),
            letters::NUMBER | letters::BOOLEAN => Form::expression(0),
            letters::LITERAL => Form::expression(0).within(r.b, MAX_DIGITS),
            letters::LOGIC | letters::COMPARE | letters::ARITHMETIC => Form::expression(2),
            letters::UNARY | letters::HASH | letters::SIZE => Form::expression(1),
            letters::SIGNATURES => Form::of(Kind::Expression, 1, Kind::Factor),
            letters::SINGLE => Form::of(Kind::Factor, 2, Kind::Expression),
            letters::MULTI => Form::of(Kind::Factor, r.b, Kind::Factor).within(r.b, MAX_FACTORS),
            _ => Form::of(Kind::Block, 0, Kind::Statement),
        }
    }
}

// The number, from 1, of the line numbered i from 0. No line past the one after the last allowed is asked for.
#[tactic(auto, unfolding(crate::specs::Walk::line_number))]
fn line_number(i: usize) -> u32
    ensures { result ≡ line_number i }
{
    (i.min(MAX_LINES) + 1) as u32
}

// A refusal at the line numbered i, from 0.
fn refuse(kind: ErrorKind, i: usize) -> CompileError
    ensures { result ≡ refusal kind i }
{
    let place = Location {
        start: 0,
        end: 0,
        line: line_number(i),
        column: 0,
    };
    CompileError::new(kind, place)
}

// Whether a line of the kind that is due passes no ceiling.
#[tactic(auto, unfolding(crate::specs::Walk::fits_here))]
fn fits_here(form: Form, i: usize, kind: Kind, left: Left) -> bool
    ensures { result ≡ fits_here kind left i form }
{
    left.has_room(kind) && i < MAX_LINES && form.within
}

// A line where one of this kind is due: 3, then 4.
#[tactic(auto, unfolding(crate::specs::Walk::due_line))]
fn due_line(form: Form, i: usize, kind: Kind, left: Left) -> Result<Form, CompileError>
    ensures { result ≡ due_line kind left i form }
{
    if form.kind != kind {
        return Err(refuse(ErrorKind::UnexpectedLine, i));
    }
    if !fits_here(form, i, kind, left) {
        return Err(refuse(ErrorKind::CeilingPassed, i));
    }
    Ok(form)
}

// What stands as the line numbered i, where one of this kind is due: 2, 3, 4 in this order.
#[tactic(auto, unfolding(crate::specs::Walk::due, crate::specs::Table::asked, rows::specs::Rows::line_in))]
fn line_due(listed: &Listed<'_>, i: usize, kind: Kind, left: Left) -> Result<Form, CompileError>
    ensures { result ≡ due kind left i (asked listed.now.table.now listed.now.lines i) }
{
    if i < listed.lines.count {
        return due_line(Form::from(row_in(listed.table, i)), i, kind, left);
    }
    if listed.lines.ended {
        Err(refuse(ErrorKind::UnexpectedLine, i))
    } else {
        Err(refuse(ErrorKind::MalformedLine, i))
    }
}

// Nothing may follow: 2 or 3.
#[tactic(auto, unfolding(crate::specs::Walk::finished, crate::specs::Table::asked))]
pub fn read_end(lines: Lines, i: usize) -> Result<usize, CompileError>
    ensures { (t : List ℕ) → result ≡ finished i (asked t lines i) }
{
    if i < lines.count {
        return Err(refuse(ErrorKind::UnexpectedLine, i));
    }
    if !lines.ended {
        return Err(refuse(ErrorKind::MalformedLine, i));
    }
    Ok(i)
}

// A node of this kind, from the line numbered i on.
#[cycle(read_node_read_parts)]
#[tactic(auto, using(crate::proofs::Walk::walk_steps))]
fn read_node(listed: &Listed<'_>, i: usize, kind: Kind, left: Left) -> Result<usize, CompileError>
    ensures { (f : ℕ) → depth_of kind left < f → result ≡ node f listed.now.table.now listed.now.lines left kind i }
{
    let form = line_due(listed, i, kind, left)?;
    let after = i + 1;
    if form.count == 0 {
        return Ok(after);
    }
    read_parts(listed, after, form, left.below(kind))
}

// The parts of a line of this form, from the line numbered i on.
#[cycle(read_node_read_parts)]
#[tactic(auto, using(crate::proofs::Walk::walk_steps))]
pub fn read_parts(
    listed: &Listed<'_>,
    i: usize,
    form: Form,
    left: Left,
) -> Result<usize, CompileError>
    ensures { (f : ℕ) → deepest form left < f → result ≡ parts_of (node f listed.now.table.now listed.now.lines left) form i }
{
    let mut next = i;
    for k in 0..form.count {
        next = read_node(listed, next, form.part(k), left)?;
    }
    Ok(next)
}
