// The lines of a plan: each is one place call, a table over four literals.
#![tactic(auto)]

ghost use Rattle.std.specs.Prelude.{◌≡◌, ◌+◌, ◌<◌, [], ◌∷◌, ◌++◌, length, slice_set};
ghost use Rattle.lists.specs.Lists.{listed};
ghost use Rattle.plan_lines.specs.Lines.{invert_if, nth, two_of, used, whole_of};

use lists::FixedList;
use tables::{PerVariable, Table, VARIABLES, Variable, depends_on};

/// The tables of two literals: their AND, their OR and their exclusive-or.
pub const AND: Table = 0x8888;

pub const OR: Table = 0xEEEE;

pub const XOR: Table = 0x6666;

/// How many lines a plan has at most.
pub const MOST_LINES: usize = 21;

/// Where a literal comes from.
#[derive(Clone, Copy, PartialEq, Eq, Debug)]
pub enum Source {
    /// Constant false.
    Constant,
    /// One of the four signals that the table is written over.
    Input(Variable),
    /// The answer of an earlier line, by its number.
    Line(usize),
}

/// A source, or its inversion.
// A flag beside the source and no enum of two cases: each use needs the source, and inverts by the flag.
#[derive(Clone, Copy, PartialEq, Eq, Debug)]
pub struct Literal {
    pub source: Source,
    pub inverted: bool,
}

/// One place call: a table over four literals.
#[derive(Clone, Copy, PartialEq, Eq, Debug)]
pub struct Line {
    pub table: Table,
    pub literals: PerVariable<Literal>,
}

/// What the four variables of a table stand for.
pub type Inputs = PerVariable<Literal>;

/// The lines of a plan, in order.
pub type Lines = FixedList<Line, MOST_LINES>;

impl Literal {
    /// Constant false.
    pub const FALSE: Literal = Literal {
        source: Source::Constant,
        inverted: false,
    };

    /// The literal, inverted once more where `inverse` says so.
    pub fn invert_if(self, inverse: bool) -> Literal
        ensures { result ≡ invert_if inverse self }
    {
        Literal {
            inverted: inverse != self.inverted,
            ..self
        }
    }
}

/// One line more behind those that are there; its answer.
pub fn push_line(lines: &mut Lines, line: Line) -> Literal
    requires { length (listed lines.old) < MOST_LINES }
    ensures listed { listed lines.new ≡ listed lines.old ++ line ∷ [] }
    ensures items { lines.new.items ≡ slice_set lines.old.items lines.old.count line }
    ensures count { lines.new.count ≡ lines.old.count + 1 }
    ensures answer { result ≡ nth (length (listed lines.old)) }
{
    let n = lines.len();
    lines.push(line);
    Literal {
        source: Source::Line(n),
        inverted: false,
    }
}

impl Line {
    /// A line over two literals; the other two are constant false.
    pub fn of_two(table: Table, a: Literal, b: Literal) -> Line
        ensures { result ≡ two_of table a b }
    {
        Line {
            table,
            literals: PerVariable {
                a,
                b,
                ..PerVariable::splat(Literal::FALSE)
            },
        }
    }

    /// One line with the table itself, over what the variables of its support stand for.
    pub fn of_table(h: Table, inputs: Inputs) -> Line
        ensures { result ≡ whole_of h inputs }
    {
        let used = |v: Variable| -> Literal
            ensures { result ≡ used h inputs v }
        {
            if depends_on(h, v) {
                inputs.at(v)
            } else {
                Literal::FALSE
            }
        };
        Line {
            table: h,
            literals: VARIABLES.map(used),
        }
    }
}
