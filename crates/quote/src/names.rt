// How signals, gates and transforms are written in an account.
ghost use Rattle.std.specs.Prelude.{◌≡◌};
ghost use Rattle.quote.specs.Names.{signal_name, operation_of};

use plans::{Line, Literal, Source};
use std::fmt;
use tables::{PerVariable, Table, Variable};
use transforms::Transform;

// The name of a signal of the table.
fn signal_name(v: Variable) -> char
    ensures { result ≡ signal_name v }
{
    match v {
        Variable::V0 => 'a',
        Variable::V1 => 'b',
        Variable::V2 => 'c',
        Variable::V3 => 'd',
    }
}

// The mark of an inversion.
fn mark(inverted: bool) -> &'static str {
    if inverted { "!" } else { "" }
}

/// A literal of a plan: 0, 1, a signal or the answer of a gate, with a mark where it is inverted.
#[derive(Clone, Copy)]
pub struct Signal(pub Literal);

impl fmt::Display for Signal {
    fn fmt<W: fmt::Write>(&self, f: &mut fmt::Formatter<W>) -> fmt::Result {
        let mark = mark(self.0.inverted);
        match self.0.source {
            Source::Constant => f.write_str(if self.0.inverted { "1" } else { "0" }),
            Source::Input(v) => {
                let name = signal_name(v);
                write!(f, "{mark}{name}")
            }
            Source::Line(n) => write!(f, "{mark}g{n}"),
        }
    }
}

/// What a gate computes: one of the three functions of two signals that plans use, or another table.
#[derive(Clone, Copy)]
pub enum Operation {
    And,
    Or,
    Xor,
    Other(Table),
}

// The operation of a table.
fn operation_of(f: Table) -> Operation
    ensures { result ≡ operation_of f }
{
    match f {
        0x8888 => Operation::And,
        0xEEEE => Operation::Or,
        0x6666 => Operation::Xor,
        _ => Operation::Other(f),
    }
}

impl fmt::Display for Operation {
    fn fmt<W: fmt::Write>(&self, f: &mut fmt::Formatter<W>) -> fmt::Result {
        match *self {
            Operation::And => f.write_str("AND"),
            Operation::Or => f.write_str("OR"),
            Operation::Xor => f.write_str("XOR"),
            Operation::Other(table) => write!(f, "TABLE {table:#06X}"),
        }
    }
}

/// A line of a plan, with its number.
#[derive(Clone, Copy)]
pub struct Gate {
    pub number: usize,
    pub line: Line,
}

impl fmt::Display for Gate {
    fn fmt<W: fmt::Write>(&self, f: &mut fmt::Formatter<W>) -> fmt::Result {
        let number = self.number;
        let operation = operation_of(self.line.table);
        let PerVariable { a, b, c, d } = self.line.literals.map(Signal);
        write!(f, "g{number} = {operation}({a}, {b}")?;
        if let Operation::Other(_) = operation {
            write!(f, ", {c}, {d}")?;
        }
        f.write_str(")")
    }
}

/// Which variable of the representative a signal of the table is.
#[derive(Clone, Copy)]
pub struct Connection {
    pub transform: Transform,
    pub signal: Variable,
}

impl fmt::Display for Connection {
    fn fmt<W: fmt::Write>(&self, f: &mut fmt::Formatter<W>) -> fmt::Result {
        let name = signal_name(self.signal);
        let mark = mark(self.transform.inverts(self.signal));
        let number = u8::from(self.transform.order().at(self.signal));
        write!(f, "{name} = {mark}x{number}")
    }
}
