// Nodes, signals and rows, and why a call is refused.
#![tactic(auto)]

ghost use Rattle.std.specs.Prelude.{◌≡◌, ◌+◌, ◌*◌, if◌then◌else◌};
ghost use Rattle.netlists.specs.Refusals.{number_of};

use tables::{PerVariable, Table};

/// A node of a network: 0 is constant false, then come the inputs, then the rows.
#[derive(Clone, Copy, PartialEq, Eq, Debug)]
pub struct Node {
    number: u16,
}

/// A node's value, or its inversion. The fields are private, so that a node is never passed for a signal.
// A flag beside the node and no enum of two cases: each use needs the node, and inverts by the flag.
#[derive(Clone, Copy, PartialEq, Eq, Debug)]
pub struct Signal {
    node: Node,
    inverted: bool,
}

/// A gate: a table over two to four nodes, ascending; places that it does not use hold node 0.
#[derive(Clone, Copy, PartialEq, Eq, Debug)]
pub struct Row {
    pub table: Table,
    pub nodes: PerVariable<Node>,
}

/// The four signals that a table is placed over; variable k of the table is the k-th.
pub type Fanins = PerVariable<Signal>;

/// A function of nodes in normal form: a row whose table is false at index 0, or the inversion of one.
/// A constant is held over no node, and a single node over that node alone.
// The flag is the inversion, as in a signal: the row counts in both cases.
#[derive(Clone, Copy, PartialEq, Eq, Debug)]
pub struct Form {
    pub row: Row,
    pub inverted: bool,
}

/// Why a call of a network is refused.
#[derive(Clone, Copy, PartialEq, Eq, Debug)]
pub enum Refusal {
    /// A signal's node is not there.
    NoSuchNode,
    /// The row asked for is not there.
    NoSuchRow,
    /// The output asked for is not there.
    NoSuchOutput,
    /// More than 32 inputs.
    TooManyInputs,
    /// More than 32 outputs.
    TooManyOutputs,
    /// A function of two or more nodes whose class is not owned.
    NotOwned,
    /// A new row is needed, and every place is taken.
    NoPlace,
}

impl Refusal {
    /// The number that the refusal is known by.
    // A match and no discriminants: some refusals share a number.
    pub fn number(self) -> u8
        ensures { result ≡ number_of self }
    {
        match self {
            Refusal::NoSuchNode | Refusal::NoSuchRow | Refusal::NoSuchOutput => 9,
            Refusal::TooManyInputs | Refusal::TooManyOutputs | Refusal::NotOwned => 10,
            Refusal::NoPlace => 11,
        }
    }
}

impl Node {
    /// The node of constant false.
    pub const FALSE: Node = Node { number: 0 };

    /// The node of a number.
    pub fn new(number: u16) -> Node
        ensures { result.number ≡ number }
    {
        Node { number }
    }

    pub fn number(self) -> u16
        ensures { result ≡ self.number }
    {
        self.number
    }

    /// The node's signal: the only way from a node to a signal.
    pub fn signal(self, inverted: bool) -> Signal
        ensures node { result.node ≡ self }
        ensures inverted { result.inverted ≡ inverted }
    {
        Signal {
            node: self,
            inverted,
        }
    }
}

impl Signal {
    /// The signal that is false.
    pub const FALSE: Signal = Signal {
        node: Node::FALSE,
        inverted: false,
    };

    pub fn node(self) -> Node
        ensures { result ≡ self.node }
    {
        self.node
    }

    pub fn inverted(self) -> bool
        ensures { result ≡ self.inverted }
    {
        self.inverted
    }

    /// Twice the node's number, and one more where it is inverted: a signal as one number, for who prints or stores it.
    pub fn code(self) -> u32
        ensures { result ≡ 2 * self.node.number + (if self.inverted then 1 else 0) }
    {
        2 * self.node.number as u32 + self.inverted as u32
    }
}
