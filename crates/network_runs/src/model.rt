//! A plain model of a network: a table over signals is asked at every setting of the nodes that they name.
use crate::calls::Call;
use classes::Ownership;
use netlists::{Fanins, Node, Refusal, Row, Signal};
use reference::tables::{Variable, is_used, setting_of, table_of, value_at};
use std::alloc::{AllocError, Global};
use std::array;
use tables::{PerVariable, Table};

// A table over four signals, and the numbers of the nodes that they name, ascending; a node can stand there more than once.
#[derive(Clone, Copy)]
struct Question {
    table: Table,
    fanins: [Signal; 4],
    nodes: [u16; 4],
}

// A node that matters, and the variable that stood for it.
type Place = (Variable, Node);

// What a question comes to: the nodes that matter, ascending and then 0, the table over them, and whether it is inverted.
#[derive(Clone, Copy)]
struct Reduced {
    row: Row,
    count: usize,
    inverted: bool,
}

impl Question {
    fn new(table: Table, fanins: Fanins) -> Question {
        let fanins = [fanins.a, fanins.b, fanins.c, fanins.d];
        let mut nodes = fanins.map(|signal| signal.node().number());
        nodes.sort_unstable();
        Question {
            table,
            fanins,
            nodes,
        }
    }

    // The truth of a signal where the nodes at these places are true; a node counts by its first place.
    fn truth(self, signal: Signal, setting: u16) -> bool {
        let number = signal.node().number();
        let mut places = Variable::ALL.into_iter().zip(self.nodes);
        let place = places.find(|(_, node)| *node == number);
        let value = place.is_some_and(|(v, node)| node != 0 && v.is_set(setting));
        value != signal.inverted()
    }

    // The table over the nodes at the four places.
    fn over_nodes(self) -> Table {
        table_of(|x| {
            let values = self.fanins.map(|signal| self.truth(signal, x));
            value_at(self.table, setting_of(values))
        })
    }

    fn reduce(self) -> Reduced {
        let f = self.over_nodes();
        let places = Variable::ALL.into_iter().zip(self.nodes.map(Node::new));
        let mut used = places.filter(|(v, _)| is_used(f, *v));
        let places: [Option<Place>; 4] = array::from_fn(|_| used.next());
        let inverted = value_at(f, 0);
        let [a, b, c, d] = places.map(|place| place.map_or(Node::FALSE, |(_, node)| node));
        Reduced {
            row: Row {
                table: table_of(|x| value_at(f, spread(places, x)) != inverted),
                nodes: PerVariable { a, b, c, d },
            },
            count: places.iter().flatten().count(),
            inverted,
        }
    }
}

// The setting of the places at a setting of those that matter.
fn spread(places: [Option<Place>; 4], setting: u16) -> u16 {
    let mut spread = 0;
    for (v, place) in Variable::ALL.into_iter().zip(places) {
        if let Some((old, _)) = place
            && v.is_set(setting)
        {
            spread |= old.bit();
        }
    }
    spread
}

// Whether a reduced table of two nodes or more is owned: all of two nodes are ANDs but the exclusive-or.
fn is_in(owned: Ownership, reduced: Reduced) -> bool {
    match (reduced.count, reduced.row.table) {
        (2, 0x6666) => owned.xor || owned.every,
        (2, _) => true,
        (3, 0xE8E8 | 0xD4D4 | 0xB2B2 | 0x8E8E) => owned.majority || owned.every,
        _ => owned.every,
    }
}

/// What an accepted call changes.
#[derive(Clone, Copy)]
pub enum Change {
    Start(usize),
    Output(Signal),
    Row(Row),
}

/// An accepted call: its signal if it is a place call, and what it changes, if anything.
#[derive(Clone, Copy)]
pub struct Accepted {
    pub signal: Option<Signal>,
    pub change: Option<Change>,
}

/// A network as plain lists.
#[derive(Drop)]
pub struct Model {
    pub inputs: usize,
    pub rows: Vec<Row>,
    pub outputs: Vec<Signal>,
    places: usize,
    owned: Ownership,
}

impl Model {
    /// A network with nothing in it.
    pub(crate) fn new(heap: Global, places: usize, owned: Ownership) -> Model {
        Model {
            inputs: 0,
            rows: Vec::new(heap),
            outputs: Vec::new(heap),
            places,
            owned,
        }
    }

    // Node number `k` of the rows, counted from 0.
    fn row_node(&self, k: usize) -> Node {
        let number = self.inputs.wrapping_add(1).wrapping_add(k);
        Node::new(u16::try_from(number).unwrap_or(u16::MAX))
    }

    fn has(&self, signal: Signal) -> bool {
        signal.node().number() < self.row_node(self.rows.len()).number()
    }

    /// What a call comes to, or why it is refused; nothing changes yet.
    pub(crate) fn judge(&self, call: Call) -> Result<Accepted, Refusal> {
        match call {
            Call::Start(inputs) => self.start(inputs),
            Call::Output(signal) => self.output(signal),
            Call::Place(table, fanins) => self.place(table, fanins),
        }
    }

    /// Makes a change.
    pub(crate) fn make(&mut self, change: Change) -> Result<(), AllocError> {
        match change {
            Change::Start(inputs) => {
                self.inputs = inputs;
                self.rows.clear();
                self.outputs.clear();
            }
            Change::Output(signal) => self.outputs.push(signal)?,
            Change::Row(row) => self.rows.push(row)?,
        }
        Ok(())
    }

    fn start(&self, inputs: usize) -> Result<Accepted, Refusal> {
        if inputs > 32 {
            return Err(Refusal::TooManyInputs);
        }
        Ok(Accepted {
            signal: None,
            change: Some(Change::Start(inputs)),
        })
    }

    fn output(&self, signal: Signal) -> Result<Accepted, Refusal> {
        if !self.has(signal) {
            return Err(Refusal::NoSuchNode);
        }
        if self.outputs.len() >= 32 {
            return Err(Refusal::TooManyOutputs);
        }
        Ok(Accepted {
            signal: None,
            change: Some(Change::Output(signal)),
        })
    }

    fn place(&self, table: Table, fanins: Fanins) -> Result<Accepted, Refusal> {
        if !fanins.all(|signal| self.has(signal)) {
            return Err(Refusal::NoSuchNode);
        }
        let reduced = Question::new(table, fanins).reduce();
        let (node, change) = if reduced.count < 2 {
            (reduced.row.nodes.a, None)
        } else if is_in(self.owned, reduced) {
            self.settle(reduced.row)?
        } else {
            return Err(Refusal::NotOwned);
        };
        Ok(Accepted {
            signal: Some(node.signal(reduced.inverted)),
            change,
        })
    }

    // The node of the row alike, or of a new one where there is a place.
    fn settle(&self, row: Row) -> Result<(Node, Option<Change>), Refusal> {
        let next = self.rows.len();
        match self.rows.iter().position(|other| *other == row) {
            Some(k) => Ok((self.row_node(k), None)),
            None if next < self.places => Ok((self.row_node(next), Some(Change::Row(row)))),
            None => Err(Refusal::NoPlace),
        }
    }
}
