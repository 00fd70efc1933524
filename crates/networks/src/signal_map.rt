//! The signals that stand for the nodes of another network.
ghost use Rattle.std.specs.Prelude.{◌≡◌, ◌<◌, ◌≤◌, false, [], ◌∷◌, ◌++◌, length};
ghost use Rattle.netlists.specs.Placing.{signal_of};
ghost use Rattle.netlists.specs.Copies.{signal_in, fanins_in, through, fresh};

use crate::NODE_LIMIT;
use lists::FixedList;
use netlists::{Fanins, Node, Row, Signal};
use std::marker::Model;

// A node's own signal, by the node's number.
pub(crate) fn plain(number: u16) -> Signal
    ensures { result ≡ signal_of (record { number = number }) false }
{
    Node::new(number).signal(false)
}

// The signal that stands for each node of another network, from node 0 on. It is seen as the list of them.
#[derive(Drop)]
pub(crate) struct SignalMap {
    signals: FixedList<Signal, NODE_LIMIT>,
}

impl Model for SignalMap {
    ghost use Rattle.std.specs.Prelude.{List};
    ghost use Rattle.netlists.specs.declared.Signal.{Signal};
    ghost use Rattle.lists.specs.Lists.{listed};

    ghost Value = { List Signal };

    ghost view = { λ m. listed m.signals };
}

impl SignalMap {
    // Node 0 and the inputs stand for themselves.
    #[tactic(auto, using(crate::proofs::Copying::plain_more, crate::proofs::Copying::plain_all, crate::proofs::Copying::plain_length))]
    pub(crate) fn fresh(inputs: usize) -> SignalMap
        requires { inputs ≤ 32 }
        ensures { result ≡ (fresh inputs).signals }
    {
        let mut map = SignalMap {
            signals: FixedList::new(plain(0)),
        };
        for n in 0..inputs as u16 + 1 {
            map.push(plain(n));
        }
        map
    }

    // How many nodes a signal stands for: the number of the next node.
    pub(crate) fn len(&self) -> usize
        ensures { result ≡ length self.now }
    {
        self.signals.len()
    }

    // The signal that stands for a node; signal 0 where the node is not yet there.
    #[tactic(auto, using(crate::proofs::Copying::found))]
    fn get(&self, node: Node) -> Signal
        ensures { result ≡ signal_in self.now node }
    {
        self.signals.get(node.number() as usize).unwrap_or(plain(0))
    }

    // The signals that stand for the nodes of a row.
    pub(crate) fn fanins(&self, row: Row) -> Fanins
        ensures { result ≡ fanins_in self.now row }
    {
        row.nodes.map(|node| self.get(node))
    }

    // A signal of the other network, as a signal of this one.
    pub(crate) fn through(&self, signal: Signal) -> Signal
        ensures { result ≡ through self.now signal }
    {
        let new = self.get(signal.node());
        new.node().signal(signal.inverted() != new.inverted())
    }

    // The signal that stands for the next node.
    pub(crate) fn push(&mut self, signal: Signal)
        requires { length self.old < NODE_LIMIT }
        ensures { self.new ≡ self.old ++ signal ∷ [] }
    {
        self.signals.push(signal);
    }
}
