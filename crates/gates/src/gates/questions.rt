//! What can be asked of nodes, signals and tables before a call.
ghost use Rattle.std.specs.Prelude.{◌≡◌};
ghost use Rattle.classes.specs.Owned.{owns};
ghost use Rattle.netlists.specs.Placing.{is_there, all_there};
ghost use Rattle.gates.specs.Gates.{netlist_of};

use crate::gates::Gates;
use classes::owned::is_owned;
use codings::Coding;
use netlists::{Fanins, Node, Signal};
use tables::Table;

impl<C: Coding<W>, const W: usize> Gates<C, W> {
    /// How many of the caller's words a place takes.
    pub fn words_a_place() -> usize
        ensures { result ≡ W }
    {
        W
    }

    /// Whether the node is there.
    pub fn has_node(&self, node: Node) -> bool
        ensures { result ≡ is_there (netlist_of self.now) node }
    {
        node.number() as usize <= self.inputs + self.store.len()
    }

    /// Whether the nodes of all four signals are there.
    pub fn has_all(&self, fanins: Fanins) -> bool
        ensures { result ≡ all_there (netlist_of self.now) fanins }
    {
        fanins.all(
            |signal: Signal| -> bool
                ensures { result ≡ is_there (netlist_of self.entry.now) signal.node }
            { self.has_node(signal.node()) },
        )
    }

    /// Whether the class of the table is owned.
    pub fn owns_table(&self, table: Table) -> bool
        ensures { result ≡ owns C.ownership table }
    {
        is_owned(C::ownership(), table)
    }
}
