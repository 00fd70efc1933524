// One interface for every kind of network, with its contract on the netlist alone.
#![tactic(auto)]

pub mod copies;
mod node_set;
mod signal_map;
pub mod sweeps;

ghost use Rattle.std.specs.Prelude.{◌≡◌, ℕ, length, Err, MatchResult};
ghost use Rattle.classes.specs.declared.Ownership.{Ownership};
ghost use Rattle.netlists.specs.Netlists.{Netlist};
ghost use Rattle.netlists.specs.Placing.{after_start, after_place, after_output, row_asked, output_asked};
ghost use Rattle.netlists.specs.Lawful.{Lawful};
ghost use Rattle.netlists.specs.Meaning.{Placed};
ghost use Rattle.networks.specs.Calls.{Answers};

use classes::Ownership;
use netlists::{Fanins, Refusal, Row, Signal};
use tables::Table;

// The nodes that a network may have: node 0, 32 inputs and 544 rows.
pub(crate) const NODE_LIMIT: usize = 1 + 32 + 544;

/// A network of gates. It means a netlist: an input count, rows and output signals. Which classes it owns is one for a kind,
/// and its places never change: each call that alters says so by itself, since an invariant speaks of one moment alone.
pub trait Network {
    ghost netlist: { Self → Netlist };

    ghost places: { Self → ℕ };

    ghost ownership: { Ownership };

    /// Empties the network and gives it inputs.
    fn start(&mut self, inputs: usize) -> Result<(), Refusal>
        ensures answer { Answers (after_start inputs) result (λ _. netlist self.new) (self.new ≡ self.old) }
        ensures kept { places self.new ≡ places self.old };

    /// Answers a signal that has the table's value at the signals: a constant, a node that is there, or a new last row.
    fn place(&mut self, table: Table, fanins: Fanins) -> Result<Signal, Refusal>
        ensures answer { Answers (after_place ownership (places self.old) (netlist self.old) table fanins) result
            (λ s. record { signal = s; netlist = netlist self.new }) (self.new ≡ self.old) }
        ensures kept { places self.new ≡ places self.old };

    /// Adds an output signal.
    fn output(&mut self, signal: Signal) -> Result<(), Refusal>
        ensures answer { Answers (after_output (netlist self.old) signal) result (λ _. netlist self.new) (self.new ≡ self.old) }
        ensures kept { places self.new ≡ places self.old };

    fn input_count(&self) -> usize
        ensures { result ≡ (netlist self.now).inputs };

    fn row_count(&self) -> usize
        ensures { result ≡ length (netlist self.now).rows };

    fn output_count(&self) -> usize
        ensures { result ≡ length (netlist self.now).outputs };

    fn place_count(&self) -> usize
        ensures { result ≡ places self.now };

    /// Row `k`, counted from 0.
    fn row(&self, k: usize) -> Result<Row, Refusal>
        ensures { result ≡ row_asked (netlist self.now) k };

    /// Output `k`, counted from 0.
    fn output_signal(&self, k: usize) -> Result<Signal, Refusal>
        ensures { result ≡ output_asked (netlist self.now) k };

    /// The classes that the kind owns.
    fn owned() -> Ownership
        ensures { result ≡ ownership };

    ghost lawful: { (x : Self) → Lawful ownership (places x) (netlist x) };
}

/// Places a table over four signals: for every setting of the inputs the answered signal then has the table's value at the
/// values of the signals, and every node that was there keeps its value.
#[tactic(auto, using(crate::proofs::Meanings::place_means))]
pub fn place_table<N: Network>(net: &mut N, table: Table, fanins: Fanins) -> Result<Signal, Refusal>
    ensures { MatchResult result
        (λ s. Placed N.ownership (N.places net.old) (N.netlist net.old) table fanins (record { signal = s; netlist = N.netlist net.new }))
        (λ e. (after_place N.ownership (N.places net.old) (N.netlist net.old) table fanins ≡ Err e) × (net.new ≡ net.old)) }
{
    net.place(table, fanins)
}
