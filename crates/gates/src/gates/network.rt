//! The calls of every kind of network. Nothing allocates, and what is refused alters nothing.
ghost use Rattle.std.specs.Prelude.{◌≡◌};
ghost use Rattle.netlists.specs.Placing.{after_start, after_place, after_output};
ghost use Rattle.networks.specs.Calls.{Answers};
ghost use Rattle.gates.specs.Gates.{netlist_of, places_of, KeptIn};
ghost use Rattle.gates.specs.Laws.{gates_lawful};

use crate::gates::{Gates, MOST_INPUTS};
use crate::keeping::keep_row;
use classes::Ownership;
use classes::owned::owns_normal;
use codings::Coding;
use netlists::{Fanins, Node, Refusal, Row, Signal};
use networks::Network;
use normal::normal_form;
use tables::Table;

impl<C: Coding<W>, const W: usize> Network for Gates<C, W> {
    ghost netlist = { netlist_of };

    ghost places = { places_of };

    ghost ownership = { C.ownership };

    #[tactic(auto, using(netlists::proofs::Ways::start_many))]
    fn start(&mut self, inputs: usize) -> Result<(), Refusal>
        ensures answer { Answers (after_start inputs) result (λ _. netlist_of self.new) (self.new ≡ self.old) }
        ensures kept { places_of self.new ≡ places_of self.old }
        ensures words { KeptIn self.old self.new }
    {
        if inputs > MOST_INPUTS {
            return Err(Refusal::TooManyInputs);
        }
        self.store.clear();
        self.inputs = inputs;
        self.outputs.clear();
        Ok(())
    }

    fn place(&mut self, table: Table, fanins: Fanins) -> Result<Signal, Refusal>
        ensures answer { Answers (after_place C.ownership (places_of self.old) (netlist_of self.old) table fanins) result
            (λ s. record { signal = s; netlist = netlist_of self.new }) (self.new ≡ self.old) }
        ensures kept { places_of self.new ≡ places_of self.old }
        ensures words { KeptIn self.old self.new }
    {
        if !self.has_all(fanins) {
            return Err(Refusal::NoSuchNode);
        }
        let form = normal_form(table, fanins);
        if form.row.nodes.b == Node::FALSE {
            return Ok(form.row.nodes.a.signal(form.inverted));
        }
        if !owns_normal(C::ownership(), form.row.table) {
            return Err(Refusal::NotOwned);
        }
        let k = keep_row(&mut self.store, form.row)?;
        Ok(Node::new((self.inputs + 1 + k) as u16).signal(form.inverted))
    }

    fn output(&mut self, signal: Signal) -> Result<(), Refusal>
        ensures answer { Answers (after_output (netlist_of self.old) signal) result (λ _. netlist_of self.new) (self.new ≡ self.old) }
        ensures kept { places_of self.new ≡ places_of self.old }
        ensures words { KeptIn self.old self.new }
    {
        if !self.has_node(signal.node()) {
            return Err(Refusal::NoSuchNode);
        }
        self.outputs
            .try_push(signal)
            .map_err(|_| Refusal::TooManyOutputs)
    }

    fn input_count(&self) -> usize {
        self.inputs
    }

    fn row_count(&self) -> usize {
        self.store.len()
    }

    fn output_count(&self) -> usize {
        self.outputs.len()
    }

    fn place_count(&self) -> usize {
        self.store.places()
    }

    #[tactic(auto, using(crate::proofs::Calls::row_by_number))]
    fn row(&self, k: usize) -> Result<Row, Refusal> {
        self.store.row(k).ok_or(Refusal::NoSuchRow)
    }

    #[tactic(auto, using(crate::proofs::Calls::output_by_number))]
    fn output_signal(&self, k: usize) -> Result<Signal, Refusal> {
        self.outputs.get(k).ok_or(Refusal::NoSuchOutput)
    }

    fn owned() -> Ownership {
        C::ownership()
    }

    ghost lawful = { gates_lawful };
}
