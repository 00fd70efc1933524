//! A network of gates: rows in a store, inputs and outputs.
pub mod calls;
pub mod network;
pub mod questions;

ghost use Rattle.gates.specs.Parts.{LawfulIn};

use codings::Coding;
use lists::FixedList;
use netlists::Signal;
use stores::Store;

/// The most inputs that a network can have.
pub const MOST_INPUTS: usize = 32;

/// The most outputs that a network can have.
pub const MOST_OUTPUTS: usize = 32;

/// A network of gates whose rows stand in the caller's words. Its netlist is lawful for the classes of the coding.
#[derive(Drop)]
pub struct Gates<C: Coding<W>, const W: usize> {
    store: Store<C, W>,
    inputs: usize,
    outputs: FixedList<Signal, MOST_OUTPUTS>,
    ghost lawful: { ∥ LawfulIn store inputs outputs ∥₁ },
}
