//! Opening and closing a network. Nothing allocates.
ghost use Rattle.std.specs.Prelude.{◌≡◌, vec_len};
ghost use Rattle.netlists.specs.Placing.{empty};
ghost use Rattle.stores.specs.Blocks.{places_in};
ghost use Rattle.gates.specs.Gates.{netlist_of, places_of};

use crate::gates::Gates;
use codings::Coding;
use lists::FixedList;
use netlists::Signal;
use stores::Store;

impl<C: Coding<W>, const W: usize> Gates<C, W> {
    /// A network with no inputs, rows and outputs over these words, which stay as they are. It has as many places of `W` words
    /// as fit, up to 544.
    pub fn new(words: Vec<u16>) -> Self
        ensures netlist { netlist_of result ≡ empty 0 }
        ensures places { places_of result ≡ places_in W (vec_len words) }
        ensures words { result.store.words ≡ words }
    {
        Gates {
            store: Store::new(words),
            inputs: 0,
            outputs: FixedList::new(Signal::FALSE),
        }
    }

    /// Gives the words back, as they stand.
    pub fn into_words(self) -> Vec<u16>
        ensures { result ≡ self.store.words }
    {
        self.store.into_words()
    }
}
