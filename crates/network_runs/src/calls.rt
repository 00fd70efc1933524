//! Calls made by a small generator: repeated, inverted, constant and missing signals among them.
ghost use Rattle.std.specs.Prelude.{◌<◌};

use netlists::{Fanins, Node, Signal};
use std::array;
use tables::Table;

/// A call of a network.
#[derive(Clone, Copy)]
pub enum Call {
    Start(usize),
    Output(Signal),
    Place(Table, Fanins),
}

/// Numbers that look drawn at random, the same in each run.
#[derive(Drop)]
pub struct Generator {
    state: u32,
}

impl Generator {
    pub fn new() -> Generator {
        Generator { state: 2026 }
    }

    // A number below `limit`, or 0 where that is 0.
    fn below(&mut self, limit: u32) -> u32
        ensures { 0 < limit → result < limit }
    {
        self.state = self.state.wrapping_mul(1664525).wrapping_add(1013904223);
        (self.state / 4096).checked_rem(limit).unwrap_or(0)
    }

    // A signal of the constant, of one of the first few nodes, or of any node that a network can have, there or not.
    fn signal(&mut self) -> Signal {
        let number = match self.below(16) {
            0 => self.below(1),
            1 => self.below(600),
            2..=6 => self.below(20),
            _ => self.below(7),
        };
        let inverted = self.below(2) == 1;
        Node::new(number as u16).signal(inverted)
    }

    fn table(&mut self) -> Table {
        match self.below(8) {
            0..=1 => 0x8888,
            2 => 0xEEEE,
            3 => 0x6666,
            4 => 0xE8E8,
            5 => 0xCACA,
            6 => 0x8080,
            _ => self.below(65536) as u16,
        }
    }

    /// The next call. It does not depend on a network, so that every kind gets the same calls.
    pub fn call(&mut self) -> Call {
        match self.below(256) {
            0 => Call::Start(4 + self.below(32) as usize),
            1..=20 => Call::Output(self.signal()),
            _ => {
                let [a, b, c, d]: [Signal; 4] = array::from_fn(|_| self.signal());
                Call::Place(self.table(), Fanins { a, b, c, d })
            }
        }
    }
}
