// The classes that kinds of network own, and the tables in them.
#![tactic(auto)]

pub mod owned;

/// The classes that a kind of network owns besides class 15, which every kind owns.
#[derive(Clone, Copy, PartialEq, Eq, Debug)]
pub struct Ownership {
    pub xor: bool,
    pub majority: bool,
    pub every: bool,
}

impl Ownership {
    /// Class 15 alone.
    pub const AND: Ownership = Ownership {
        xor: false,
        majority: false,
        every: false,
    };

    /// Class 15 and the exclusive-or of two variables.
    pub const AND_XOR: Ownership = Ownership {
        xor: true,
        majority: false,
        every: false,
    };

    /// Class 15 and the majority of three variables.
    pub const MAJORITY: Ownership = Ownership {
        xor: false,
        majority: true,
        every: false,
    };

    /// Every class.
    pub const TABLE: Ownership = Ownership {
        xor: true,
        majority: true,
        every: true,
    };
}
