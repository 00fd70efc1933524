// The four kinds of network and the classes that they own.
ghost use Rattle.std.specs.Prelude.{◌≡◌};
ghost use Rattle.quote.specs.Kinds.{owns_of};

use classes::Ownership;
use std::fmt;

/// A kind of network.
#[derive(Clone, Copy)]
pub enum Kind {
    And,
    AndXor,
    Majority,
    Table,
}

/// Every kind, in the order of the account.
pub const KINDS: [Kind; 4] = [Kind::And, Kind::AndXor, Kind::Majority, Kind::Table];

impl Kind {
    /// What it owns besides class 15: exclusive-or, majority, or every class.
    pub fn owned(self) -> Ownership
        ensures { result ≡ owns_of self }
    {
        match self {
            Kind::And => Ownership::AND,
            Kind::AndXor => Ownership::AND_XOR,
            Kind::Majority => Ownership::MAJORITY,
            // Not `Ownership::TABLE`, which also says yes to the first two: the account says what is owned and no more.
            Kind::Table => Ownership {
                every: true,
                ..Ownership::AND
            },
        }
    }
}

impl fmt::Display for Kind {
    fn fmt<W: fmt::Write>(&self, f: &mut fmt::Formatter<W>) -> fmt::Result {
        f.write_str(match *self {
            Kind::And => "AND",
            Kind::AndXor => "AND-XOR",
            Kind::Majority => "majority",
            Kind::Table => "table",
        })
    }
}
