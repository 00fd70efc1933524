// The four kinds of network: networks of gates, by the coding of their rows.
#![tactic(auto)]

ghost use Rattle.std.specs.Prelude.{◌≡◌, [], ◌∷◌};
ghost use Rattle.classes.specs.Owned.{and_ownership, and_xor_ownership, majority_ownership, table_ownership};

use classes::Ownership;
use codings::{And, AndXor, Every, Majority};
use gates::Gates;
use networks::Network;

/// A network whose rows are ANDs of two nodes, inverted or not, in two words each.
pub type AndNetwork = Gates<And, 2>;

/// A network whose rows are ANDs and exclusive-ors of two nodes, in two words each.
pub type AndXorNetwork = Gates<AndXor, 2>;

/// A network whose rows are ANDs of two nodes and majorities of three, in three words each.
pub type MajorityNetwork = Gates<Majority, 3>;

/// A network whose rows have any table of two to four nodes, in five words each.
pub type TableNetwork = Gates<Every, 5>;

/// What each kind owns, in the order of this file.
pub fn owned_by_kinds() -> [Ownership; 4]
    ensures { result ≡ and_ownership ∷ and_xor_ownership ∷ majority_ownership ∷ table_ownership ∷ [] }
{
    [
        AndNetwork::owned(),
        AndXorNetwork::owned(),
        MajorityNetwork::owned(),
        TableNetwork::owned(),
    ]
}

/// How many of the caller's words a place takes in each kind, in the order of this file.
pub fn words_by_kinds() -> [usize; 4]
    ensures { result ≡ 2 ∷ 2 ∷ 3 ∷ 5 ∷ [] }
{
    [
        AndNetwork::words_a_place(),
        AndXorNetwork::words_a_place(),
        MajorityNetwork::words_a_place(),
        TableNetwork::words_a_place(),
    ]
}
