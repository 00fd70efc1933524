//! The coding of tables over two nodes or three.
ghost use Rattle.classes.specs.Owned.{majority_ownership};
ghost use Rattle.codings.specs.Codes.{majority_coder};
ghost use Rattle.codings.specs.Laws.{majority_lawful, majority_coded};

use crate::coding::Coding;
use crate::near;
use classes::Ownership;
use netlists::Row;
use tables::Table;

/// AND tables over two nodes and majority tables over three, in three words.
#[derive(Clone, Copy, PartialEq, Eq, Debug)]
pub struct Majority;

// The ANDs, and then the majorities.
const MAJORITY_TABLES: [Table; 8] = [
    0x8888, 0x2222, 0x4444, 0xEEEE, 0xE8E8, 0xD4D4, 0xB2B2, 0x8E8E,
];

impl Coding<3> for Majority {
    ghost coder = { majority_coder };

    ghost ownership = { majority_ownership };

    fn encode(row: Row) -> [u16; 3] {
        near::encode::<3>(&MAJORITY_TABLES, row)
    }

    fn decode(words: &[u16; 3]) -> Row {
        near::decode::<3>(&MAJORITY_TABLES, words)
    }

    fn ownership() -> Ownership {
        Ownership::MAJORITY
    }

    ghost lawful = { majority_lawful };

    ghost owned_coded = { majority_coded };
}
