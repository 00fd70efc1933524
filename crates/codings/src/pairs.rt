//! The codings of tables over two nodes.
ghost use Rattle.classes.specs.Owned.{and_ownership, and_xor_ownership};
ghost use Rattle.codings.specs.Codes.{and_coder, and_xor_coder};
ghost use Rattle.codings.specs.Laws.{and_lawful, and_coded, and_xor_lawful, and_xor_coded};

use crate::coding::Coding;
use crate::near;
use classes::Ownership;
use netlists::Row;
use tables::Table;

/// AND tables over two nodes, in two words.
#[derive(Clone, Copy, PartialEq, Eq, Debug)]
pub struct And;

/// AND and exclusive-or tables over two nodes, in two words.
#[derive(Clone, Copy, PartialEq, Eq, Debug)]
pub struct AndXor;

// The ANDs.
const AND_TABLES: [Table; 4] = [0x8888, 0x2222, 0x4444, 0xEEEE];

// The ANDs, and then the exclusive-or.
const AND_XOR_TABLES: [Table; 5] = [0x8888, 0x2222, 0x4444, 0xEEEE, 0x6666];

// Tried: one impl over a trait of tables and ownership. It proves, but `Every` fits it too, so `network_bench` gets no proof.
impl Coding<2> for And {
    ghost coder = { and_coder };

    ghost ownership = { and_ownership };

    fn encode(row: Row) -> [u16; 2] {
        near::encode::<2>(&AND_TABLES, row)
    }

    fn decode(words: &[u16; 2]) -> Row {
        near::decode::<2>(&AND_TABLES, words)
    }

    fn ownership() -> Ownership {
        Ownership::AND
    }

    ghost lawful = { and_lawful };

    ghost owned_coded = { and_coded };
}

impl Coding<2> for AndXor {
    ghost coder = { and_xor_coder };

    ghost ownership = { and_xor_ownership };

    fn encode(row: Row) -> [u16; 2] {
        near::encode::<2>(&AND_XOR_TABLES, row)
    }

    fn decode(words: &[u16; 2]) -> Row {
        near::decode::<2>(&AND_XOR_TABLES, words)
    }

    fn ownership() -> Ownership {
        Ownership::AND_XOR
    }

    ghost lawful = { and_xor_lawful };

    ghost owned_coded = { and_xor_coded };
}
