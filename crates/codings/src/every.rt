//! The coding of every table.
ghost use Rattle.classes.specs.Owned.{table_ownership};
ghost use Rattle.codings.specs.Codes.{every_coder};
ghost use Rattle.codings.specs.Laws.{every_lawful, every_coded};

use crate::coding::Coding;
use classes::Ownership;
use netlists::{Node, Row};
use tables::PerVariable;

/// Every table over four nodes, in five words: the table and the nodes.
#[derive(Clone, Copy, PartialEq, Eq, Debug)]
pub struct Every;

impl Coding<5> for Every {
    ghost coder = { every_coder };

    ghost ownership = { table_ownership };

    fn encode(row: Row) -> [u16; 5] {
        let nodes = row.nodes;
        [
            row.table,
            nodes.a.number(),
            nodes.b.number(),
            nodes.c.number(),
            nodes.d.number(),
        ]
    }

    fn decode(words: &[u16; 5]) -> Row {
        let [table, a, b, c, d] = *words;
        Row {
            table,
            nodes: PerVariable { a, b, c, d }.map(Node::new),
        }
    }

    fn ownership() -> Ownership {
        Ownership::TABLE
    }

    ghost lawful = { every_lawful };

    ghost owned_coded = { every_coded };
}
