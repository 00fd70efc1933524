//! Rows of nodes below 1024 and of few tables: a word for each node, and in the first of them the table's number too.
//! Each coding of this kind names its tables; the rest is here.
ghost use Rattle.std.specs.Prelude.{◌≡◌, ◌<◌, ◌≤◌, ◌==◌, length, position};
ghost use Rattle.codings.specs.Codes.{number_in, table_in, node_in, near_encode, near_decode};

use netlists::{Node, Row};
use tables::{PerVariable, Table};

// Where a table stands in a list.
fn index_of(tables: &[Table], table: Table) -> Option<usize>
    ensures { result ≡ position (λ x. x == table) tables.now }
{
    tables.iter().position(|&t| t == table)
}

// The number of a table in a list, or 4 where it is not in it.
fn number_in(tables: &[Table], table: Table) -> u16
    requires { length tables.now ≤ 64 }
    ensures number { result ≡ number_in tables.now table }
    ensures bound { result < 64 }
{
    index_of(tables, table).unwrap_or(4) as u16
}

// The table of a number, or the exclusive-or where the list has none.
fn table_in(tables: &[Table], number: u16) -> Table
    ensures { result ≡ table_in tables.now number }
{
    tables.get(number as usize).copied().unwrap_or(0x6666)
}

// The node in the low ten bits of word `k`, or node 0 where there is none.
fn node_in(words: &[u16], k: usize) -> Node
    ensures { result ≡ node_in words.now k }
{
    Node::new(words.get(k).copied().unwrap_or(0) % 1024)
}

/// A row in as many words as it has nodes.
pub fn encode<const W: usize>(tables: &[Table], row: Row) -> [u16; W]
    requires tables { length tables.now ≤ 64 }
    requires width { W ≤ 4 }
    ensures { result ≡ near_encode W tables.now row }
{
    let nodes = row.nodes.map(|n: Node| n.number() % 1024);
    let first = nodes.a + 1024 * number_in(tables, row.table);
    let mut words = [0; W];
    words.copy_from_slice(&[first, nodes.b, nodes.c, nodes.d][..W]);
    words
}

pub fn decode<const W: usize>(tables: &[Table], words: &[u16; W]) -> Row
    requires { 0 < W }
    ensures { result ≡ near_decode tables.now words.now }
{
    Row {
        table: table_in(tables, words[0] / 1024),
        nodes: PerVariable {
            a: node_in(words, 0),
            b: node_in(words, 1),
            c: node_in(words, 2),
            d: node_in(words, 3),
        },
    }
}
