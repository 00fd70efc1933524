//! Sets of nodes.
ghost use Rattle.std.specs.Prelude.{◌≡◌, ℕ, ◌-◌, ◌<◌, false, ◌||◌, ◌==◌, List, count_by};
ghost use Rattle.std.specs.List.{range_with_len};
ghost use Rattle.tables.specs.declared.Variable.{Variable};
ghost use Rattle.netlists.specs.Normal.{node_at};
ghost use Rattle.netlists.specs.Copies.{has, nodes_of, claim};
ghost use Rattle.networks.specs.NodeSets.{within, Holds};

use crate::NODE_LIMIT;
use netlists::{Node, Row};
use std::ops::Range;

// A set of nodes: whether each of those that a network may have is in it, by its number.
#[derive(Drop)]
pub(crate) struct NodeSet {
    marks: [bool; NODE_LIMIT],
}

impl NodeSet {
    // No node.
    pub(crate) fn none() -> NodeSet
        ensures { (n : ℕ) → within result n ≡ false }
    {
        NodeSet {
            marks: [false; NODE_LIMIT],
        }
    }

    // Whether the node of a number is in the set.
    pub(crate) fn contains(&self, number: usize) -> bool
        ensures { result ≡ within self.now number }
    {
        self.marks.get(number).copied().unwrap_or(false)
    }

    // How many nodes of a range of numbers are in the set.
    pub(crate) fn count(&self, numbers: Range<usize>) -> usize
        ensures { result ≡ count_by (within self.now) (range_with_len numbers.start (numbers.end - numbers.start)) }
    {
        numbers.filter(|n| self.contains(*n)).count()
    }

    // A node joins the set.
    pub(crate) fn insert(&mut self, node: Node)
        requires { node.number < NODE_LIMIT }
        ensures { (n : ℕ) → within self.new n ≡ (n == node.number || within self.old n) }
    {
        self.marks[node.number() as usize] = true;
    }

    // The nodes of a row join the set: one line for each, since `PerVariable::map` takes no closure that alters anything, and a
    // loop over the variables would be no shorter and would need an invariant.
    fn insert_row(&mut self, row: Row)
        requires { (v : Variable) → (node_at row v).number < NODE_LIMIT }
        ensures { (n : ℕ) → within self.new n ≡ (has n (nodes_of row) || within self.old n) }
    {
        self.insert(row.nodes.a);
        self.insert(row.nodes.b);
        self.insert(row.nodes.c);
        self.insert(row.nodes.d);
    }

    // The nodes of a row join the set where the row's own node is in it.
    #[tactic(auto, using(crate::proofs::Sets::claim_hit, crate::proofs::Sets::claim_miss))]
    pub(crate) fn claim(&mut self, number: usize, row: Row)
        requires { (v : Variable) → (node_at row v).number < NODE_LIMIT }
        ensures { (ws : List ℕ) → Holds self.old ws → Holds self.new (claim number row ws) }
    {
        if self.contains(number) {
            self.insert_row(row);
        }
    }
}
