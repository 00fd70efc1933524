// The sweep: the rows that some output reaches, copied in order.
ghost use Rattle.std.specs.Prelude.{◌≡◌, ℕ, ◌<◌, length, Ok, MatchResult};
ghost use Rattle.netlists.specs.Copies.{output_nodes, reached, kept_before, swept, reached_rows, ReachedExactly, Swept};
ghost use Rattle.networks.specs.NodeSets.{within, Holds};

use crate::Network;
use crate::copies::copy_kept;
use crate::node_set::NodeSet;
use netlists::Refusal;

// The nodes that the outputs name. Asked for by position: a `for` over `(0..n).map_while(..)` or `filter_map(..)` was tried,
// and the checker refused the types that Rattle wrote for it.
fn named_nodes<N: Network>(net: &N) -> NodeSet
    ensures { Holds result (output_nodes (N.netlist net.now).outputs) }
{
    let mut nodes = NodeSet::none();
    for k in 0..net.output_count() {
        if let Ok(signal) = net.output_signal(k) {
            nodes.insert(signal.node());
        }
    }
    nodes
}

// The nodes that some output reaches: those that the outputs name and, from the last row to the first, what the rows at
// such nodes read. The rows are asked for by position, since their nodes are numbered so.
#[tactic(auto, using(crate::proofs::Reaching::rows_none))]
fn reached_nodes<N: Network>(net: &N) -> NodeSet
    ensures { (n : ℕ) → within result n ≡ reached (N.netlist net.now) n }
{
    let mut nodes = named_nodes(net);
    let first = net.input_count() + 1;
    for k in (0..net.row_count()).rev() {
        if let Ok(row) = net.row(k) {
            nodes.claim(first + k, row);
        }
    }
    nodes
}

// How many rows stand at nodes of a set.
#[tactic(auto, using(crate::proofs::Keeping::before_counts))]
fn count_kept<N: Network>(net: &N, keep: &NodeSet) -> usize
    ensures { result ≡ kept_before (within keep.now) (N.netlist net.now).inputs (length (N.netlist net.now).rows) }
{
    let first = net.input_count() + 1;
    keep.count(first..first + net.row_count())
}

/// How many rows some output reaches: an output reaches the node that it names, and what a row at a reached node reads.
pub fn count_reached<N: Network>(net: &N) -> usize
    ensures count { result ≡ reached_rows (N.netlist net.now) }
    ensures exact { ReachedExactly (N.netlist net.now) }
{
    count_kept(net, &reached_nodes(net))
}

/// The sweep: the rows that some output reaches, in order, into another network of the kind, and then the outputs. Every
/// output keeps its value for every setting of the inputs, and there are as many rows as were reached. Refused, with
/// nothing changed, where those are more than the places.
pub fn sweep<N: Network>(from: &N, to: &mut N) -> Result<(), Refusal>
    ensures copy { MatchResult result
        (λ _. (swept N.ownership (N.places to.old) (N.netlist from.now) ≡ Ok (N.netlist to.new)) × Swept (N.netlist from.now) (N.netlist to.new))
        (λ e. (e ≡ Refusal.NoPlace) × (N.places to.old < reached_rows (N.netlist from.now)) × (to.new ≡ to.old)) }
    ensures same { N.places to.new ≡ N.places to.old }
{
    let reached = reached_nodes(from);
    if to.place_count() < count_kept(from, &reached) {
        return Err(Refusal::NoPlace);
    }
    copy_kept(from, to, |n| reached.contains(n))
}
