// Netlists placed row by row into another network.
ghost use Rattle.std.specs.Prelude.{◌≡◌, ℕ, ◌<◌, Bool, length, MatchResult};
ghost use Rattle.netlists.specs.Copies.{copy_kept};
ghost use Rattle.networks.specs.Copying.{Due, Tells};

use crate::Network;
use crate::signal_map::{SignalMap, plain};
use netlists::Refusal;

// The rows whose nodes are kept, in order, and then the outputs, into a network that is emptied first. The interface asks for
// rows and outputs by position: an iterator for each was tried, and counts the same positions in two structs more.
#[tactic(auto, using(crate::proofs::Copying::outputs_more, crate::proofs::Copying::output_next))]
pub(crate) fn copy_kept<N: Network, F: Fn(usize) -> bool>(
    from: &N,
    to: &mut N,
    keep: F,
) -> Result<(), Refusal>
    requires { F.IsAlwaysCallable keep }
    ensures copy { (kept : ℕ → Bool) → Tells (F.post keep) kept
        → Due (copy_kept N.ownership (N.places to.old) kept (N.netlist from.now)) result (N.netlist to.new) }
    ensures same { N.places to.new ≡ N.places to.old }
{
    let inputs = from.input_count();
    to.start(inputs)?;
    let mut signals = SignalMap::fresh(inputs);
    for k in 0..from.row_count() {
        let row = from.row(k)?;
        let placed = if keep(signals.len()) {
            to.place(row.table, signals.fanins(row))?
        } else {
            plain(0)
        };
        signals.push(placed);
    }
    for j in 0..from.output_count() {
        let signal = from.output_signal(j)?;
        to.output(signals.through(signal))?;
    }
    Ok(())
}

/// Copies a network into another of its kind, row by row: it comes out as itself. Refused, with nothing changed, where the
/// rows are more than the places.
pub fn copy_netlist<N: Network>(from: &N, to: &mut N) -> Result<(), Refusal>
    ensures copy { MatchResult result (λ _. N.netlist to.new ≡ N.netlist from.now)
        (λ e. (e ≡ Refusal.NoPlace) × (N.places to.old < length (N.netlist from.now).rows) × (to.new ≡ to.old)) }
    ensures same { N.places to.new ≡ N.places to.old }
{
    if to.place_count() < from.row_count() {
        return Err(Refusal::NoPlace);
    }
    copy_kept(from, to, |_| true)
}
