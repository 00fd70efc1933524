// Drives the four kinds of network through the same calls, and compares each answer and every row with a plain model.
#![tactic(auto)]

mod calls;
mod model;
mod runs;

use codings::Coding;
use gates::Gates;
use kinds::{AndNetwork, AndXorNetwork, MajorityNetwork, TableNetwork};
use runs::{marked, run_kind};
use std::io;

// A kind whose place takes `width` words, over `words` of them. The width is written here once more, so that it is compared.
fn show<C: Coding<W>, const W: usize>(
    rt: &HostRuntime,
    kind: &str,
    width: usize,
    words: usize,
    net: Gates<C, W>,
) -> io::Result<()> {
    let tally = run_kind(rt.alloc(), words, width, net)?;
    println!(rt; "{kind}: {tally}")
}

// All four kinds, over as many words each.
fn show_all(rt: &HostRuntime, words: usize) -> io::Result<()> {
    let heap = rt.alloc();
    println!(rt; "over {words} words")?;
    let net = AndNetwork::new(marked(heap, words)?);
    show(rt, "AND", 2, words, net)?;
    let net = AndXorNetwork::new(marked(heap, words)?);
    show(rt, "AND-XOR", 2, words, net)?;
    let net = MajorityNetwork::new(marked(heap, words)?);
    show(rt, "majority", 3, words, net)?;
    let net = TableNetwork::new(marked(heap, words)?);
    show(rt, "table", 5, words, net)
}

fn main(rt: HostRuntime) -> io::Result<()> {
    show_all(&rt, 61)?;
    show_all(&rt, 2720)
}
