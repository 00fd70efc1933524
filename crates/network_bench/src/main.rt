// Measures how many place calls a second each kind of network takes at 50, 200 and 500 rows, for rows that are new and for rows
// that are there already. Its argument is the number of rounds. With none it measures and prints nothing, since the numbers
// differ from run to run and what a program writes is compared: give the built program an argument by hand.
#![tactic(auto)]

use kinds::{AndNetwork, AndXorNetwork, MajorityNetwork, TableNetwork};
use netlists::{Fanins, Node};
use networks::Network;
use std::alloc::{AllocError, Global};
use std::rt::{Clock, Env};
use std::time::{Duration, Instant};
use std::{env, fmt, io};
use tables::{PerVariable, Table};

const INPUTS: u16 = 32;

// How many rows are placed in one measurement; 500 and these fit into 544 places.
const BATCH: u16 = 32;

// The four ANDs of two variables that are false at index 0.
const TABLES: [Table; 4] = [0x8888, 0x2222, 0x4444, 0xEEEE];

// Row number `k` of a list of rows of which no two are alike, for `k` below 1,920.
fn sample_row(k: u16) -> (Table, Fanins) {
    let pair = k / 4 % 480;
    let a = pair % INPUTS;
    let b = (a + 1 + pair / INPUTS) % INPUTS;
    let fanins = PerVariable {
        a: Node::new(a + 1),
        b: Node::new(b + 1),
        ..PerVariable::splat(Node::FALSE)
    };
    let table = TABLES[(k % 4) as usize];
    (table, fanins.map(|node: Node| node.signal(false)))
}

// Places the rows from number `from` on; how many calls were accepted.
fn place_rows<N: Network>(net: &mut N, from: u16, count: u16) -> u64 {
    // A loop: with `filter` and `count` the AND and AND-XOR kinds measure a third fewer calls at 500 rows.
    let mut accepted: u64 = 0;
    for (table, fanins) in (from..).take(usize::from(count)).map(sample_row) {
        let placed = net.place(table, fanins);
        accepted = accepted.wrapping_add(u64::from(placed.is_ok()));
    }
    accepted
}

// Place calls, and the time that they took.
#[derive(Clone, Copy, Default)]
struct Speed {
    calls: u64,
    time: Duration,
}

impl Speed {
    // One batch more, of the rows from number `from` on.
    fn add_batch<N: Network>(&mut self, rt: &impl Clock, net: &mut N, from: u16) -> io::Result<()> {
        let start = Instant::now(rt)?;
        let calls = place_rows(net, from, BATCH);
        self.time = self.time.saturating_add(start.elapsed(rt)?);
        self.calls = self.calls.wrapping_add(calls);
        Ok(())
    }
}

impl fmt::Display for Speed {
    fn fmt<W: fmt::Write>(&self, f: &mut fmt::Formatter<W>) -> fmt::Result {
        let speed = std::num::nearest_u64_to_f64(self.calls) / self.time.as_secs_f64();
        write!(f, "{speed:.0} place calls a second")
    }
}

// The words of 544 places, each with as many as the widest row takes.
fn words(heap: Global) -> Result<Vec<u16>, AllocError> {
    vec![in heap; 0u16; 5 * 544]
}

// The speeds of one kind at each size: of new rows, and of the same rows once more.
fn time_kind<N: Network + Drop>(
    rt: &(impl Print + Clock),
    kind: &str,
    mut net: N,
    rounds: u16,
) -> io::Result<()> {
    for rows in [50u16, 200, 500] {
        let mut fresh = Speed::default();
        let mut alike = Speed::default();
        for _ in 0..rounds {
            let _ = net.start(INPUTS as usize);
            let _ = place_rows(&mut net, 0, rows);
            fresh.add_batch(rt, &mut net, rows)?;
            alike.add_batch(rt, &mut net, rows)?;
        }
        println!(rt; "{kind}, {rows} rows, new rows: {fresh}")?;
        println!(rt; "{kind}, {rows} rows, rows alike: {alike}")?;
    }
    Ok(())
}

// The number of rounds, if an argument gives it.
// It stands in table_bench too: a crate of six lines for two programs is no plainer, and no clause could say what the arguments are.
fn asked_rounds(rt: &(impl Env + Alloc)) -> io::Result<Option<u16>> {
    let word = env::args(rt)?.nth(1);
    Ok(word.and_then(|word| word.as_str().parse::<u16>().ok()))
}

fn main(rt: HostRuntime) -> io::Result<()> {
    let Some(rounds) = asked_rounds(&rt)? else {
        return Ok(());
    };
    let heap = rt.alloc();
    time_kind(&rt, "AND", AndNetwork::new(words(heap)?), rounds)?;
    time_kind(&rt, "AND-XOR", AndXorNetwork::new(words(heap)?), rounds)?;
    time_kind(&rt, "majority", MajorityNetwork::new(words(heap)?), rounds)?;
    time_kind(&rt, "table", TableNetwork::new(words(heap)?), rounds)
}
