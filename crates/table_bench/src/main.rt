// Measures how many tables a second the class search and the plan writer take, beside the plain definition of a class. Its argument
// is the number of rounds. With none it measures and prints nothing, since the numbers differ from run to run and what a
// program writes is compared: give the built program an argument by hand.
#![tactic(auto)]

use classes::Ownership;
use classifier::classify;
use plans::plan_table;
use reference::classes::Class;
use std::rt::{Clock, Env};
use std::time::Instant;
use std::{env, io};
use tables::Table;

// The kinds of network, by name.
const KINDS: [(&str, Ownership); 4] = [
    ("plans, AND", Ownership::AND),
    ("plans, AND-XOR", Ownership::AND_XOR),
    ("plans, majority", Ownership::MAJORITY),
    ("plans, table", Ownership::TABLE),
];

// How often each table is measured, and what is asked for the time.
#[derive(Drop)]
struct Bench<'a, R> {
    rt: &'a R,
    rounds: u16,
}

impl<R: Print + Clock> Bench<'_, R> {
    // Prints how many tables a second a calculation takes, and the sum of its answers, so that they are not calculated for nothing.
    // The tables go by a number, the last of which is given.
    fn measure<F: Fn(u16) -> u64>(&self, name: &str, last: u16, calculate: F) -> io::Result<()>
        requires { F.IsAlwaysCallable calculate }
    {
        let start = Instant::now(self.rt)?;
        let mut sum: u64 = 0;
        for _ in 0..self.rounds {
            for n in 0..=last {
                sum = sum.wrapping_add(calculate(n));
            }
        }
        let seconds = start.elapsed(self.rt)?.as_secs_f64();
        let count = (u64::from(last) + 1).wrapping_mul(u64::from(self.rounds));
        let speed = std::num::nearest_u64_to_f64(count) / seconds;
        println!(self.rt; "{name}: {speed:.0} tables a second ({count} tables, sum {sum})")
    }
}

// Every 16th table, and among those each lowest digit as often: number `n` of the 4,096.
fn sample(n: u16) -> Table {
    n.wrapping_mul(16) | n % 16
}

// The number of rounds that is asked for.
// It stands in network_bench too: a crate of six lines for two programs is no plainer, and no clause could say what the arguments are.
fn asked_rounds(rt: &(impl Env + Alloc)) -> io::Result<Option<u16>> {
    let word = env::args(rt)?.nth(1);
    Ok(word.and_then(|word| word.as_str().parse::<u16>().ok()))
}

fn main(rt: HostRuntime) -> io::Result<()> {
    let Some(rounds) = asked_rounds(&rt)? else {
        return Ok(());
    };
    let bench = Bench { rt: &rt, rounds };
    bench.measure("plain definition", 4_095, |n| {
        u64::from(Class::of(sample(n)).representative)
    })?;
    bench.measure("classes", Table::MAX, |f| {
        u64::from(classify(f).representative)
    })?;
    for (name, own) in KINDS {
        bench.measure(name, Table::MAX, |f| plan_table(own, f).len() as u64)?;
    }
    Ok(())
}
