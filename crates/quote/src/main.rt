// Reads tables on standard input, one to a line, and prints an account of each: its class, the transform that reaches
// the representative, and the plan that each kind of network takes.
#![tactic(auto)]

mod account;
mod kinds;
mod names;
mod parse;

use account::print_account;
use parse::parse_table;
use std::io;
use std::io::{BufRead, BufReader};

// The account of one line, or what is wrong with it. A line of blanks alone has none.
fn answer(rt: &HostRuntime, number: u64, line: &[u8]) -> io::Result<()> {
    let text = line.trim_ascii();
    if text.is_empty() {
        return Ok(());
    }
    match parse_table(text) {
        Ok(f) => print_account(rt, f),
        Err(fault) => println!(rt; "line {number}: {fault}"),
    }
}

fn main(rt: HostRuntime) -> io::Result<()> {
    let lines = BufReader::new(rt.alloc(), rt.stdin())?.split(rt.alloc(), b'\n');
    for (number, line) in (1u64..).zip(lines) {
        answer(&rt, number, line?.as_slice())?;
    }
    Ok(())
}
