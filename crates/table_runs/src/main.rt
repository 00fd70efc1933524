// Runs every table through the class search and, for each ownership, through the plan writer. What they answer is compared with
// slow calculations, one bit at a time, and totals are printed.
#![tactic(auto)]

mod class_check;
mod plan_check;

use class_check::{ClassTotals, run_classes};
use classes::Ownership;
use plan_check::{PlanTotals, run_plans};
use reference::classes::Owned;
use seen::asked;
use std::io;

fn print_classes(rt: &impl Print, totals: ClassTotals) -> io::Result<()> {
    let (tables, classes) = (totals.tables, totals.classes);
    let (searched, wrong) = (totals.searched, totals.wrong);
    println!(rt; "tables {tables}, distinct classes {classes}")?;
    println!(rt; "searched through all 768 images {searched}, mismatches {wrong}")
}

fn print_plans(rt: &impl Print, own: Ownership, totals: PlanTotals) -> io::Result<()> {
    let (xor, majority, every) = (own.xor, own.majority, own.every);
    let (plans, lines) = (totals.plans, totals.lines);
    let (longest, wrong) = (totals.longest, totals.wrong);
    println!(rt; "owned: exclusive-or {xor}, majority {majority}, every class {every}")?;
    println!(rt; "  plans {plans}, lines {lines}, longest {longest}, mismatches {wrong}")
}

fn main(rt: HostRuntime) -> io::Result<()> {
    print_classes(&rt, run_classes())?;
    for owned in Owned::all() {
        let own = asked(owned);
        print_plans(&rt, own, run_plans(own))?;
    }
    Ok(())
}
