// The account of a table: its class, the transform, and the plan of each kind of network.
use crate::kinds::{KINDS, Kind};
use crate::names::{Connection, Gate, Signal};
use classifier::classify;
use plans::plan_table;
use std::io;
use tables::{Table, Variable};

// The class, and how the table reads as its representative over x0 to x3.
fn print_class(rt: &impl Print, f: Table) -> io::Result<()> {
    let class = classify(f);
    let (representative, transform) = (class.representative, class.transform);
    let output = if transform.output() {
        "inverted"
    } else {
        "as it is"
    };
    println!(rt; "  class {representative} ({representative:#06X}), output {output}")?;
    for signal in Variable::ALL {
        let connection = Connection { transform, signal };
        println!(rt; "    {connection}")?;
    }
    Ok(())
}

// The plan that a kind takes: how many gates, each of them, and the result.
fn print_plan(rt: &impl Print, kind: Kind, f: Table) -> io::Result<()> {
    let plan = plan_table(kind.owned(), f);
    let count = plan.len();
    let gates = if count == 1 { "gate" } else { "gates" };
    println!(rt; "  {kind}: {count} {gates}")?;
    for (number, line) in plan.lines().iter().enumerate() {
        let gate = Gate {
            number,
            line: *line,
        };
        println!(rt; "    {gate}")?;
    }
    let result = Signal(plan.result());
    println!(rt; "    f = {result}")
}

/// Prints the account of a table.
pub fn print_account(rt: &impl Print, f: Table) -> io::Result<()> {
    println!(rt; "table {f:#06X}")?;
    print_class(rt, f)?;
    for kind in KINDS {
        print_plan(rt, kind, f)?;
    }
    Ok(())
}
