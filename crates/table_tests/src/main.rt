// Runs every table through the classes and, for each of the eight ownerships, through the plan writer, and compares all that
// they answer with the reference. Answers that are spoiled on purpose go through the same comparison.
#![tactic(auto)]

mod compare;
mod controls;
mod runs;

use compare::Count;
use controls::{answer_control, class_control, plan_control};
use reference::classes::{Atlas, Class, Owned};
use reference::plans::Plan;
use runs::{PlanRun, run_classes, run_plans};
use std::{io, mem};

fn show(rt: &impl Print, name: &str, count: Count) -> io::Result<()> {
    let (compared, different) = (count.compared, count.different);
    println!(rt; "{name}: compared {compared}, mismatches {different}")
}

fn show_plans(rt: &impl Print, own: Owned, run: PlanRun) -> io::Result<()> {
    let (xor, majority, every) = (own.xor, own.majority, own.every);
    let (lines, longest) = (run.lines, run.longest);
    println!(rt;
        "owned: exclusive-or {xor}, majority {majority}, every class {every}; lines {lines}, longest plan {longest}"
    )?;
    show(rt, "  plans by lines and result", run.plans)?;
    show(rt, "  values of plans", run.values)?;
    show(rt, "  tables owned or not", run.ownership)
}

fn show_all_plans(rt: &HostRuntime, atlas: &Atlas) -> io::Result<()> {
    for own in Owned::all() {
        show_plans(rt, own, run_plans(rt.alloc(), atlas, own)?)?;
    }
    Ok(())
}

// A class that is spoiled.
fn show_class<F: FnOnce(&mut Class)>(
    rt: &impl Print,
    name: &str,
    atlas: &Atlas,
    spoil: F,
) -> io::Result<()>
    requires { F.IsAlwaysCallable spoil }
{
    show(rt, name, class_control(atlas, spoil))
}

// A plan that is spoiled.
fn show_plan<F: FnOnce(&mut Plan)>(
    rt: &HostRuntime,
    name: &str,
    atlas: &Atlas,
    spoil: F,
) -> io::Result<()>
    requires { F.IsAlwaysCallable spoil }
{
    let (plans, values) = plan_control(rt.alloc(), atlas, spoil)?;
    show(rt, name, plans)?;
    show(rt, "  as a value", values)
}

fn show_class_controls(rt: &impl Print, atlas: &Atlas) -> io::Result<()> {
    show_class(rt, "control: wrong representative", atlas, |class| {
        class.representative ^= 1
    })?;
    show_class(rt, "control: wrong output", atlas, |class| {
        class.transform.output ^= true
    })?;
    show_class(rt, "control: wrong order", atlas, |class| {
        class.transform.order.swap(0, 1)
    })?;
    show_class(rt, "control: wrong mask", atlas, |class| {
        class.transform.mask ^= 8
    })
}

// `another variable first` takes the variables in another order, which leaves the value.
fn show_plan_controls(rt: &HostRuntime, atlas: &Atlas) -> io::Result<()> {
    show_plan(rt, "control: literal inverted", atlas, |plan| {
        if let [first, ..] = plan.lines.as_mut_slice() {
            first.literals[0] = first.literals[0].not();
        }
    })?;
    show_plan(rt, "control: another variable first", atlas, |plan| {
        if let [first, second] = plan.lines.as_mut_slice() {
            mem::swap(&mut first.literals[0], &mut second.literals[0]);
        }
    })?;
    show_plan(rt, "control: line missing", atlas, |plan| {
        let _ = plan.lines.pop();
    })?;
    show_plan(rt, "control: result inverted", atlas, |plan| {
        plan.result = plan.result.not();
    })
}

fn main(rt: HostRuntime) -> io::Result<()> {
    let atlas = Atlas::new(rt.alloc())?;
    let run = run_classes(&atlas);
    let distinct = run.distinct;
    show(&rt, "classes and transforms", run.classes)?;
    show(&rt, "three named classes", run.named)?;
    println!(rt; "distinct classes {distinct}")?;
    show_all_plans(&rt, &atlas)?;
    show_class_controls(&rt, &atlas)?;
    show(&rt, "control: wrong ownership", answer_control(&atlas))?;
    show_plan_controls(&rt, &atlas)
}
