//! Controls: answers that are wrong on purpose go through the same comparison, which has to count them.
use crate::compare::Count;
use classifier::classify;
use plans::plan_table;
use reference::classes::{Atlas, Class, Owned};
use reference::plans::{Plan, write_plan_of};
use seen::{asked, seen_class, seen_plan};
use std::alloc::{AllocError, Global};

// A majority.
const MAJORITY: u16 = 0xE8E8;

// The conjunction of three variables; its plan in the AND kind has two lines, and either variable of a line can come first.
const CONJUNCTION: u16 = 0x8080;

const AND_ONLY: Owned = Owned {
    xor: false,
    majority: false,
    every: false,
};

/// The class of a majority, spoiled.
pub fn class_control<F: FnOnce(&mut Class)>(atlas: &Atlas, spoil: F) -> Count
    requires { F.IsAlwaysCallable spoil }
{
    let mut count = Count::default();
    let mut seen = seen_class(classify(MAJORITY));
    spoil(&mut seen);
    count.compare(&Some(seen), &atlas.class(MAJORITY));
    count
}

/// A wrong answer of a test.
pub fn answer_control(atlas: &Atlas) -> Count {
    let mut count = Count::default();
    count.compare(&Some(false), &atlas.owns(AND_ONLY, 0x8888));
    count
}

/// The plan of a conjunction of three, spoiled: the comparison of plans, and that of values.
pub fn plan_control<F: FnOnce(&mut Plan)>(
    heap: Global,
    atlas: &Atlas,
    spoil: F,
) -> Result<(Count, Count), AllocError>
    requires { F.IsAlwaysCallable spoil }
{
    let mut plans = Count::default();
    let mut values = Count::default();
    let mut seen = seen_plan(heap, &plan_table(asked(AND_ONLY), CONJUNCTION))?;
    spoil(&mut seen);
    values.compare(&seen.table(heap)?, &Some(CONJUNCTION));
    plans.compare(
        &Some(seen),
        &write_plan_of(heap, atlas, AND_ONLY, CONJUNCTION)?,
    );
    Ok((plans, values))
}
