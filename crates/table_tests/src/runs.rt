//! All tables through the library and the reference.
use crate::compare::Count;
use classes::owned::{NamedClass, is_owned};
use classifier::classify;
use plans::plan_table;
use reference::classes::{Atlas, Owned};
use reference::plans::write_plan_of;
use seen::{asked, seen_class, seen_plan};
use std::alloc::{AllocError, Global};

// The named classes, and their numbers.
const NAMED: [(NamedClass, u16); 3] = [
    (NamedClass::Conjunction, 15),
    (NamedClass::ExclusiveOr, 4080),
    (NamedClass::Majority, 831),
];

/// What came of the class of every table.
#[derive(Clone, Copy, Default)]
pub struct ClassRun {
    pub classes: Count,
    pub distinct: u32,
    pub named: Count,
}

/// What came of the plan of every table for one ownership.
#[derive(Clone, Copy, Default)]
pub struct PlanRun {
    pub plans: Count,
    pub values: Count,
    pub ownership: Count,
    pub lines: usize,
    pub longest: usize,
}

impl ClassRun {
    // The class of one table, and which of the three named classes it is.
    fn add(&mut self, atlas: &Atlas, f: u16) {
        let class = seen_class(classify(f));
        self.classes.compare(&Some(class), &atlas.class(f));
        let is_least = class.representative == f;
        self.distinct = self.distinct.saturating_add(u32::from(is_least));
        let number = atlas.number(f);
        for (class, due) in NAMED {
            self.named.compare(&class.has(f), &(number == due));
        }
    }
}

/// The classes of all tables.
pub fn run_classes(atlas: &Atlas) -> ClassRun {
    let mut run = ClassRun::default();
    for f in 0..=u16::MAX {
        run.add(atlas, f);
    }
    run
}

impl PlanRun {
    // The plan of one table, and whether the table is owned.
    fn add(&mut self, heap: Global, atlas: &Atlas, own: Owned, f: u16) -> Result<(), AllocError> {
        let owned = is_owned(asked(own), f);
        self.ownership.compare(&Some(owned), &atlas.owns(own, f));
        let seen = seen_plan(heap, &plan_table(asked(own), f))?;
        self.lines = self.lines.saturating_add(seen.lines.len());
        self.longest = self.longest.max(seen.lines.len());
        self.values.compare(&seen.table(heap)?, &Some(f));
        let due = write_plan_of(heap, atlas, own, f)?;
        self.plans.compare(&Some(seen), &due);
        Ok(())
    }
}

/// The plans of all tables for one ownership.
pub fn run_plans(heap: Global, atlas: &Atlas, own: Owned) -> Result<PlanRun, AllocError> {
    let mut run = PlanRun::default();
    for f in 0..=u16::MAX {
        run.add(heap, atlas, own, f)?;
    }
    Ok(run)
}
