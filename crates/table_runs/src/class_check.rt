// Classes: every table, and for some of them the least of all 768 images.
use classifier::{Class, classify};
use reference::classes as plain;
use seen::seen_class;
use tables::Table;

// The class is searched among all images for every so many tables.
const SAMPLE: Table = 61;

/// What came of all tables.
#[derive(Clone, Copy, Default)]
pub struct ClassTotals {
    pub tables: u32,
    pub classes: u32,
    pub searched: u32,
    pub wrong: u32,
}

// Whether a class's representative is reached, is not above the table, and is its own.
fn is_reached(f: Table, class: Class) -> bool {
    let r = class.representative;
    r <= f && classify(r).representative == r && class.transform.image_of(f) == r
}

impl ClassTotals {
    // One table more. A class is counted at its representative.
    fn add(&mut self, f: Table) {
        let class = classify(f);
        let is_sample = f % SAMPLE == 0;
        let right = is_reached(f, class)
            && (!is_sample || plain::Class::of(f) == seen_class(class));
        self.tables = self.tables.saturating_add(1);
        self.classes = self
            .classes
            .saturating_add(u32::from(class.representative == f));
        self.searched = self.searched.saturating_add(u32::from(is_sample));
        self.wrong = self.wrong.saturating_add(u32::from(!right));
    }
}

/// Runs all tables through the class search.
pub fn run_classes() -> ClassTotals {
    let mut totals = ClassTotals::default();
    for f in 0..=Table::MAX {
        totals.add(f);
    }
    totals
}
