// Which tables belong to the classes that kinds of network own.
ghost use Rattle.std.specs.Prelude.{◌≡◌, ◌==◌};
ghost use Rattle.transforms.specs.Images.{representative};
ghost use Rattle.classes.specs.declared.Ownership.{Ownership};
ghost use Rattle.classes.specs.Owned.{class_number, owns};
ghost use Rattle.classes.specs.Members.{tables_of};
ghost use Rattle.classes.specs.Normal.{NormalTable, normal_class, owns_named};

use crate::Ownership;
use tables::Table;

// The tables of class 15: the AND of two variables, each inverted or not, and its inversion.
const CONJUNCTIONS: [Table; 48] = [
    0x000F, 0x0033, 0x0055, 0x00AA, 0x00CC, 0x00F0, 0x0303, 0x0505, 0x0A0A, 0x0C0C, 0x0F00, 0x0FFF,
    0x1111, 0x2222, 0x3030, 0x3300, 0x33FF, 0x3F3F, 0x4444, 0x5050, 0x5500, 0x55FF, 0x5F5F, 0x7777,
    0x8888, 0xA0A0, 0xAA00, 0xAAFF, 0xAFAF, 0xBBBB, 0xC0C0, 0xCC00, 0xCCFF, 0xCFCF, 0xDDDD, 0xEEEE,
    0xF000, 0xF0FF, 0xF3F3, 0xF5F5, 0xFAFA, 0xFCFC, 0xFF0F, 0xFF33, 0xFF55, 0xFFAA, 0xFFCC, 0xFFF0,
];

// The tables of class 4080: the exclusive-or of two variables, and its inversion.
const EXCLUSIVE_ORS: [Table; 12] = [
    0x0FF0, 0x33CC, 0x3C3C, 0x55AA, 0x5A5A, 0x6666, 0x9999, 0xA5A5, 0xAA55, 0xC3C3, 0xCC33, 0xF00F,
];

// The tables of class 831: the majority of three variables, each inverted or not.
const MAJORITIES: [Table; 32] = [
    0x033F, 0x055F, 0x0AAF, 0x0CCF, 0x1177, 0x1717, 0x22BB, 0x2B2B, 0x30F3, 0x3F03, 0x44DD, 0x4D4D,
    0x50F5, 0x5F05, 0x7171, 0x7711, 0x88EE, 0x8E8E, 0xA0FA, 0xAF0A, 0xB2B2, 0xBB22, 0xC0FC, 0xCF0C,
    0xD4D4, 0xDD44, 0xE8E8, 0xEE88, 0xF330, 0xF550, 0xFAA0, 0xFCC0,
];

/// The classes that some kinds of network own and others do not, and class 15.
#[derive(Clone, Copy, PartialEq, Eq, Debug)]
pub enum NamedClass {
    /// Class 15: the AND of two variables.
    Conjunction,
    /// Class 4080: the exclusive-or of two variables.
    ExclusiveOr,
    /// Class 831: the majority of three variables.
    Majority,
}

impl NamedClass {
    // The tables of the class.
    fn tables(self) -> &'static [Table]
        ensures { result.now ≡ tables_of (class_number self) }
    {
        match self {
            NamedClass::Conjunction => &CONJUNCTIONS,
            NamedClass::ExclusiveOr => &EXCLUSIVE_ORS,
            NamedClass::Majority => &MAJORITIES,
        }
    }

    /// Whether a table is in the class.
    pub fn has(self, f: Table) -> bool
        ensures { result ≡ (representative f == class_number self) }
    {
        self.tables().contains(&f)
    }
}

/// Whether the class of a table is owned.
#[tactic(auto, unfolding(crate::specs::Owned::owns))]
pub fn is_owned(own: Ownership, f: Table) -> bool
    ensures { result ≡ owns own f }
{
    own.every
        || NamedClass::Conjunction.has(f)
        || (own.xor && NamedClass::ExclusiveOr.has(f))
        || (own.majority && NamedClass::Majority.has(f))
}

// The class of the table of a row in normal form, if it has a name.
fn normal_class(f: Table) -> Option<NamedClass>
    ensures class { result ≡ normal_class f }
    ensures owned { (own : Ownership) → NormalTable f → owns own f ≡ owns_named own result }
{
    match f {
        0x8888 | 0x2222 | 0x4444 | 0xEEEE => Some(NamedClass::Conjunction),
        0x6666 => Some(NamedClass::ExclusiveOr),
        0xE8E8 | 0xD4D4 | 0xB2B2 | 0x8E8E => Some(NamedClass::Majority),
        _ => None,
    }
}

/// Whether the class of the table of a row in normal form is owned, by a look at the table alone.
/// Any other table counts as one of no named class.
pub fn owns_normal(own: Ownership, f: Table) -> bool
    ensures named { result ≡ owns_named own (normal_class f) }
    ensures owned { NormalTable f → result ≡ owns own f }
{
    match normal_class(f) {
        Some(NamedClass::Conjunction) => true,
        Some(NamedClass::ExclusiveOr) => own.every || own.xor,
        Some(NamedClass::Majority) => own.every || own.majority,
        None => own.every,
    }
}
