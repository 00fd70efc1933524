// Plans: a table as lines that each are one place call, over the four signals of the table itself.
#![tactic(auto)]

mod writer;

ghost use Rattle.std.specs.Prelude.{◌≡◌, ℕ, ◌<◌, ◌≤◌, true, length};
ghost use Rattle.tables.specs.Settings.{Setting};
ghost use Rattle.tables.specs.Tables.{value, support_size};
ghost use Rattle.lists.specs.Lists.{listed};
ghost use Rattle.classes.specs.Owned.{owns};
ghost use Rattle.classifier.specs.Extremes.{class_of};
ghost use Rattle.plan_lines.specs.Lines.{ReadsBefore, EachReadsEarlier};
ghost use Rattle.plans.specs.Plans.{bound, input, inputs, plan_of};
ghost use Rattle.plans.specs.Promises.{SignalsStand, plan_value, EachOwned, Planned};

use crate::writer::Writer;
use classes::Ownership;
use classifier::{Class, classify};
use plan_lines::Lines;
pub use plan_lines::{Inputs, Line, Literal, Source};
use tables::{Table, VARIABLES, Variable};
use transforms::Transform;

/// The plan of a table: place calls over its four signals, and the literal that then has the table's value.
#[derive(Clone, Copy)]
pub struct Plan {
    lines: Lines,
    result: Literal,
}

// What variable `v` of the representative stands for.
fn input_of(t: Transform, v: Variable) -> Literal
    ensures { result ≡ input t v }
{
    let k = t.order().position_of(v);
    Literal {
        source: Source::Input(k),
        inverted: t.inverts(k),
    }
}

fn inputs_of(t: Transform) -> Inputs
    ensures { result ≡ inputs t }
{
    VARIABLES.map(
        |v: Variable| -> Literal
            ensures { result ≡ input t v }
        { input_of(t, v) },
    )
}

// The plan of every table that has this class by this transform: the representative's, over the signals that the
// transform gives to its variables.
#[tactic(auto, using(crate::proofs::Promises::room))]
fn plan_class(own: Ownership, class: Class) -> Plan
    ensures { (f : ℕ) → f < 65536 → class ≡ class_of f → Planned own f (listed result.lines) result.result }
{
    let t = class.transform;
    let mut writer = Writer::new(own, inputs_of(t));
    let result = writer.write(class.representative);
    Plan {
        lines: writer.lines,
        result: result.invert_if(t.output()),
    }
}

/// The plan of a table for the classes that are owned: the lines and the result that the six rules give.
pub fn plan_table(own: Ownership, f: Table) -> Plan
    ensures lines { listed result.lines ≡ (plan_of own f).lines }
    ensures result { result.result ≡ (plan_of own f).result }
    ensures signals { SignalsStand f }
    ensures value { (y : Setting) → plan_value y (listed result.lines) result.result ≡ value f y }
    ensures earlier { EachReadsEarlier 0 (listed result.lines) }
    ensures there { ReadsBefore (length (listed result.lines)) result.result }
    ensures few { length (listed result.lines) ≤ bound (support_size f) }
    ensures most { length (listed result.lines) ≤ 21 }
    ensures one { owns own f ≡ true → 2 ≤ support_size f → length (listed result.lines) ≡ 1 }
    ensures owned { EachOwned own (listed result.lines) }
{
    let class = classify(f);
    plan_class(own, class)
}

impl Plan {
    /// The lines, in order.
    pub fn lines(&self) -> &[Line]
        ensures { result.now ≡ listed self.now.lines }
    {
        self.lines.as_slice()
    }

    /// How many lines it has.
    pub fn len(&self) -> usize
        ensures { result ≡ length (listed self.now.lines) }
    {
        self.lines().len()
    }

    /// The literal that has the table's value after the lines.
    pub fn result(&self) -> Literal
        ensures { result ≡ self.now.result }
    {
        self.result
    }
}
