// Plans: the value of each at every setting, and the form of its lines.
use classes::Ownership;
use plans::{Plan, plan_table};
use reference::plans::{Line, Literal, MOST_LINES};
use reference::tables::{Variable, is_used, table_of};
use seen::{seen_line, seen_literal};
use tables::Table;

/// What came of the plans of all tables.
#[derive(Clone, Copy, Default)]
pub struct PlanTotals {
    pub plans: u32,
    pub lines: usize,
    pub longest: usize,
    pub wrong: u32,
}

// How many variables besides one are true at a setting.
fn votes(setting: u16, but: Variable) -> usize {
    let mut others = Variable::ALL.iter().filter(|v| **v != but);
    others.filter(|v| v.is_set(setting)).count()
}

// Whether a table is a majority of three variables, each inverted or not.
fn is_majority(f: Table) -> bool {
    Variable::ALL.iter().any(|but| {
        (0..16u16).any(|mask| f == table_of(|x| votes(x ^ mask, *but) >= 2))
    })
}

// Whether a line's table is owned: by how many variables it uses and where it is true.
fn is_owned(own: Ownership, table: Table) -> bool {
    let used = Variable::ALL.iter().filter(|v| is_used(table, **v)).count();
    let ones = table.count_ones();
    let two = used == 2 && (ones == 4 || ones == 12 || (own.xor && ones == 8));
    own.every || two || (own.majority && is_majority(table))
}

// Whether a line has constant false for what its table does not use.
fn is_fed(line: &Line) -> bool {
    let mut places = Variable::ALL.into_iter().zip(line.literals);
    places.all(|(v, literal)| literal == Literal::FALSE || is_used(line.table, v))
}

// Whether a line has a table that is owned, and what that uses.
fn has_form(own: Ownership, line: &Line) -> bool {
    is_fed(line) && is_owned(own, line.table)
}

// What a plan computes over the four signals; nothing where it is too long, a line has another form, or one reads a line that
// does not stand before it.
fn value_of(own: Ownership, plan: &Plan) -> Option<Table> {
    let mut answers = [0; MOST_LINES];
    for (n, line) in plan.lines().iter().enumerate() {
        let line = seen_line(*line);
        let answer = line.answer(answers.get(..n)?)?;
        if !has_form(own, &line) {
            return None;
        }
        *answers.get_mut(n)? = answer;
    }
    seen_literal(plan.result()).table(answers.get(..plan.len())?)
}

impl PlanTotals {
    // The plan of one table more.
    fn add(&mut self, own: Ownership, f: Table) {
        let plan = plan_table(own, f);
        self.plans = self.plans.saturating_add(1);
        self.lines = self.lines.saturating_add(plan.len());
        self.longest = self.longest.max(plan.len());
        let right = value_of(own, &plan) == Some(f);
        self.wrong = self.wrong.saturating_add(u32::from(!right));
    }
}

/// Runs all tables through the plan writer.
pub fn run_plans(own: Ownership) -> PlanTotals {
    let mut totals = PlanTotals::default();
    for f in 0..=Table::MAX {
        totals.add(own, f);
    }
    totals
}
