//! Plans by the rules, line by line, and what a plan computes.
ghost use Rattle.std.specs.Prelude.{◌≡◌, ◌↔◌, ◌%◌, ◌<◌, true, map, IfOk, IsNone};
ghost use Rattle.reference.specs.Tables.{bit, from_bits};
ghost use Rattle.reference.specs.Classes.{class_in};
ghost use Rattle.reference.specs.Plans.{invert_if, source_table, literal_table, line_table, composed};

use crate::classes::{Atlas, Class, Owned, Transform};
use crate::tables::{Variable, fixed, is_used, setting_of, table_of, value_at};
use std::alloc::{AllocError, Global};

const AND: u16 = 0x8888;

const OR: u16 = 0xEEEE;

const XOR: u16 = 0x6666;

/// No plan is longer.
pub const MOST_LINES: usize = 21;

/// Where a literal comes from.
#[derive(Clone, Copy, PartialEq, Eq)]
pub enum Source {
    False,
    Signal(Variable),
    Line(usize),
}

/// A source, or its inversion.
#[derive(Clone, Copy, PartialEq, Eq)]
pub struct Literal {
    pub source: Source,
    pub inverted: bool,
}

/// One place call.
#[derive(Clone, Copy, PartialEq, Eq)]
pub struct Line {
    pub table: u16,
    pub literals: [Literal; 4],
}

/// Place calls, and the literal that then has the table's value.
#[derive(PartialEq, Drop)]
pub struct Plan {
    pub lines: Vec<Line>,
    pub result: Literal,
}

impl Literal {
    /// Constant false.
    pub const FALSE: Literal = Literal {
        source: Source::False,
        inverted: false,
    };

    /// The literal, inverted once more where `inverse` says so.
    pub fn invert_if(self, inverse: bool) -> Literal
        ensures { result ≡ invert_if inverse self }
    {
        Literal {
            inverted: self.inverted != inverse,
            ..self
        }
    }

    /// The literal's inversion.
    pub fn not(self) -> Literal
        ensures { result ≡ invert_if true self }
    {
        self.invert_if(true)
    }
}

impl Line {
    // A line over two literals.
    fn of_two(table: u16, a: Literal, b: Literal) -> Line {
        Line {
            table,
            literals: [a, b, Literal::FALSE, Literal::FALSE],
        }
    }
}

// A variable of the table, with its own table, which many tables are compared with, and what it stands for.
#[derive(Clone, Copy)]
struct Input {
    variable: Variable,
    table: u16,
    literal: Literal,
}

// What a table is written as: something that is there, one line, or its parts joined by lines.
#[derive(Clone, Copy)]
enum Choice {
    There(Literal),
    OneLine(Line),
    Join { table: u16, by: Literal, part: u16 },
    Exclusive { by: Literal, part: u16 },
    Halves { by: Literal, high: u16, low: u16 },
}

// A table over one variable, as the rules look at it.
#[derive(Clone, Copy)]
struct View {
    by: Literal,
    low: u16,
    high: u16,
}

impl View {
    fn new(h: u16, input: Input) -> View {
        View {
            by: input.literal,
            low: fixed(h, input.variable, false),
            high: fixed(h, input.variable, true),
        }
    }

    fn is_used(self) -> bool {
        self.low != self.high
    }

    // AND and OR with the variable, where a half is constant.
    fn join(self) -> Option<Choice> {
        let (table, by, part) = match (self.low, self.high) {
            (low, 0) => (AND, self.by.not(), low),
            (0, high) => (AND, self.by, high),
            (low, 0xFFFF) => (OR, self.by, low),
            (0xFFFF, high) => (OR, self.by.not(), high),
            _ => return None,
        };
        Some(Choice::Join { table, by, part })
    }

    // The exclusive-or with the variable, where the halves are inversions of one another.
    fn exclusive(self) -> Option<Choice> {
        let View { by, low, high } = self;
        (low == !high).then_some(Choice::Exclusive { by, part: low })
    }

    fn halves(self) -> Option<Choice> {
        let View { by, low, high } = self;
        Some(Choice::Halves { by, high, low })
    }
}

// A rule, at the lowest variable of the support for which it holds.
fn first<F: Fn(View) -> Option<Choice>>(views: [View; 4], rule: F) -> Option<Choice>
    requires { F.IsAlwaysCallable rule }
{
    let mut used = views.into_iter().filter(|view| view.is_used());
    used.find_map(rule)
}

// Adds a line; the answer is its literal.
fn push(lines: &mut Vec<Line>, line: Line) -> Result<Literal, AllocError> {
    let source = Source::Line(lines.len());
    lines.push(line)?;
    Ok(Literal {
        source,
        inverted: false,
    })
}

// Two lines and their OR.
fn push_either(lines: &mut Vec<Line>, first: Line, second: Line) -> Result<Literal, AllocError> {
    let a = push(lines, first)?;
    let b = push(lines, second)?;
    push(lines, Line::of_two(OR, a, b))
}

// The exclusive-or of two literals: one line where it is owned, else three.
fn push_exclusive(
    own: Owned,
    lines: &mut Vec<Line>,
    a: Literal,
    b: Literal,
) -> Result<Literal, AllocError> {
    if own.xor {
        push(lines, Line::of_two(XOR, a, b))
    } else {
        let first = Line::of_two(AND, a, b.not());
        let second = Line::of_two(AND, a.not(), b);
        push_either(lines, first, second)
    }
}

// The writer: the classes, what is owned, and what the variables stand for, in their order.
#[derive(Clone, Copy)]
struct Writer<'a> {
    atlas: &'a Atlas,
    own: Owned,
    inputs: [Input; 4],
}

impl Writer<'_> {
    // The literal that has the table: constant false, or a variable.
    fn literal(&self, h: u16) -> Option<Literal> {
        if h == 0 {
            return Some(Literal::FALSE);
        }
        let mut inputs = self.inputs.iter();
        let input = inputs.find(|input| input.table == h)?;
        Some(input.literal)
    }

    // The rule for what needs no line: a literal, or the inversion of one.
    fn there(&self, h: u16) -> Option<Choice> {
        let literal = self
            .literal(h)
            .or_else(|| self.literal(!h).map(Literal::not));
        literal.map(Choice::There)
    }

    // The rules for one line: the table itself, with constant false for what it does not depend on.
    fn one_line(&self, h: u16) -> Option<Choice> {
        let owned = self.own.every || (self.own.majority && self.atlas.number(h) == 831);
        // What it depends on is dear, and most tables are not owned.
        if !owned {
            return None;
        }
        let literals = self.inputs.map(|input| {
            if is_used(h, input.variable) {
                input.literal
            } else {
                Literal::FALSE
            }
        });
        Some(Choice::OneLine(Line { table: h, literals }))
    }

    // The rules that take the table apart.
    fn apart(&self, h: u16) -> Option<Choice> {
        let views = self.inputs.map(|input| View::new(h, input));
        first(views, View::join)
            .or_else(|| first(views, View::exclusive))
            .or_else(|| first(views, View::halves))
    }

    // The first rule that fits.
    fn choose(&self, h: u16) -> Choice {
        self.there(h)
            .or_else(|| self.one_line(h))
            .or_else(|| self.apart(h))
            .unwrap_or(Choice::There(Literal::FALSE))
    }

    // Writes a table behind the lines that are there. `depth` is more than the variables of the table.
    fn write(&self, h: u16, depth: u8, lines: &mut Vec<Line>) -> Result<Literal, AllocError> {
        if depth == 0 {
            return Ok(Literal::FALSE);
        }
        match self.choose(h) {
            Choice::There(literal) => Ok(literal),
            Choice::OneLine(line) => push(lines, line),
            Choice::Join { table, by, part } => {
                let part = self.write(part, depth - 1, lines)?;
                push(lines, Line::of_two(table, by, part))
            }
            Choice::Exclusive { by, part } => {
                let part = self.write(part, depth - 1, lines)?;
                push_exclusive(self.own, lines, by, part)
            }
            Choice::Halves { by, high, low } => {
                let high = self.write(high, depth - 1, lines)?;
                let low = self.write(low, depth - 1, lines)?;
                let first = Line::of_two(AND, by, high);
                let second = Line::of_two(AND, by.not(), low);
                push_either(lines, first, second)
            }
        }
    }
}

// What a variable of the representative stands for: the signal at whose place the order has it, inverted where the mask is true.
fn input_of(transform: Transform, variable: Variable) -> Input {
    let mut places = Variable::ALL.into_iter().zip(transform.order);
    let place = places.find(|(_, v)| *v == variable);
    let literal = place.map_or(
        Literal::FALSE,
        |(signal, _)| Literal {
            source: Source::Signal(signal),
            inverted: signal.is_set(transform.mask),
        },
    );
    Input {
        variable,
        table: variable.table(),
        literal,
    }
}

/// The plan of the table that has this class, by the first rule that fits it and then its parts.
pub fn write_plan(
    heap: Global,
    atlas: &Atlas,
    own: Owned,
    class: Class,
) -> Result<Plan, AllocError> {
    let transform = class.transform;
    let writer = Writer {
        atlas,
        own,
        inputs: Variable::ALL.map(|v| input_of(transform, v)),
    };
    let mut lines = Vec::new(heap);
    let result = writer.write(class.representative, 5, &mut lines)?;
    let result = result.invert_if(transform.output);
    Ok(Plan { lines, result })
}

/// The plan of a table, by the class that the atlas has for it.
pub fn write_plan_of(
    heap: Global,
    atlas: &Atlas,
    own: Owned,
    f: u16,
) -> Result<Option<Plan>, AllocError>
    ensures { IfOk result (λ plan. IsNone plan ↔ IsNone (class_in atlas.now f)) }
{
    let Some(class) = atlas.class(f) else {
        return Ok(None);
    };
    Ok(Some(write_plan(heap, atlas, own, class)?))
}

impl Source {
    // Its table over the four signals, after the tables of some lines.
    fn table(self, answers: &[u16]) -> Option<u16>
        ensures { result ≡ source_table answers.now self }
    {
        match self {
            Source::False => Some(0),
            Source::Signal(v) => Some(v.table()),
            Source::Line(n) => answers.get(n).copied(),
        }
    }
}

impl Literal {
    /// Its table over the four signals, after the tables of some lines; nothing where it reads a line that is not among them.
    pub fn table(self, answers: &[u16]) -> Option<u16>
        ensures { result ≡ literal_table answers.now self }
    {
        let table = self.source.table(answers)?;
        Some(if self.inverted { !table } else { table })
    }
}

impl Line {
    /// Its table over the four signals, after the tables of the lines before it, one setting at a time.
    pub fn answer(self, answers: &[u16]) -> Option<u16>
        ensures { result ≡ line_table answers.now self }
    {
        let [a, b, c, d] = self.literals;
        let inputs = [
            a.table(answers)?,
            b.table(answers)?,
            c.table(answers)?,
            d.table(answers)?,
        ];
        Some(compose(self.table, inputs))
    }
}

// The setting of four tables' values at a setting.
fn setting_at(inputs: [u16; 4], x: u16) -> u16
    ensures number { result ≡ from_bits (map (λ g. bit g (x % 16)) inputs) }
    ensures below { result < 16 }
{
    setting_of(inputs.map(|g| value_at(g, x)))
}

// At each setting, the value of a table at the values of four others.
fn compose(f: u16, inputs: [u16; 4]) -> u16
    ensures { result ≡ composed f inputs }
{
    table_of(
        |x: u16| -> bool
            ensures { x < 16 → result ≡ bit f (from_bits (map (λ g. bit g x) inputs)) }
        { value_at(f, setting_at(inputs, x)) },
    )
}

impl Plan {
    /// What it computes over the four signals; nothing where a line reads a line that does not stand before it.
    pub fn table(&self, heap: Global) -> Result<Option<u16>, AllocError> {
        let mut answers = Vec::new(heap);
        for line in &self.lines {
            let Some(table) = line.answer(&answers) else {
                return Ok(None);
            };
            answers.push(table)?;
        }
        Ok(self.result.table(&answers))
    }
}

#[cfg(test)]
mod tests {
    use super::*;
    use std::test::Fail;

    #[test]
    fn writes_plans(rt: HostRuntime) -> Result<(), Fail> {
        let heap = rt.alloc();
        let atlas = Atlas::new(heap)?;
        let own = Owned {
            xor: false,
            majority: false,
            every: false,
        };
        let plan = write_plan(heap, &atlas, own, Class::of(0x8080))?;
        assert_eq!(rt; plan.lines.len(), 2);
        assert_eq!(rt; plan.table(heap)?, Some(0x8080));
        let same = write_plan_of(heap, &atlas, own, 0x8080)?;
        assert!(rt; same == Some(plan));
        Ok(())
    }
}
