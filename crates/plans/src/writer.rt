// The recursive writer: each table by its rule, the lines of a part before the line that reads it.
ghost use Rattle.std.specs.Prelude.{◌≡◌, ℕ, ◌+◌, ◌<◌, ◌≤◌, []};
ghost use Rattle.tables.specs.Tables.{support_size};
ghost use Rattle.lists.specs.Lists.{listed};
ghost use Rattle.plans.specs.Plans.{one_more, top_of, either, xor_lines, shannon_lines, write, bound};
ghost use Rattle.plans.specs.Held.{line_count, Wrote};

use classes::Ownership;
use plan_lines::{AND, Inputs, Line, Lines, Literal, MOST_LINES, OR, XOR, push_line};
use rules::{Gate, Rule, choose_rule};
use tables::{FALSE, Table, cofactor};

/// The lines written so far, for the classes that are owned and over what the variables stand for.
#[derive(Clone, Copy)]
pub(crate) struct Writer {
    own: Ownership,
    inputs: Inputs,
    pub(crate) lines: Lines,
}

// The AND or the OR of what a variable stands for and a part, which is the high cofactor or the low one.
fn top_line(gate: Gate, high: bool, p: Literal, part: Literal) -> Line
    ensures { result ≡ top_of gate high p part }
{
    match gate {
        Gate::And => Line::of_two(AND, p.invert_if(!high), part),
        Gate::Or => Line::of_two(OR, p.invert_if(high), part),
    }
}

impl Writer {
    /// No line.
    pub(crate) fn new(own: Ownership, inputs: Inputs) -> Writer
        ensures own { result.own ≡ own }
        ensures inputs { result.inputs ≡ inputs }
        ensures lines { listed result.lines ≡ [] }
    {
        Writer {
            own,
            inputs,
            lines: Lines::new(Line::of_two(FALSE, Literal::FALSE, Literal::FALSE)),
        }
    }

    // One line more; its answer.
    fn push(&mut self, line: Line) -> Literal
        requires { line_count self.old < MOST_LINES }
        ensures { Wrote self.old self.new result (one_more (line_count self.old) [] line) }
    {
        push_line(&mut self.lines, line)
    }

    // Two lines and their OR; its answer. Room for three lines is asked by each of these three: it is no fact of every writer.
    fn write_or(&mut self, one: Line, other: Line) -> Literal
        requires { line_count self.old + 3 ≤ MOST_LINES }
        ensures { Wrote self.old self.new result (either (line_count self.old) [] one other) }
    {
        let p = self.push(one);
        let q = self.push(other);
        self.push(Line::of_two(OR, p, q))
    }

    // The exclusive-or of two literals: one line where it is owned, else three.
    fn write_xor(&mut self, p: Literal, q: Literal) -> Literal
        requires { line_count self.old + 3 ≤ MOST_LINES }
        ensures { Wrote self.old self.new result (xor_lines self.old.own (line_count self.old) [] p q) }
    {
        if self.own.xor {
            self.push(Line::of_two(XOR, p, q))
        } else {
            self.write_or(
                Line::of_two(AND, p, q.invert_if(true)),
                Line::of_two(AND, p.invert_if(true), q),
            )
        }
    }

    // The choice of one literal by another: `high` where `p` is true, and `low` elsewhere.
    fn write_shannon(&mut self, p: Literal, high: Literal, low: Literal) -> Literal
        requires { line_count self.old + 3 ≤ MOST_LINES }
        ensures { Wrote self.old self.new result (shannon_lines (line_count self.old) [] p high low) }
    {
        self.write_or(
            Line::of_two(AND, p, high),
            Line::of_two(AND, p.invert_if(true), low),
        )
    }

    /// Writes a table behind the lines that are there; its result.
    #[tactic(auto, using(crate::proofs::Writing::parts))]
    pub(crate) fn write(&mut self, h: Table) -> Literal
        requires { line_count self.old + bound (support_size h) ≤ MOST_LINES }
        ensures few { line_count self.new ≤ line_count self.old + bound (support_size h) }
        ensures held { (k : ℕ) → support_size h < k
            → Wrote self.old self.new result (write k self.old.own self.old.inputs (line_count self.old) h) }
    {
        match choose_rule(self.own, h) {
            Rule::Constant(b) => Literal::FALSE.invert_if(b),
            Rule::Single(v, inverse) => self.inputs.at(v).invert_if(inverse),
            Rule::OneLine(_) => self.push(Line::of_table(h, self.inputs)),
            Rule::Top(gate, v, high) => {
                let p = self.inputs.at(v);
                let part = self.write(cofactor(h, v, high));
                self.push(top_line(gate, high, p, part))
            }
            Rule::Xor(v) => {
                let p = self.inputs.at(v);
                let part = self.write(cofactor(h, v, false));
                self.write_xor(p, part)
            }
            Rule::Shannon(v) => {
                let p = self.inputs.at(v);
                let high = self.write(cofactor(h, v, true));
                let low = self.write(cofactor(h, v, false));
                self.write_shannon(p, high, low)
            }
        }
    }
}
