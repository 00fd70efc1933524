// What the library answers, in the plain types of the reference.
#![tactic(auto)]

ghost use Rattle.std.specs.Prelude.{◌≡◌, map, IfOk};
ghost use Rattle.lists.specs.Lists.{listed};
ghost use Rattle.seen.specs.Seen.{seen_variable, seen_class, seen_literal, seen_line, asked};

use classes::Ownership;
use classifier::Class;
use plans::{Line, Literal, Plan, Source};
use reference as plain;
use reference::tables::setting_of;
use std::alloc::{AllocError, Global};
use tables::Variable;

fn seen_variable(v: Variable) -> plain::tables::Variable
    ensures { result ≡ seen_variable v }
{
    match v {
        Variable::V0 => plain::tables::Variable::V0,
        Variable::V1 => plain::tables::Variable::V1,
        Variable::V2 => plain::tables::Variable::V2,
        Variable::V3 => plain::tables::Variable::V3,
    }
}

/// A class and its transform.
pub fn seen_class(class: Class) -> plain::classes::Class
    ensures { result ≡ seen_class class }
{
    let transform = class.transform;
    let order = transform.order();
    plain::classes::Class {
        representative: class.representative,
        transform: plain::classes::Transform {
            output: transform.output(),
            order: Variable::ALL.map(|k| seen_variable(order.at(k))),
            mask: setting_of(Variable::ALL.map(|k| transform.inverts(k))),
        },
    }
}

/// A literal.
pub fn seen_literal(literal: Literal) -> plain::plans::Literal
    ensures { result ≡ seen_literal literal }
{
    plain::plans::Literal {
        source: match literal.source {
            Source::Constant => plain::plans::Source::False,
            Source::Input(v) => plain::plans::Source::Signal(seen_variable(v)),
            Source::Line(n) => plain::plans::Source::Line(n),
        },
        inverted: literal.inverted,
    }
}

/// A line.
pub fn seen_line(line: Line) -> plain::plans::Line
    ensures { result ≡ seen_line line }
{
    plain::plans::Line {
        table: line.table,
        literals: Variable::ALL.map(|v| seen_literal(line.literals.at(v))),
    }
}

/// A plan, line by line.
pub fn seen_plan(heap: Global, plan: &Plan) -> Result<plain::plans::Plan, AllocError>
    ensures lines { IfOk result (λ seen. seen.lines.items ≡ map seen_line (listed plan.now.lines)) }
    ensures result { IfOk result (λ seen. seen.result ≡ seen_literal plan.now.result) }
{
    let lines = plan.lines().iter().map(|line| seen_line(*line));
    Ok(plain::plans::Plan {
        lines: lines.collect(heap)?,
        result: seen_literal(plan.result()),
    })
}

/// An ownership, as the library has it.
pub fn asked(own: plain::classes::Owned) -> Ownership
    ensures { result ≡ asked own }
{
    Ownership {
        xor: own.xor,
        majority: own.majority,
        every: own.every,
    }
}

#[cfg(test)]
mod tests {
    use super::*;
    use plain::tables::Variable::V0;
    use plans::plan_table;
    use std::test::Fail;

    #[test]
    fn sees_plans(rt: HostRuntime) -> Result<(), Fail> {
        let heap = rt.alloc();
        let inverter = seen_plan(heap, &plan_table(Ownership::AND, 0x5555))?;
        let inverse = plain::plans::Literal {
            source: plain::plans::Source::Signal(V0),
            inverted: true,
        };
        assert_eq!(rt; inverter.lines.len(), 0);
        assert!(rt; inverter.result == inverse);
        let conjunction = seen_plan(heap, &plan_table(Ownership::AND, 0x8080))?;
        assert_eq!(rt; conjunction.lines.len(), 2);
        assert!(rt; conjunction.lines.iter().all(|line| line.table == 0x8888));
        assert_eq!(rt; conjunction.table(heap)?, Some(0x8080));
        Ok(())
    }
}
