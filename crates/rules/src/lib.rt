// Which rule writes a table: the first of six that fits.
#![tactic(auto)]

ghost use Rattle.std.specs.Prelude.{◌≡◌};
ghost use Rattle.rules.specs.Rules.{trivial_rule, top_rule, first_top, xor_in, first_xor, rule_without_parts, rule_with_parts, rule_of};
ghost use Rattle.rules.specs.Fits.{Fits};
ghost use Rattle.rules.specs.First.{FirstThatFits};

use classes::Ownership;
use classes::owned::NamedClass;
use tables::{FALSE, TRUE, Table, Variable, cofactor, invert, lowest_variable};

/// The gate that joins a variable and one of its cofactors.
#[derive(Clone, Copy, PartialEq, Eq, Debug)]
pub enum Gate {
    And,
    Or,
}

/// Why a table may be a line of its own.
#[derive(Clone, Copy, PartialEq, Eq, Debug)]
pub enum Owned {
    /// The kind owns every class.
    Every,
    /// The kind owns majority, and the table is in that class.
    Majority,
}

/// How a table is written.
#[derive(Clone, Copy, PartialEq, Eq, Debug)]
pub enum Rule {
    /// Rule 1: it is constant.
    Constant(bool),
    /// Rule 1: it is a variable, or an inverted one.
    Single(Variable, bool),
    /// Rules 2 and 3: it is one line with the table itself.
    OneLine(Owned),
    /// Rule 4: it is the AND or the OR of a variable, inverted or not, and one of its cofactors: the high one where the
    /// flag says so. The other cofactor is constant.
    // A flag and no enum of two sides: it is what `cofactor` takes, and the variable is inverted by it.
    Top(Gate, Variable, bool),
    /// Rule 5: the cofactors are inverse, so it is the exclusive-or of the variable and the low one.
    Xor(Variable),
    /// Rule 6: it is the OR of two ANDs, of the variable with the high cofactor and of its inversion with the low one.
    Shannon(Variable),
}

// Rule 1: a constant, a variable or an inverted variable.
// Ten arms, as in the definition: a search over the variables needs one more function for its step, and the two are longer.
fn trivial_rule(h: Table) -> Option<Rule>
    ensures { result ≡ trivial_rule h }
{
    match h {
        0x0000 => Some(Rule::Constant(false)),
        0xFFFF => Some(Rule::Constant(true)),
        0xAAAA => Some(Rule::Single(Variable::V0, false)),
        0x5555 => Some(Rule::Single(Variable::V0, true)),
        0xCCCC => Some(Rule::Single(Variable::V1, false)),
        0x3333 => Some(Rule::Single(Variable::V1, true)),
        0xF0F0 => Some(Rule::Single(Variable::V2, false)),
        0x0F0F => Some(Rule::Single(Variable::V2, true)),
        0xFF00 => Some(Rule::Single(Variable::V3, false)),
        0x00FF => Some(Rule::Single(Variable::V3, true)),
        _ => None,
    }
}

// Rule 4 at a variable of the support: the first case of its cofactors that holds.
#[tactic(auto, unfolding(crate::specs::Rules::top_rule))]
fn top_rule(h: Table, v: Variable) -> Option<Rule>
    ensures { result ≡ top_rule h v }
{
    let low = cofactor(h, v, false);
    let high = cofactor(h, v, true);
    if low == high {
        None
    } else if high == FALSE {
        Some(Rule::Top(Gate::And, v, false))
    } else if low == FALSE {
        Some(Rule::Top(Gate::And, v, true))
    } else if high == TRUE {
        Some(Rule::Top(Gate::Or, v, false))
    } else if low == TRUE {
        Some(Rule::Top(Gate::Or, v, true))
    } else {
        None
    }
}

// Rule 4 at the lowest variable that it fits.
fn first_top(h: Table) -> Option<Rule>
    ensures { result ≡ first_top h }
{
    Variable::ALL.iter().copied().find_map(|v| top_rule(h, v))
}

// Whether the cofactors of `v` are inverse.
#[tactic(auto, unfolding(crate::specs::Rules::xor_in))]
fn has_inverse_cofactors(h: Table, v: Variable) -> bool
    ensures { result ≡ xor_in h v }
{
    cofactor(h, v, false) == invert(cofactor(h, v, true))
}

// The lowest variable with inverse cofactors.
fn first_xor(h: Table) -> Option<Variable>
    ensures { result ≡ first_xor h }
{
    Variable::ALL
        .iter()
        .copied()
        .find(|v| has_inverse_cofactors(h, *v))
}

// Rules 1 to 3, which write no part of the table.
#[tactic(auto, unfolding(crate::specs::Rules::rule_without_parts))]
fn rule_without_parts(own: Ownership, h: Table) -> Option<Rule>
    ensures { result ≡ rule_without_parts own h }
{
    if let Some(rule) = trivial_rule(h) {
        return Some(rule);
    }
    if own.every {
        return Some(Rule::OneLine(Owned::Every));
    }
    if own.majority && NamedClass::Majority.has(h) {
        return Some(Rule::OneLine(Owned::Majority));
    }
    None
}

// Rules 4 to 6, for a table that none of the first three fits. A table without a support is constant.
#[tactic(auto, unfolding(crate::specs::Rules::rule_with_parts))]
fn rule_with_parts(h: Table) -> Rule
    ensures { result ≡ rule_with_parts h }
{
    if let Some(rule) = first_top(h) {
        return rule;
    }
    if let Some(v) = first_xor(h) {
        return Rule::Xor(v);
    }
    match lowest_variable(h) {
        Some(v) => Rule::Shannon(v),
        None => Rule::Constant(h == TRUE),
    }
}

/// The first rule that fits a table: no rule of a lower number does, no lower variable passes the same rule, and no
/// earlier case for the same variable holds. There is one such rule.
pub fn choose_rule(own: Ownership, h: Table) -> Rule
    ensures rule { result ≡ rule_of own h }
    ensures first { FirstThatFits own h result }
    ensures only { (s : Rule) → FirstThatFits own h s → s ≡ result }
    ensures fits { Fits own h result }
{
    match rule_without_parts(own, h) {
        Some(rule) => rule,
        None => rule_with_parts(h),
    }
}
