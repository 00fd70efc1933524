// The normal form of a table over four signals, sixteen bits at a time.
#![tactic(auto)]

ghost use Rattle.std.specs.Prelude.{◌≡◌};
ghost use Rattle.tables.specs.Swaps.{swapped, joined};
ghost use Rattle.netlists.specs.Normal.{turned, entered, grounded, unified, trimmed, precedes, ordered, all_grounded, all_unified, all_trimmed, all_ordered, settled, normal};
ghost use Rattle.netlists.specs.Lawful.{FormOf};

use netlists::{Fanins, Form, Node, Row, Signal};
use tables::{
    Table, Variable, choose, cofactor, depends_on, flip_variable, invert, variable_table,
};

// ---- tables

// The table with `v` inverted where `inverted` is true.
fn turn(f: Table, v: Variable, inverted: bool) -> Table
    ensures { result ≡ turned f v inverted }
{
    if inverted { flip_variable(f, v) } else { f }
}

// The table with `k` read as `j`. The two stand in different roles in each step, so they are no pair of a type.
#[tactic(auto, using(tables::proofs::Swaps::joined_code))]
fn join_variables(f: Table, j: Variable, k: Variable) -> Table
    ensures { result ≡ joined f j k }
{
    choose(
        variable_table(j),
        cofactor(f, k, true),
        cofactor(f, k, false),
    )
}

// The table with `j` and `k` exchanged.
#[tactic(auto, using(tables::proofs::Swaps::swapped_code))]
fn swap_variables(f: Table, j: Variable, k: Variable) -> Table
    ensures { result ≡ swapped f j k }
{
    let high = join_variables(cofactor(f, j, true), j, k);
    let low = join_variables(cofactor(f, j, false), j, k);
    choose(variable_table(k), high, low)
}

// ---- the steps on rows under way: the nodes stand in any order, and node 0 at the places that are not used

// The inversions of the signals go into the table. (One line each: with a loop the whole is up to a third slower.)
#[tactic(auto, unfolding(netlists::specs::Normal::entered))]
fn enter(f: Table, fanins: Fanins) -> Row
    ensures { result ≡ entered f fanins }
{
    let by_a = turn(f, Variable::V0, fanins.a.inverted());
    let by_b = turn(by_a, Variable::V1, fanins.b.inverted());
    let by_c = turn(by_b, Variable::V2, fanins.c.inverted());
    let table = turn(by_c, Variable::V3, fanins.d.inverted());
    Row {
        table,
        nodes: fanins.map(Signal::node),
    }
}

// Where `v` is node 0, it is fixed at false.
#[tactic(auto, unfolding(netlists::specs::Normal::grounded))]
fn ground(row: Row, v: Variable) -> Row
    ensures { result ≡ grounded row v }
{
    if row.nodes.at(v) == Node::FALSE {
        Row {
            table: cofactor(row.table, v, false),
            ..row
        }
    } else {
        row
    }
}

// Where `j` and `k` are one node, `k` is read as `j` and no longer used.
#[tactic(auto, using(netlists::proofs::Steps::with_node_same), unfolding(netlists::specs::Normal::unified))]
fn unify(row: Row, j: Variable, k: Variable) -> Row
    ensures { result ≡ unified row j k }
{
    if row.nodes.at(j) == row.nodes.at(k) {
        Row {
            table: join_variables(row.table, j, k),
            nodes: row.nodes.with(k, Node::FALSE),
        }
    } else {
        row
    }
}

// A node that the table does not depend on is no longer used.
#[tactic(auto, using(netlists::proofs::Steps::with_node_same), unfolding(netlists::specs::Normal::trimmed))]
fn trim(row: Row, v: Variable) -> Row
    ensures { result ≡ trimmed row v }
{
    if depends_on(row.table, v) {
        row
    } else {
        Row {
            nodes: row.nodes.with(v, Node::FALSE),
            ..row
        }
    }
}

// Whether `m` stands before `n`: it is used, and `n` is not used or greater.
fn stands_before(m: Node, n: Node) -> bool
    ensures { result ≡ precedes m n }
{
    m.number() > 0 && (n.number() == 0 || m.number() < n.number())
}

// The nodes of `j` and `k` are exchanged, with the variables, where they stand in the wrong order.
#[tactic(auto, using(netlists::proofs::Steps::with_node_same), unfolding(netlists::specs::Normal::ordered))]
fn order(row: Row, j: Variable, k: Variable) -> Row
    ensures { result ≡ ordered row j k }
{
    let m = row.nodes.at(j);
    let n = row.nodes.at(k);
    if stands_before(n, m) {
        Row {
            table: swap_variables(row.table, j, k),
            nodes: row.nodes.with(j, n).with(k, m),
        }
    } else {
        row
    }
}

// ---- the whole

// As `trim_all` but for the step: the contract of one function over any step would be longer than both.
#[tactic(auto, unfolding(netlists::specs::Normal::all_grounded))]
fn ground_all(mut row: Row) -> Row
    ensures { result ≡ all_grounded row }
{
    for v in Variable::ALL {
        row = ground(row, v);
    }
    row
}

// One line each: with loops over lists of pairs, here and in `order_all`, the whole is twice as slow.
#[tactic(auto, unfolding(netlists::specs::Normal::all_unified))]
fn unify_all(row: Row) -> Row
    ensures { result ≡ all_unified row }
{
    let row = unify(row, Variable::V0, Variable::V1);
    let row = unify(row, Variable::V0, Variable::V2);
    let row = unify(row, Variable::V0, Variable::V3);
    let row = unify(row, Variable::V1, Variable::V2);
    let row = unify(row, Variable::V1, Variable::V3);
    unify(row, Variable::V2, Variable::V3)
}

#[tactic(auto, unfolding(netlists::specs::Normal::all_trimmed))]
fn trim_all(mut row: Row) -> Row
    ensures { result ≡ all_trimmed row }
{
    for v in Variable::ALL {
        row = trim(row, v);
    }
    row
}

// Five comparisons sort four nodes.
#[tactic(auto, unfolding(netlists::specs::Normal::all_ordered))]
fn order_all(row: Row) -> Row
    ensures { result ≡ all_ordered row }
{
    let row = order(row, Variable::V0, Variable::V1);
    let row = order(row, Variable::V2, Variable::V3);
    let row = order(row, Variable::V0, Variable::V2);
    let row = order(row, Variable::V1, Variable::V3);
    order(row, Variable::V1, Variable::V2)
}

// A table that is true at index 0 is inverted, and so is the form.
#[tactic(auto, using(crate::proofs::Ways::at_zero_true, crate::proofs::Ways::at_zero_false), unfolding(netlists::specs::Normal::settled))]
fn settle(row: Row) -> Form
    ensures { result ≡ settled row }
{
    if row.table & 1 == 1 {
        Form {
            row: Row {
                table: invert(row.table),
                ..row
            },
            inverted: true,
        }
    } else {
        Form {
            row,
            inverted: false,
        }
    }
}

/// A table over four signals, as a table over the nodes that it depends on: ascending, and false at index 0. It is the only
/// such form of that function of the nodes.
#[tactic(auto, using(netlists::proofs::Unique::normal_form_of), unfolding(netlists::specs::Normal::reduced, netlists::specs::Normal::normal))]
pub fn normal_form(f: Table, fanins: Fanins) -> Form
    ensures is { result ≡ normal f fanins }
    ensures means { FormOf f fanins result }
{
    settle(order_all(trim_all(unify_all(ground_all(enter(f, fanins))))))
}
