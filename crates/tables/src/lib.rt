// Tables of four variables: values, cofactors, support and composition, sixteen bits at a time.
#![tactic(auto)]

pub mod per_variable;

ghost use Rattle.std.specs.Prelude.{◌≡◌, ◌+◌, ◌*◌, ◌^◌, ◌<◌, ◌≤◌, true, false, if◌then◌else◌, ℕ, length, slice_index};
ghost use Rattle.tables.specs.Bits.{bit};
ghost use Rattle.tables.specs.Settings.{Setting, span_of, variable_number};
ghost use Rattle.tables.specs.Tables.{value, variable, complement, chosen, cofactor, depends_on, lowest, flipped, moved_up, constant, composed};

pub use per_variable::{PerVariable, VARIABLES};
use std::array;

/// A function of four variables: bit `i` is the value at the setting that gives each variable `k` bit `k` of `i`.
pub type Table = u16;

/// One of the four variables of a table.
#[derive(Clone, Copy, PartialEq, Eq, Debug)]
pub enum Variable {
    V0,
    V1,
    V2,
    V3,
}

impl Variable {
    /// The four, the lowest first.
    pub const ALL: [Variable; 4] = [Variable::V0, Variable::V1, Variable::V2, Variable::V3];
}

/// The number of a variable, from 0 to 3.
impl From<Variable> for u8 {
    ghost from_gives = { λ v n. n ≡ variable_number v };

    fn from(v: Variable) -> u8 {
        v as u8
    }
}

/// The tables that are false and true everywhere.
pub const FALSE: Table = 0x0000;

pub const TRUE: Table = 0xFFFF;

/// The table of a variable.
#[tactic(auto, unfolding(crate::specs::Tables::variable, crate::specs::Tables::table_of, crate::specs::Bits::from_bits))]
pub fn variable_table(v: Variable) -> Table
    ensures { result ≡ variable v }
{
    match v {
        Variable::V0 => 0xAAAA,
        Variable::V1 => 0xCCCC,
        Variable::V2 => 0xF0F0,
        Variable::V3 => 0xFF00,
    }
}

/// The inverted table.
#[tactic(auto, using(crate::proofs::Laws::complement_code))]
pub fn invert(f: Table) -> Table
    ensures { result ≡ complement f }
{
    !f
}

/// `high` where `z` is true, and `low` elsewhere.
#[tactic(auto, using(crate::proofs::Laws::chosen_code))]
pub fn choose(z: Table, high: Table, low: Table) -> Table
    ensures { result ≡ chosen z high low }
{
    (high & z) | (low & !z)
}

// How far apart the two indices are that differ in `v` alone.
fn span(v: Variable) -> u32
    ensures { result ≡ span_of v }
{
    1 << u8::from(v)
}

// Each value moved up by the span of `v`: where `v` is 1, the value with `v` at 0.
#[tactic(auto, using(crate::proofs::Laws::low_code))]
fn move_up(f: Table, v: Variable) -> Table
    ensures moved { result ≡ moved_up f v }
    ensures low { chosen (variable v) result f ≡ cofactor f v false }
{
    f << span(v)
}

// Each value moved down by the span of `v`: where `v` is 0, the value with `v` at 1.
#[tactic(auto, using(crate::proofs::Laws::high_code, crate::proofs::Laws::flip_code))]
fn move_down(f: Table, v: Variable) -> Table
    ensures high { chosen (variable v) f result ≡ cofactor f v true }
    ensures both { chosen (variable v) (moved_up f v) result ≡ flipped f v }
{
    f >> span(v)
}

/// The table with `v` fixed: at 1 where `high` is true, and at 0 elsewhere. A table is another name for a number, so
/// this is no method of it.
pub fn cofactor(f: Table, v: Variable, high: bool) -> Table
    ensures { result ≡ cofactor f v high }
{
    if high {
        choose(variable_table(v), f, move_down(f, v))
    } else {
        choose(variable_table(v), move_up(f, v), f)
    }
}

/// The table with `v` inverted.
pub fn flip_variable(f: Table, v: Variable) -> Table
    ensures { result ≡ flipped f v }
{
    choose(variable_table(v), move_up(f, v), move_down(f, v))
}

/// Whether `v` is in the support.
#[tactic(auto, unfolding(crate::specs::Tables::depends_on))]
pub fn depends_on(f: Table, v: Variable) -> bool
    ensures { result ≡ depends_on f v }
{
    cofactor(f, v, false) != cofactor(f, v, true)
}

/// The lowest variable of the support.
pub fn lowest_variable(f: Table) -> Option<Variable>
    ensures { result ≡ lowest f }
{
    Variable::ALL.iter().copied().find(|v| depends_on(f, *v))
}

// The constant that bit `i` of `f` is.
#[tactic(auto, using(crate::proofs::Laws::leaf_true, crate::proofs::Laws::leaf_false))]
fn leaf(f: Table, i: usize) -> Table
    requires { i < 16 }
    ensures { result ≡ constant (bit f i) }
{
    if (f >> i) & 1 == 1 { TRUE } else { FALSE }
}

// Half as many tables: each is chosen by `z` from the two beside each other.
fn choose_each<const N: usize>(z: Table, parts: &[Table]) -> [Table; N]
    requires { (length parts.now ≡ 2 * N) × (N ≤ 8) }
    ensures { (x : Setting) (k : ℕ) → k < N → value (slice_index result k) x ≡ value (slice_index parts.now (2 * k + (if value z x then 1 else 0))) x }
{
    array::from_fn(|k| choose(z, parts[2 * k + 1], parts[2 * k]))
}

/// The table of `f` with four tables in the place of its variables.
pub fn compose(f: Table, inputs: PerVariable<Table>) -> Table
    ensures { result ≡ composed f inputs.a inputs.b inputs.c inputs.d }
{
    let sixteenths: [Table; 16] = array::from_fn(|i| leaf(f, i));
    let eighths: [Table; 8] = choose_each(inputs.a, &sixteenths);
    let quarters: [Table; 4] = choose_each(inputs.b, &eighths);
    let halves: [Table; 2] = choose_each(inputs.c, &quarters);
    choose(inputs.d, halves[1], halves[0])
}
