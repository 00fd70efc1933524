// The 768 transforms of tables of four variables, and the images that they give.
#![tactic(auto)]

ghost use Rattle.std.specs.Prelude.{◌≡◌, ◌<◌};
ghost use Rattle.tables.specs.Bits.{bit, inverted};
ghost use Rattle.tables.specs.Settings.{Setting, variables, same_variable};
ghost use Rattle.std.specs.List.{find};
ghost use Rattle.tables.specs.Tables.{value};
ghost use Rattle.transforms.specs.Orders.{at, numbered, order_at, position_in, IsOrder};
ghost use Rattle.transforms.specs.Images.{image, mask_at, read_from, transform_at};

use tables::Variable::{V0, V1, V2, V3};
use tables::{PerVariable, Table, VARIABLES, Variable, compose, invert, variable_table};

/// An order of the four variables: which variable stands at each position.
#[derive(Clone, Copy, PartialEq, Eq, Debug)]
pub struct Order(PerVariable<Variable>);

/// A transform of a table: whether the output is inverted, the order of the variables, and a mask of four bits
/// that says which inputs are inverted.
#[derive(Clone, Copy, PartialEq, Eq, Debug)]
pub struct Transform {
    output: bool,
    order: Order,
    // Packed: it is `n % 16` of the transform's number `n`, so four fields would only be unpacked from it.
    mask: u8,
}

// The numbers of the variables at the four positions: the table of orders has numbers, by a rule of the project.
#[derive(Clone, Copy)]
struct Numbers(u8, u8, u8, u8);

// The 24 orders, lexicographically.
const ORDERS: [Numbers; 24] = [
    Numbers(0, 1, 2, 3),
    Numbers(0, 1, 3, 2),
    Numbers(0, 2, 1, 3),
    Numbers(0, 2, 3, 1),
    Numbers(0, 3, 1, 2),
    Numbers(0, 3, 2, 1),
    Numbers(1, 0, 2, 3),
    Numbers(1, 0, 3, 2),
    Numbers(1, 2, 0, 3),
    Numbers(1, 2, 3, 0),
    Numbers(1, 3, 0, 2),
    Numbers(1, 3, 2, 0),
    Numbers(2, 0, 1, 3),
    Numbers(2, 0, 3, 1),
    Numbers(2, 1, 0, 3),
    Numbers(2, 1, 3, 0),
    Numbers(2, 3, 0, 1),
    Numbers(2, 3, 1, 0),
    Numbers(3, 0, 1, 2),
    Numbers(3, 0, 2, 1),
    Numbers(3, 1, 0, 2),
    Numbers(3, 1, 2, 0),
    Numbers(3, 2, 0, 1),
    Numbers(3, 2, 1, 0),
];

// The variable of a number; 3 and above is the last.
fn numbered(n: u8) -> Variable
    ensures { result ≡ numbered n }
{
    match n {
        0 => V0,
        1 => V1,
        2 => V2,
        _ => V3,
    }
}

// Order number `q`, which is computed from a transform's number. `IsOrder` is a clause and no invariant of `Order`: the
// definitions make orders of any four variables, and keep those without a repetition.
fn nth_order(q: usize) -> Order
    requires { q < 24 }
    ensures number { result ≡ order_at q }
    ensures order { IsOrder result }
{
    let Numbers(a, b, c, d) = ORDERS[q];
    Order(PerVariable { a, b, c, d }.map(numbered))
}

impl Order {
    /// The variable at position `k`.
    pub fn at(self, k: Variable) -> Variable
        ensures { result ≡ at self k }
    {
        self.0.at(k)
    }

    // The first position at which the order has `v`.
    fn find_position(self, v: Variable) -> Option<Variable>
        ensures { result ≡ find (λ k. same_variable (at self k) v) variables }
    {
        Variable::ALL.iter().copied().find(|k| self.at(*k) == v)
    }

    /// The position at which the order has `v`.
    #[tactic(auto, using(crate::proofs::Orderings::at_position))]
    pub fn position_of(self, v: Variable) -> Variable
        ensures position { result ≡ position_in self v }
        ensures there { IsOrder self → at self result ≡ v }
    {
        self.find_position(v).unwrap_or(V3)
    }
}

// A table, or its inversion.
fn invert_if(inverse: bool, f: Table) -> Table
    ensures { (x : Setting) → value result x ≡ inverted inverse (value f x) }
{
    if inverse { invert(f) } else { f }
}

// Bit `i` of a mask.
fn mask_bit(mask: u8, i: u8) -> bool
    requires { i < 8 }
    ensures { result ≡ bit mask i }
{
    (mask >> i) & 1 == 1
}

impl Transform {
    /// Transform number `n` of the 768: by its output bit, then by its order, then by its mask.
    #[tactic(auto, unfolding(crate::specs::Images::transform_at))]
    pub fn nth(n: usize) -> Transform
        ensures number { result ≡ transform_at n }
        ensures order { IsOrder result.order }
    {
        Transform {
            output: n >= 384,
            order: nth_order(n % 384 / 16),
            mask: (n % 16) as u8,
        }
    }

    /// Whether the output is inverted.
    pub fn output(self) -> bool
        ensures { result ≡ self.output }
    {
        self.output
    }

    /// The order of the variables.
    pub fn order(self) -> Order
        ensures { result ≡ self.order }
    {
        self.order
    }

    /// Whether input `k` is inverted: bit `k` of the mask.
    pub fn inverts(self, k: Variable) -> bool
        ensures { result ≡ mask_at self.mask k }
    {
        mask_bit(self.mask, u8::from(k))
    }

    // What stands for variable `k` of the table.
    fn input_table(self, k: Variable) -> Table
        ensures { (x : Setting) → value result x ≡ read_from self x k }
    {
        invert_if(self.inverts(k), variable_table(self.order.at(k)))
    }

    /// The image of a table: the table read at the inputs that order and mask give, inverted where the output is.
    pub fn image_of(self, f: Table) -> Table
        ensures { result ≡ image self f }
    {
        let inputs = VARIABLES.map(
            |k: Variable| -> Table
                ensures { (x : Setting) → value result x ≡ read_from self x k }
            { self.input_table(k) },
        );
        invert_if(self.output, compose(f, inputs))
    }
}
