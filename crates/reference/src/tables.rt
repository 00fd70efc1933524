//! Tables of four variables, one value at a time.
ghost use Rattle.std.specs.Prelude.{◌≡◌, ◌<◌, ◌^◌, ◌%◌, ℕ};
ghost use Rattle.reference.specs.Tables.{bit, number, from_bits, table, put, fixed, depends_on};

/// A variable of a table.
#[derive(Clone, Copy, PartialEq, Eq)]
pub enum Variable {
    V0,
    V1,
    V2,
    V3,
}

impl Variable {
    /// The four variables.
    pub const ALL: [Variable; 4] = [Variable::V0, Variable::V1, Variable::V2, Variable::V3];

    /// The setting at which it alone is true.
    pub fn bit(self) -> u16
        ensures { result ≡ 2 ^ number self }
    {
        1 << self as u16
    }

    /// Whether it is true at a setting.
    pub fn is_set(self, setting: u16) -> bool
        ensures { result ≡ bit setting (number self) }
    {
        (setting >> self as u16) & 1 == 1
    }

    /// Its table.
    pub fn table(self) -> u16
        ensures { result ≡ table (λ x. bit x (number self)) }
    {
        table_of(
            |x: u16| -> bool
                ensures { result ≡ bit x (number self) }
            { self.is_set(x) },
        )
    }
}

/// The number of the setting with these four values.
pub fn setting_of(values: [bool; 4]) -> u16
    ensures number { result ≡ from_bits values }
    ensures below { result < 16 }
{
    let [a, b, c, d] = values;
    u16::from(a) | u16::from(b) << 1 | u16::from(c) << 2 | u16::from(d) << 3
}

/// The value of a table at a setting.
pub fn value_at(f: u16, setting: u16) -> bool
    ensures { result ≡ bit f (setting % 16) }
{
    (f >> (setting & 15)) & 1 == 1
}

/// The table that has these values.
pub fn table_of<F: Fn(u16) -> bool>(value: F) -> u16
    requires { F.IsAlwaysCallable value }
    ensures { (x : ℕ) → x < 16 → F.post value x (bit result x) }
{
    let mut f = 0;
    for x in 0..16u16 {
        f |= u16::from(value(x)) << x;
    }
    f
}

// A setting with one variable set.
#[tactic(auto, using(crate::proofs::Bits::put_true, crate::proofs::Bits::put_false, crate::proofs::Bits::put_lt))]
fn put(setting: u16, v: Variable, value: bool) -> u16
    ensures put { setting < 16 → result ≡ put setting v value }
    ensures below { setting < 16 → result < 16 }
{
    let bit = v.bit();
    if value { setting | bit } else { setting & !bit }
}

/// The table with a variable fixed.
pub fn fixed(f: u16, v: Variable, value: bool) -> u16
    ensures { result ≡ fixed f v value }
{
    table_of(
        |x: u16| -> bool
            ensures { x < 16 → result ≡ bit f (put x v value) }
        { value_at(f, put(x, v, value)) },
    )
}

/// Whether a table depends on a variable.
pub fn is_used(f: u16, v: Variable) -> bool
    ensures { result ≡ depends_on f v }
{
    let bit = v.bit();
    (0..16u16).any(|x| value_at(f, x) != value_at(f, x ^ bit))
}
