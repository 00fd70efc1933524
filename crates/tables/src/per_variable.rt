//! One thing for each of the four variables.
ghost use Rattle.std.specs.Prelude.{◌≡◌, true, false};
ghost use Rattle.tables.specs.PerVariable.{at, put};

use crate::Variable;

/// One thing for each variable of a table, as the four signals that a table is placed over.
#[derive(Clone, Copy, PartialEq, Eq, Debug)]
pub struct PerVariable<T> {
    pub a: T,
    pub b: T,
    pub c: T,
    pub d: T,
}

/// Each variable, at its own place.
pub const VARIABLES: PerVariable<Variable> = PerVariable {
    a: Variable::V0,
    b: Variable::V1,
    c: Variable::V2,
    d: Variable::V3,
};

impl<T: Copy> PerVariable<T> {
    /// The same thing for each variable.
    pub fn splat(x: T) -> Self
        ensures { result ≡ record { a = x; b = x; c = x; d = x } }
    {
        PerVariable {
            a: x,
            b: x,
            c: x,
            d: x,
        }
    }

    /// What stands for a variable.
    pub fn at(self, v: Variable) -> T
        ensures { result ≡ at self v }
    {
        match v {
            Variable::V0 => self.a,
            Variable::V1 => self.b,
            Variable::V2 => self.c,
            Variable::V3 => self.d,
        }
    }

    /// The same, but for one variable.
    pub fn with(self, v: Variable, x: T) -> Self
        ensures { result ≡ put self v x }
    {
        match v {
            Variable::V0 => PerVariable { a: x, ..self },
            Variable::V1 => PerVariable { b: x, ..self },
            Variable::V2 => PerVariable { c: x, ..self },
            Variable::V3 => PerVariable { d: x, ..self },
        }
    }

    /// What a function answers for each.
    pub fn map<U, F: Fn(T) -> U>(self, f: F) -> PerVariable<U>
        requires { F.IsAlwaysCallable f }
        ensures a { F.post f self.a result.a }
        ensures b { F.post f self.b result.b }
        ensures c { F.post f self.c result.c }
        ensures d { F.post f self.d result.d }
    {
        PerVariable {
            a: f(self.a),
            b: f(self.b),
            c: f(self.c),
            d: f(self.d),
        }
    }

    /// Whether a test holds of each; it is not asked past the first for which it fails.
    pub fn all<F: Fn(T) -> bool>(self, test: F) -> bool
        requires { F.IsAlwaysCallable test }
        ensures { (result ≡ true → (v : _) → F.post test (at self v) true) × (result ≡ false → (v : _) × F.post test (at self v) false) }
    {
        test(self.a) && test(self.b) && test(self.c) && test(self.d)
    }
}
