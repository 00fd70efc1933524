//! The comparison: it counts what was compared, and where the two differ.
ghost use Rattle.std.specs.Prelude.{◌≡◌, ◌+◌, ◌-◌, ◌^◌, min, if◌then◌else◌};

/// How many things were compared, and how many of them differed.
#[derive(Clone, Copy, Default)]
pub struct Count {
    pub compared: u32,
    pub different: u32,
}

impl Count {
    /// One comparison more.
    pub fn compare<T: PartialEq>(&mut self, seen: &T, due: &T)
        ensures compared { self.new.compared ≡ min (self.old.compared + 1) (2 ^ 32 - 1) }
        ensures different { self.new.different ≡ min (self.old.different + (if T.eq seen.now due.now then 0 else 1)) (2 ^ 32 - 1) }
    {
        self.compared = self.compared.saturating_add(1);
        self.different = self.different.saturating_add(u32::from(*seen != *due));
    }
}
