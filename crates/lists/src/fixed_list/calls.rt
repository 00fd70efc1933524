//! What is asked of a list, and what alters it.
ghost use Rattle.std.specs.Prelude.{◌≡◌, ◌<◌, [], ◌∷◌, ◌++◌, length, MatchResult, slice_get, slice_set, ◌+◌};
ghost use Rattle.lists.specs.Lists.{listed};

use crate::Full;
use crate::fixed_list::FixedList;

impl<T: Copy, const N: usize> FixedList<T, N> {
    /// No item; `blank` fills the memory.
    pub fn new(blank: T) -> Self
        ensures listed { listed result ≡ [] }
        ensures count { result.count ≡ 0 }
    {
        FixedList {
            items: [blank; N],
            count: 0,
        }
    }

    /// How many items there are.
    pub fn len(&self) -> usize
        ensures { result ≡ length (listed self.now) }
    {
        self.as_slice().len()
    }

    /// Item `i`, counted from 0, if there is one.
    pub fn get(&self, i: usize) -> Option<T>
        ensures { result ≡ slice_get (listed self.now) i }
    {
        self.as_slice().get(i).copied()
    }

    /// The items, in order.
    pub fn as_slice(&self) -> &[T]
        ensures { result.now ≡ listed self.now }
    {
        &self.items[..self.count]
    }

    /// One item more, where there is room for it. No other place of the memory is written.
    pub fn push(&mut self, item: T)
        requires { length (listed self.old) < N }
        ensures listed { listed self.new ≡ listed self.old ++ item ∷ [] }
        ensures items { self.new.items ≡ slice_set self.old.items self.old.count item }
        ensures count { self.new.count ≡ self.old.count + 1 }
    {
        self.items[self.count] = item;
        self.count += 1;
    }

    /// One item more, or `Full`, with nothing changed, where there is no room.
    pub fn try_push(&mut self, item: T) -> Result<(), Full>
        ensures { MatchResult result (λ _. (length (listed self.old) < N) × (listed self.new ≡ listed self.old ++ item ∷ []))
            (λ _. (length (listed self.old) ≡ N) × (self.new ≡ self.old)) }
    {
        if self.count == N {
            return Err(Full);
        }
        self.push(item);
        Ok(())
    }

    /// Takes every item away.
    pub fn clear(&mut self)
        ensures { listed self.new ≡ [] }
    {
        self.count = 0;
    }
}
