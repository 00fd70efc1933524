//! Opening and closing a store, and what alters it. Nothing allocates.
ghost use Rattle.std.specs.Prelude.{◌≡◌, true, [], length, vec_len, MatchResult};
ghost use Rattle.stores.specs.Blocks.{places_in};
ghost use Rattle.stores.specs.Stores.{rows_of, Alike, Pushed};

use crate::blocks;
use crate::store::Store;
use codings::Coding;
use lists::Full;
use netlists::Row;
use std::marker::PhantomData;

impl<C: Coding<W>, const W: usize> Store<C, W> {
    /// A store with no rows over these words, which stay as they are; it has as many places as fit into them, up to 544.
    #[tactic(auto, unfolding(crate::specs::Blocks::places_in, crate::specs::Blocks::blocks))]
    pub fn new(words: Vec<u16>) -> Self
        ensures words { result.words ≡ words }
        ensures places { result.places ≡ places_in W (vec_len words) }
        ensures rows { rows_of result ≡ [] }
    {
        let places = (words.len() / W).min(544);
        Store {
            words,
            count: 0,
            places,
            coding: PhantomData,
        }
    }

    /// Gives the words back, as they stand.
    pub fn into_words(self) -> Vec<u16>
        ensures { result ≡ self.words }
    {
        self.words
    }

    /// Adds a row that the coding codes, and answers its number. It is refused where every place is taken, and nothing is altered.
    pub fn push(&mut self, row: Row) -> Result<usize, Full>
        requires { C.coder.codes row ≡ true }
        ensures { MatchResult result (λ n. (n ≡ length (rows_of self.old)) × Pushed self.old self.new row)
            (λ _. (length (rows_of self.old) ≡ self.old.places) × (self.new ≡ self.old)) }
    {
        let n = self.count;
        if n >= self.places {
            return Err(Full);
        }
        blocks::write_block(self.words.as_mut_slice(), W * n, &C::encode(row));
        self.count = n + 1;
        Ok(n)
    }

    /// Takes every row away; the words stay.
    #[tactic(auto, unfolding(crate::specs::Blocks::blocks))]
    pub fn clear(&mut self)
        ensures rows { rows_of self.new ≡ [] }
        ensures words { self.new.words ≡ self.old.words }
        ensures alike { Alike self.old self.new }
    {
        self.count = 0;
    }
}
