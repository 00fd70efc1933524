//! What can be asked of a store; nothing is altered.
ghost use Rattle.std.specs.Prelude.{◌≡◌, ◌≤◌, true, length, MatchBool, MatchOption, ◌≢◌};
ghost use Rattle.std.specs.List.{slice_get};
ghost use Rattle.stores.specs.Blocks.{places_in, blocks};
ghost use Rattle.stores.specs.Stores.{rows_of, words_of, Absent, First};

use crate::store::Store;
use codings::Coding;
use netlists::Row;

impl<C: Coding<W>, const W: usize> Store<C, W> {
    /// How many rows there are.
    #[tactic(auto, using(crate::proofs::Stores::rows_count))]
    pub fn len(&self) -> usize
        ensures { result ≡ length (rows_of self.now) }
    {
        self.count
    }

    /// How many rows there can be: as many as fit into the words, up to 544.
    #[tactic(auto, unfolding(crate::specs::Blocks::places_in))]
    pub fn places(&self) -> usize
        ensures held { result ≡ self.now.places }
        ensures fit { result ≡ places_in W (length (words_of self.now)) }
        ensures most { result ≤ 544 }
    {
        self.places
    }

    // The words at each of the first `count` places. The caller says how many, so that each answers for its own count.
    fn blocks(&self, count: usize) -> &[[u16; W]]
        requires { count ≤ self.now.places }
        ensures { result.now ≡ blocks W (words_of self.now) count }
    {
        &self.words.as_slice().as_chunks::<W>().0[..count]
    }

    /// Row i, if there is one.
    pub fn row(&self, i: usize) -> Option<Row>
        ensures { result ≡ slice_get (rows_of self.now) i }
    {
        let block = self.blocks(self.count).get(i)?;
        Some(C::decode(block))
    }

    /// The first row alike, for a row that the coding codes; it compares words and decodes none.
    pub fn find(&self, row: Row) -> Option<usize>
        requires { C.coder.codes row ≡ true }
        ensures { MatchOption result (Absent (rows_of self.now) (length (rows_of self.now)) row) (λ i. First (rows_of self.now) row i) }
    {
        let key = C::encode(row);
        self.blocks(self.count).iter().position(
            |block: &[u16; W]| -> bool
                ensures { MatchBool result (block.now ≡ key) (block.now ≢ key) }
            { *block == key },
        )
    }
}
