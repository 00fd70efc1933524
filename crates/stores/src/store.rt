//! A list of rows over words that the caller gives.
pub mod calls;
pub mod questions;

ghost use Rattle.std.specs.Prelude.{◌≡◌, ◌≤◌, true, map, vec_len};
ghost use Rattle.std.specs.List.{list_all};
ghost use Rattle.stores.specs.Blocks.{places_in, blocks, rows_in};

use codings::Coding;
use std::marker::PhantomData;

/// Rows in order, each in as many words as the coding has, and a count of places that never changes.
/// The rows are of those that the coding codes, and their words are as it writes them. The words are the caller's, so the
/// count stands beside them.
#[derive(Drop)]
pub struct Store<C: Coding<W>, const W: usize> {
    words: Vec<u16>,
    count: usize,
    places: usize,
    coding: PhantomData<C>,
    ghost room: { places ≡ places_in W (vec_len words) },
    ghost within: { count ≤ places },
    ghost coded: { list_all C.coder.codes (rows_in C.coder W words.items count) ≡ true },
    ghost written: { map C.coder.encode (rows_in C.coder W words.items count) ≡ blocks W words.items count },
}
