//! A row alike, or a new last row.
ghost use Rattle.std.specs.Prelude.{◌≡◌, true, MatchResult};
ghost use Rattle.gates.specs.Keeping.{RowKept, RowRefused};

use codings::Coding;
use netlists::{Refusal, Row};
use stores::Store;

/// Answers the number of the row alike, or of a new last row where there is a place.
pub fn keep_row<C: Coding<W>, const W: usize>(
    store: &mut Store<C, W>,
    row: Row,
) -> Result<usize, Refusal>
    requires { C.coder.codes row ≡ true }
    ensures { MatchResult result (λ k. RowKept store.old store.new row k) (λ e. RowRefused store.old store.new row e) }
{
    if let Some(k) = store.find(row) {
        return Ok(k);
    }
    store.push(row).map_err(|_| Refusal::NoPlace)
}
