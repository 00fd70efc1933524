//! What a coding of rows is.
ghost use Rattle.std.specs.Prelude.{◌≡◌, true};
ghost use Rattle.classes.specs.declared.Ownership.{Ownership};
ghost use Rattle.netlists.specs.declared.Row.{Row};
ghost use Rattle.netlists.specs.Lawful.{LawfulRow};
ghost use Rattle.codings.specs.Coders.{Coder, Lawful};

use classes::Ownership;
use netlists::Row;

/// A coding of rows in `W` words. A row that it codes comes back as it was, so two such rows have the same words exactly
/// where they are equal; other rows have some words too, and come back as other rows.
pub trait Coding<const W: usize> {
    ghost coder: { Coder };

    ghost ownership: { Ownership };

    /// The words of a row.
    fn encode(row: Row) -> [u16; W]
        ensures words { result ≡ coder.encode row }
        ensures back { coder.codes row ≡ true → coder.decode result ≡ row };

    /// The row that some words are of.
    fn decode(words: &[u16; W]) -> Row
        ensures { result ≡ coder.decode words.now };

    /// The classes that the rows' tables are of.
    fn ownership() -> Ownership
        ensures { result ≡ ownership };

    // A row that is coded comes back from its words, which are two to five.
    ghost lawful: { Lawful W coder };

    // A row that a network of these classes may hold is coded.
    ghost owned_coded: { (r : Row) → LawfulRow ownership 1024 r → coder.codes r ≡ true };
}
