// How a row of a network is written as 16-bit words: the four codings.
#![tactic(auto)]

pub mod coding;
pub mod every;
mod near;
pub mod pairs;
pub mod triples;

pub use coding::Coding;
pub use every::Every;
pub use pairs::{And, AndXor};
pub use triples::Majority;
