// The rows of a network, kept in order in the caller's 16-bit words.
#![tactic(auto)]

mod blocks;
pub mod store;

pub use lists::Full;
pub use store::Store;
