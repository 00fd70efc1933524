// Networks of gates over words that the caller gives, for every coding of rows.
#![tactic(auto)]

pub mod gates;
mod keeping;

pub use gates::Gates;
