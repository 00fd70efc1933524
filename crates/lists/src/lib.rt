// Lists in memory of a fixed size.
#![tactic(auto)]

pub mod fixed_list;

pub use fixed_list::FixedList;

/// There is no room for one item more.
#[derive(Clone, Copy, PartialEq, Eq, Debug)]
pub struct Full;
