//! Lists of live items that are found by their ids, in the order of making: the one form of list that every core keeps;
//! what an event does to one item, and the plan of it; and when an item is due.
#![tactic(auto)]

pub mod fates;
mod ids;
pub mod list;
pub mod place;
pub mod plan;
pub mod times;
