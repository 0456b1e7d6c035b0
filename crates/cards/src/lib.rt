//! The kinds of card: each is only a reading, over the one table that keeps orders.
#![tactic(auto)]

mod card;
pub mod examples;
pub mod points;
pub mod written_list;
