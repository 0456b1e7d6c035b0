//! Questions asked of two order books and a list of the takers' brews.
#![tactic(auto)]

pub mod compare;
pub mod envy;
pub mod lots;
pub mod market;
pub mod missing;
pub mod place;
