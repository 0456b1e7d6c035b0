//! The figures of a round, and its choices of brews to open.
#![tactic(auto)]

mod brew_set;
pub mod choice;
pub mod fault;
pub mod figures;
pub mod limits;
