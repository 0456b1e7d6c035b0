//! Fair allotment: its definitions are in specs/, and each theorem is the contract of a function here.
#![tactic(auto)]

pub mod acceptance;
pub mod books;
pub mod choices;
pub mod envies;
pub mod proposals;
pub mod settlement;
