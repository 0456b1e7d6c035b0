//! The best fair allotment over a choice, by deferred acceptance over two order books.
#![tactic(auto)]

pub mod best;
pub mod fault;
mod open_market;
mod prepared;
mod ranking;
mod run;
