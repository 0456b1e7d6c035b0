//! Order books: what a book means, the one interface to it, and the one table that keeps orders.
#![tactic(auto)]

pub mod book;
pub mod card_book;
pub mod fault;
pub mod limits;
pub mod reader;
mod table;
