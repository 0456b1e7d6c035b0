//! Examples for the order books: cards that are read, cards and calls that are refused, and what
//! they leave in the book.
#![tactic(auto)]

#[cfg(test)]
mod tests;
