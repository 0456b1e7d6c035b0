//! A waiting line, first in, first out: a ring buffer over a slice that is
//! handed to its functions.
#![tactic(auto)]

pub mod fault;
pub mod ring;

pub use fault::LineFault;
pub use ring::Line;
