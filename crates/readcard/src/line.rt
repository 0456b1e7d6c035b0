//! The lines that the program prints.

ghost use Rattle.std.specs.Prelude.{Some};
ghost use Rattle.readcard.specs.Printed.{printed};

use orders::fault::BookFault;
use refusal::Fault;
use std::fmt;

/// A line of the printed answer.
#[derive(Clone, Copy)]
pub enum Line {
    Ok,
    Place { item: usize, place: u16 },
    Refused(BookFault),
}

impl fmt::Display for Line {
    ghost output = { λ line. Some (printed line) };

    fn fmt<W: fmt::Write>(&self, f: &mut fmt::Formatter<W>) -> fmt::Result {
        match self {
            Line::Ok => write!(f, "ok"),
            Line::Place { item, place } => write!(f, "item {item} place {place}"),
            Line::Refused(fault) => write!(f, "refused {}", fault.refusal()),
        }
    }
}
