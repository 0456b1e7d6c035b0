//! Cards worked by hand, as facts about the definitions of the readings.

ghost use Rattle.cards.specs.Worked.{WorkedCards};

/// Small cards are read and refused as worked by hand.
pub fn worked_cards()
    ensures { WorkedCards }
{}
