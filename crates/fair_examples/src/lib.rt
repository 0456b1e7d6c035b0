//! Rounds worked by hand: what the definitions of fair allotment make of them.
#![tactic(auto)]

ghost use Rattle.std.specs.Prelude.{◌≡◌, [], ◌∷◌};
ghost use Rattle.fair.specs.Choices.{choices};
ghost use Rattle.fair_examples.specs.Worked.{list3, six_takers, WorkedRounds};

/// The small rounds come out as worked by hand.
pub fn worked_rounds()
    ensures { WorkedRounds }
{}

/// The choices of three brews out of five, by ordinal.
pub fn ten_choices()
    ensures { choices six_takers.figures ≡ (list3 1 2 3 ∷ list3 1 2 4 ∷ list3 1 2 5 ∷ list3 1 3 4 ∷ list3 1 3 5 ∷ list3 1 4 5 ∷ list3 2 3 4 ∷ list3 2 3 5 ∷ list3 2 4 5 ∷ list3 3 4 5 ∷ []) }
{}
