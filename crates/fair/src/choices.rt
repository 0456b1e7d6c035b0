//! The choices of a round, in order, and that they are all there is.

ghost use Rattle.std.specs.Prelude.{◌≡◌, ℕ, ◌<◌, List, length};
ghost use Rattle.fair.specs.Allotments.{Feasible, Over};
ghost use Rattle.fair.specs.Choices.{choice_at, choices, ListsTheChoices};
ghost use Rattle.fair.specs.Markets.{Figures, Market, SoundMarket};

/// The list of the choices has each choice exactly once, and nothing else, in order.
pub fn choices_are_listed()
    ensures { (f : Figures) → ListsTheChoices f (choices f) }
{}

/// There are 11,440 choices of nine brews out of sixteen.
pub fn nine_of_sixteen()
    ensures { length (choices (record { brews = 16; opened = 9; lots = 48; takers = 432 })) ≡ 11440 }
{}

/// Every feasible allotment is over one of the choices.
pub fn feasible_is_over_a_choice()
    ensures { (w : Market) → SoundMarket w → (a : List ℕ) → Feasible w a → (i : ℕ) × (i < length (choices w.figures)) × Over w (choice_at w.figures i) a }
{}
