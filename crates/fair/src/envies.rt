//! Just envies.

ghost use Rattle.std.specs.Prelude.{◌≡◌, ℕ, List};
ghost use Rattle.fair.specs.Allotments.{envies, Fair, NamesBrews};
ghost use Rattle.fair.specs.Markets.{Market};

/// A list that names a brew for each taker is fair exactly when it has no just envies.
pub fn fair_without_envies()
    ensures { (w : Market) → (a : List ℕ) → NamesBrews w a → (Fair w a → envies w a ≡ 0) × (envies w a ≡ 0 → Fair w a) }
{}
