//! Making a choice from a list.

ghost use Rattle.choices.specs.Lists.{FromList, Gathered};

use crate::brew_set::BrewSet;
use crate::choice::Choice;
use crate::fault::ChoiceFault;
use crate::figures::Figures;

/// The set of the brews that a list names.
fn gather(figures: Figures, list: &[u8]) -> Result<BrewSet, ChoiceFault>
    ensures { Gathered figures.brews list.now result }
{
    let mut set = BrewSet::new(figures);
    for (k, &brew) in list.iter().enumerate() {
        if !set.insert(usize::from(brew)) {
            return Err(ChoiceFault::Entry { entry: k + 1 });
        }
    }
    Ok(set)
}

impl Choice {
    /// The choice of the brews in a list, which may stand in any order.
    pub fn from_list(figures: Figures, list: &[u8]) -> Result<Choice, ChoiceFault>
        ensures { FromList figures list.now result }
    {
        if list.len() != figures.opened() {
            return Err(ChoiceFault::Length);
        }
        let set = gather(figures, list)?;
        Ok(Choice {
            figures,
            bits: set.bits,
        })
    }
}
