//! The rule of the words.

use crate::View;
use atomic_table::TableRule;
use tko_model::Settings;

/// The words and the passes are a state of the core, and the servers are the replay of the history.
pub struct WordsRule;

impl TableRule<(), View, Settings> for WordsRule {
    ghost use Rattle.tko_table.specs.Passes.{new_passes};
    ghost use Rattle.tko_table.specs.Rule.{IsKept};

    ghost holds = { λ settings state. IsKept settings state.words state.views };

    ghost first = { new_passes };
}
