//! What a board is to find.
ghost use Rattle.std.specs.Prelude.{◌≡◌};
ghost use Rattle.asp_core.specs.Boards.{goal_of};

use asp_model::cost::Cost;
use asp_model::results::{Mode, Reasoning};

/// What a board is to find.
#[derive(Drop)]
pub enum Goal {
    /// Every answer.
    Enum,
    /// An answer that none betters.
    Opt,
    /// Every answer below a cost, where one is given.
    Ties(Option<Cost>),
    /// What holds in some answer, or in every one; and whether the atoms of outputs alone are asked for.
    Consequences(Reasoning, bool),
}

impl Goal {
    /// The goal of a mode's first search; `by_name` says whether consequences are asked for by name.
    pub fn of(mode: Mode, by_name: bool) -> Goal
        ensures { result ≡ goal_of mode by_name }
    {
        match mode {
            Mode::Enum => Goal::Enum,
            Mode::Opt => Goal::Opt,
            Mode::Consequences(reasoning) => Goal::Consequences(reasoning, by_name),
        }
    }
}
