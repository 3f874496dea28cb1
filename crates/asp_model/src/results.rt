//! What a run found.
ghost use Rattle.std.specs.Prelude.{◌≡◌};
ghost use Rattle.asp_model.specs.Asked.{limit_of, reasoning_of};

use crate::cost::Cost;
use crate::interp::Interp;

/// Which consequences of a program are asked for.
#[derive(Clone, Copy)]
pub enum Reasoning {
    /// What holds in some answer.
    Brave,
    /// What holds in every answer.
    Cautious,
}

/// What is asked of a program: all its answers, one that none betters, or what holds in some or in every one.
#[derive(Clone, Copy)]
pub enum Mode {
    /// All answers.
    Enum,
    /// One answer that none betters.
    Opt,
    /// The atoms that are in some answer, or in every one.
    Consequences(Reasoning),
}

impl Mode {
    /// Which consequences are asked for, if any are.
    pub fn reasoning(self) -> Option<Reasoning>
        ensures { result ≡ reasoning_of self }
    {
        match self {
            Mode::Enum | Mode::Opt => None,
            Mode::Consequences(reasoning) => Some(reasoning),
        }
    }
}

/// What a run is asked.
#[derive(Clone, Copy)]
pub struct Ask {
    /// Whether all answers are sought, one that costs least, or what holds in some or in all.
    pub mode: Mode,
    /// How many different answers are enough where a list of them is sought. With 0 there is no limit.
    pub models: u64,
    /// Whether an optimisation lists every answer that none betters. The other modes take no notice of it.
    pub all_optima: bool,
    /// Whether of consequences those atoms alone are asked for that are an output's one positive literal. The other modes take no notice
    /// of it.
    pub by_name: bool,
}

impl Ask {
    /// How many different answers are enough where a list of them is sought, and with 0 no limit: there is none where what they have in
    /// common is.
    pub fn limit(self) -> u64
        ensures { result ≡ limit_of self.mode self.models }
    {
        match self.mode {
            Mode::Enum | Mode::Opt => self.models,
            Mode::Consequences(_) => 0,
        }
    }
}

/// How the search ended.
#[derive(Clone, Copy)]
pub enum End {
    /// Nothing is left to be found.
    Finished,
    /// As many answers as asked for were found.
    Limited,
    /// The budget was spent before.
    Unfinished,
}

/// What a run found: in an enumeration the answers, in order; in an optimisation the best one with its cost, where there
/// is one, and a list of those that are as good only where all of them are asked for; of consequences what holds in some or
/// in all of the answers found. `A` is a list of sets, in whatever form.
#[derive(Drop)]
pub struct Results<A> {
    /// Whether all answers were sought, one that costs least, or what holds in some or in all.
    pub mode: Mode,
    /// How the search ended.
    pub end: End,
    /// In an enumeration the answers, in a search for all optima these, strictly ascending; else none.
    pub answers: A,
    /// In an optimisation the cheapest answer found, with its cost; else none.
    pub best: Option<(Interp, Cost)>,
    /// Where consequences were sought the atoms that are in some, or in all, of the answers found; none where none was found, and
    /// else.
    pub known: Option<Interp>,
}
