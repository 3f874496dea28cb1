//! Units of work, and the conflicts that pay for them.
ghost use Rattle.std.specs.Prelude.{◌≡◌, ◌+◌, ◌-◌, ◌<◌, ◌≤◌, ◌^◌, ◌||◌, false, None, List, length, max};
ghost use Rattle.std.specs.Option.{is_some, option_copied};
ghost use Rattle.asp_model.specs.Consequences.{used_up};
ghost use Rattle.asp_model.specs.Sets.{Atoms};
ghost use Rattle.asp_vars.specs.Conflicts.{IsConflict};
ghost use Rattle.asp_vars.specs.Paid.{least_of, IsPaid, IsClash};

use crate::compiled::Compiled;
use crate::lit::Lit;
use crate::origin::Origin;
use asp_model::cost::Cost;
use asp_model::program::Program;
use asp_model::results::Reasoning;
use std::marker::Model;

/// A conflict that a search met. It is spent where a unit is burnt, and can't be copied.
#[derive(Drop)]
pub struct Conflict {
    /// The program that was searched, as a fact without bytes.
    program: Origin<Program>,
    /// The literals of the path.
    cube: Vec<Lit>,
    /// The decisions under the path, the oldest first.
    decisions: Vec<Lit>,
    /// The literals of the nogood that was violated, all true.
    nogood: Vec<Lit>,
    /// Which consequences were sought, if any were.
    reasoning: Option<Reasoning>,
    /// How many answers were known.
    known: u64,
    /// The cost below which answers were sought.
    bound: Option<Cost>,
}

impl Model for Conflict {
    ghost use Rattle.asp_vars.specs.Paid.{Clash, IsClash};

    ghost Value = { Clash };

    ghost view = { λ x. record { program = x.program.value; cube = x.cube.items; decisions = x.decisions.items; nogood = x.nogood.items; reasoning = x.reasoning; known = x.known; bound = x.bound } };

    ghost invariant = { λ x. IsClash (record { program = x.program.value; cube = x.cube.items; decisions = x.decisions.items; nogood = x.nogood.items; reasoning = x.reasoning; known = x.known; bound = x.bound }) };
}

impl Conflict {
    /// A conflict of the program that was met below a cube, by so many known answers and this bound, in a search for all answers
    /// or for consequences. It takes no memory.
    pub fn of(
        compiled: &Compiled,
        cube: Vec<Lit>,
        decisions: Vec<Lit>,
        nogood: Vec<Lit>,
        reasoning: Option<Reasoning>,
        known: u64,
        bound: Option<Cost>,
    ) -> Conflict
        requires { (answers : List Atoms) × (length answers ≡ known) × IsConflict compiled.now (used_up reasoning compiled.now answers) bound cube.items decisions.items nogood.items }
        ensures { result ≡ record { program = compiled.now; cube = cube.items; decisions = decisions.items; nogood = nogood.items; reasoning = reasoning; known = known; bound = bound } }
    {
        Conflict {
            program: Origin::of(compiled.program()),
            cube,
            decisions,
            nogood,
            reasoning,
            known,
            bound,
        }
    }
}

// The smaller of those that stand.
fn least(first: Option<Cost>, second: Option<Cost>) -> Option<Cost>
    ensures { result ≡ least_of first second }
{
    match (first, second) {
        (None, d) => d,
        (Some(c), None) => Some(c),
        (Some(c), Some(d)) => { if d < c { Some(d) } else { Some(c) } }
    }
}

/// Units of a program's search. For each that was burnt a conflict was spent; that these differ isn't said.
#[derive(Drop)]
pub struct Fuel {
    /// The program that is searched, as a fact without bytes.
    program: Origin<Program>,
    /// How many conflicts may still be met.
    left: u64,
    /// How many were met.
    burnt: u64,
    /// Whether a conflict was one of a search for consequences.
    reasoned: bool,
    /// The most answers that were known at a conflict.
    known: u64,
    /// The least bound that stood at a conflict.
    least: Option<Cost>,
}

impl Model for Fuel {
    ghost use Rattle.std.specs.Prelude.{◌+◌, ◌<◌, ◌^◌};
    ghost use Rattle.asp_vars.specs.Paid.{Units, IsPaid};

    ghost Value = { Units };

    ghost view = { λ f. record { program = f.program.value; left = f.left; burnt = f.burnt; reasoned = f.reasoned; known = f.known; least = f.least } };

    ghost invariant = { λ f. (f.left + f.burnt < 2 ^ 64) × IsPaid (record { program = f.program.value; left = f.left; burnt = f.burnt; reasoned = f.reasoned; known = f.known; least = f.least }) };
}

impl Fuel {
    /// So many units of the program's search, none of them burnt. It takes no memory.
    pub fn of(compiled: &Compiled, units: u64) -> Fuel
        ensures { result ≡ record { program = compiled.now; left = units; burnt = 0; reasoned = false; known = 0; least = None } }
    {
        Fuel {
            program: Origin::of(compiled.program()),
            left: units,
            burnt: 0,
            reasoned: false,
            known: 0,
            least: None,
        }
    }

    /// The units that are left.
    pub fn left(&self) -> u64
        ensures left { result ≡ self.now.left }
        ensures fits { self.now.left + self.now.burnt < 2 ^ 64 }
    {
        self.left
    }

    /// The units that were burnt, for each of which there is a conflict.
    pub fn burnt(&self) -> u64
        ensures burnt { result ≡ self.now.burnt }
        ensures fits { self.now.left + self.now.burnt < 2 ^ 64 }
        ensures paid { IsPaid self.now }
    {
        self.burnt
    }

    /// Whether a conflict of a search for consequences was burnt.
    pub fn reasoned(&self) -> bool
        ensures { result ≡ self.now.reasoned }
    {
        self.reasoned
    }

    /// The most answers that a burnt conflict knew.
    pub fn known(&self) -> u64
        ensures { result ≡ self.now.known }
    {
        self.known
    }

    /// The least bound of a burnt conflict, if one had a bound.
    pub fn least(&self) -> Option<&Cost>
        ensures { option_copied result ≡ self.now.least }
    {
        self.least.as_ref()
    }

    /// Burns a unit, for which the conflict pays.
    pub fn burn(&mut self, conflict: Conflict)
        requires left { 0 < self.old.left }
        requires program { conflict.program ≡ self.old.program }
        ensures { self.new ≡ record { program = self.old.program; left = self.old.left - 1; burnt = self.old.burnt + 1; reasoned = self.old.reasoned || is_some conflict.reasoning; known = max self.old.known conflict.known; least = least_of self.old.least conflict.bound } }
    {
        let Conflict {
            program: _,
            cube: _,
            decisions: _,
            nogood: _,
            reasoning,
            known,
            bound,
        } = conflict;
        self.left -= 1;
        self.burnt += 1;
        self.reasoned |= reasoning.is_some();
        self.known = self.known.max(known);
        self.least = least(self.least.take(), bound);
    }

    /// Takes n of the units that are left to a fuel of its own, of the same program. It takes no memory.
    pub fn part(&mut self, n: u64) -> Fuel
        requires { n ≤ self.old.left }
        ensures part { result ≡ record { program = self.old.program; left = n; burnt = 0; reasoned = false; known = 0; least = None } }
        ensures rest { self.new ≡ record self.old { left = self.old.left - n } }
    {
        self.left -= n;
        Fuel {
            program: self.program.again(),
            left: n,
            burnt: 0,
            reasoned: false,
            known: 0,
            least: None,
        }
    }

    /// Puts the units of another fuel to these.
    pub fn merge(&mut self, other: Fuel)
        requires program { other.program ≡ self.old.program }
        requires fits { self.old.left + self.old.burnt + other.left + other.burnt < 2 ^ 64 }
        ensures { self.new ≡ record { program = self.old.program; left = self.old.left + other.left; burnt = self.old.burnt + other.burnt; reasoned = self.old.reasoned || other.reasoned; known = max self.old.known other.known; least = least_of self.old.least other.least } }
    {
        let Fuel {
            program: _,
            left,
            burnt,
            reasoned,
            known,
            least: other_least,
        } = other;
        self.left += left;
        self.burnt += burnt;
        self.reasoned |= reasoned;
        self.known = self.known.max(known);
        self.least = least(self.least.take(), other_least);
    }
}
