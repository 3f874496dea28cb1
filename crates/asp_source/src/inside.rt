//! Sets of atoms from outside of which bodies are read.
ghost use Rattle.std.specs.Prelude.{◌≡◌, ◌<◌, length};
ghost use Rattle.asp_source.specs.Marks.{is_marked};
ghost use Rattle.asp_source.specs.Ranks.{is_above};

use crate::ranks::Ranks;
use asp_scc::components::Components;
use asp_vars::lit::Var;

/// A set of atoms, which are named by their variables.
pub trait Inside {
    ghost use Rattle.std.specs.Prelude.{ℕ, Bool};

    /// Whether the atom of a variable is in the set.
    ghost has_var: { Self → ℕ → Bool };

    /// The variables are below it.
    ghost limit: { Self → ℕ };

    /// Whether the atom of a variable is in the set.
    fn is_inside(&self, var: Var) -> bool
        requires { var < limit self.now }
        ensures { result ≡ has_var self.now var };
}

/// The candidates of a look.
#[derive(Drop)]
pub struct Candidates<'a> {
    /// By variable, whether the atom is one.
    pub loose: &'a [bool],
}

impl<'a> Inside for Candidates<'a> {
    ghost has_var = { λ c v. is_marked c.loose.now v };

    ghost limit = { λ c. length c.loose.now };

    fn is_inside(&self, var: Var) -> bool {
        self.loose[var as usize]
    }
}

/// What an atom's source mustn't rest on, so that it doesn't come to rest on the atom itself: candidates, and the atoms
/// of its component that aren't older.
#[derive(Drop)]
pub struct Above<'a> {
    /// By variable, whether the atom is a candidate.
    pub loose: &'a [bool],
    /// The components of the program.
    pub components: &'a Components,
    /// The ranks of its atoms.
    pub ranks: &'a Ranks,
    /// The atom's component.
    pub component: u32,
    /// The atom's rank.
    pub rank: u64,
    ghost numbered: { length components.now.numbers ≡ length loose.now },
    ghost ranked: { length ranks.now.ranks ≡ length loose.now },
}

impl<'a> Inside for Above<'a> {
    ghost has_var = { λ s v. is_above s.components.now s.ranks.now.ranks (is_marked s.loose.now) s.component s.rank v };

    ghost limit = { λ s. length s.loose.now };

    fn is_inside(&self, var: Var) -> bool {
        if self.components.of(var) != self.component {
            return false;
        }
        if self.loose[var as usize] {
            return true;
        }
        self.rank <= self.ranks.of(var)
    }
}
