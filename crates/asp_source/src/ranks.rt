//! How old the sources of atoms are.
ghost use Rattle.std.specs.Prelude.{◌≡◌, ◌+◌, ◌^◌, ◌<◌, false, IfOk, length, slice_index};
ghost use Rattle.asp_source.specs.Ranks.{raised, IsRanking};

use asp_vars::lit::Var;
use std::alloc::{AllocError, Global};
use std::marker::Model;

/// A rank for each atom, by its variable. The atom that was raised last has the greatest.
#[derive(Drop)]
pub struct Ranks {
    /// The ranks, by variable; 0 is no atom.
    ranks: Vec<u64>,
    /// Greater than all of them.
    clock: u64,
}

impl Model for Ranks {
    ghost use Rattle.asp_source.specs.Ranks.{Ranking, IsRanking};

    ghost Value = { Ranking };

    ghost view = { λ r. record { ranks = r.ranks.items; clock = r.clock } };

    ghost invariant = { λ r. IsRanking r.ranks.items r.clock };
}

impl Ranks {
    /// The same rank for each of so many variables.
    pub fn new(alloc: Global, count: usize) -> Result<Ranks, AllocError>
        ensures size { IfOk result (λ r. length r.ranks ≡ count) }
        ensures clock { IfOk result (λ r. r.clock ≡ 1) }
    {
        let ranks = vec![in alloc; 0 as u64; count]?;
        Ok(Ranks { ranks, clock: 1 })
    }

    /// All ranks are the same again.
    pub fn renew(&mut self)
        ensures size { length self.new.ranks ≡ length self.old.ranks }
        ensures clock { self.new.clock ≡ 1 }
    {
        self.ranks.as_mut_slice().fill(0);
        self.clock = 1;
    }

    /// An atom's rank.
    pub fn of(&self, var: Var) -> u64
        requires { var < length self.now.ranks }
        ensures { result ≡ slice_index self.now.ranks var }
    {
        self.ranks[var as usize]
    }

    /// The atom gets a rank above all others.
    pub fn raise(&mut self, var: Var)
        requires var { var < length self.old.ranks }
        requires time { self.old.clock + 1 < 2 ^ 64 }
        ensures raised { self.new ≡ raised self.old var }
        ensures above { IsRanking self.old.ranks self.old.clock }
    {
        self.ranks[var as usize] = self.clock;
        self.clock += 1;
    }

    /// Whether ranks may soon run out. Below that there are 2 ^ 63 more.
    pub fn is_full(&self) -> bool
        ensures { result ≡ false → self.now.clock < 2 ^ 63 }
    {
        self.clock >= 1 << 63
    }
}
