//! Marks by variable, and the literals of the variables that have one.
ghost use Rattle.std.specs.List.{All};
ghost use Rattle.std.specs.Prelude.{◌≡◌, ◌+◌, ◌<◌, ◌≤◌, ◌++◌, ◌∷◌, [], IfOk, length, count_by, slice_set, true, false};
ghost use Rattle.asp_analyze.specs.Marks.{mark_of, is_clean, is_pending, is_open, is_met, ones, unmarked, Cleaned};

use asp_vars::lit::{Lit, Var};
use std::alloc::{AllocError, Global};
use std::marker::Model;

/// What an analysis knows of a variable.
#[derive(Clone, Copy)]
pub enum Mark {
    /// Nothing.
    Clean,
    /// Its literal is of the conflict's level, and is resolved unless it is the only one of it.
    Pending,
    /// Its literal is of level 0, and wasn't looked at yet.
    Zero,
    /// Its literal stays.
    Kept,
    /// Its literal was resolved with its reason.
    Resolved,
    /// Its literal wasn't met, and isn't known to follow from those that stay.
    Needed,
}

impl Mark {
    /// Whether nothing is known of it.
    pub fn is_clean(self) -> bool
        ensures { result ≡ is_clean self }
    {
        match self {
            Mark::Clean => true,
            Mark::Pending | Mark::Zero | Mark::Kept | Mark::Resolved | Mark::Needed => false,
        }
    }

    /// Whether the literal was met: it is to be learnt, or was resolved.
    pub fn is_met(self) -> bool
        ensures { result ≡ is_met self }
    {
        match self {
            Mark::Clean | Mark::Needed => false,
            Mark::Pending | Mark::Zero | Mark::Kept | Mark::Resolved => true,
        }
    }

    /// Whether the literal was met and wasn't resolved.
    pub fn is_open(self) -> bool
        ensures { result ≡ is_open self }
    {
        match self {
            Mark::Pending | Mark::Zero | Mark::Kept => true,
            Mark::Clean | Mark::Resolved | Mark::Needed => false,
        }
    }

    // 1 for a pending one.
    fn ones(self) -> usize
        ensures value { result ≡ ones self }
        ensures small { result ≤ 1 }
    {
        match self {
            Mark::Pending => 1,
            _ => 0,
        }
    }
}

/// The marks, and each marked variable's literal once, in the order in which they were marked.
#[derive(Drop)]
pub struct Marks {
    /// By variable. One more than the variables; 0 is none.
    marks: Vec<Mark>,
    /// The literals of the variables that have a mark, in the order in which they got it.
    lits: Vec<Lit>,
    /// How many of the marks are pending.
    pending: usize,
}

impl Model for Marks {
    ghost use Rattle.std.specs.Vec.{vec_capacity};
    ghost use Rattle.asp_analyze.specs.Marks.{Marked, AreMarks};

    ghost Value = { Marked };

    ghost view = { λ m. record { marks = m.marks.items; lits = m.lits.items } };

    ghost invariant = { λ m. AreMarks m.marks.items m.lits.items m.pending (vec_capacity m.lits) };
}

// Takes the marks of these variables away.
fn clean(marks: &mut [Mark], lits: &[Lit])
    requires small { All (λ l. l.var < length marks.old) lits.now }
    ensures cleaned { Cleaned marks.old marks.new lits.now }
{
    for lit in lits {
        marks[lit.var() as usize] = Mark::Clean;
    }
}

impl Marks {
    /// No marks, for the variables up to `vars`.
    pub fn new(alloc: Global, vars: u32) -> Result<Marks, AllocError>
        ensures { IfOk result (λ m. m ≡ unmarked (vars + 1)) }
    {
        let marks = vec![in alloc; Mark::Clean; vars as usize + 1]?;
        let mut lits = Vec::new(alloc);
        lits.reserve(vars as usize + 1)?;
        Ok(Marks {
            marks,
            lits,
            pending: 0,
        })
    }

    /// The variable's mark.
    pub fn get(&self, var: Var) -> Mark
        requires { var < length self.now.marks }
        ensures { result ≡ mark_of self.now.marks var }
    {
        self.marks[var as usize]
    }

    /// How many are pending.
    pub fn pending(&self) -> usize
        ensures { result ≡ count_by is_pending self.now.marks }
    {
        self.pending
    }

    /// The number of marked variables.
    pub fn len(&self) -> usize
        ensures len { result ≡ length self.now.lits }
        ensures few { result ≤ length self.now.marks }
    {
        self.lits.len()
    }

    /// The literals of the marked variables, in the order in which they were marked.
    pub fn lits(&self) -> &[Lit]
        ensures value { result.now ≡ self.now.lits }
        ensures small { All (λ l. l.var < length self.now.marks) result.now }
    {
        self.lits.as_slice()
    }

    /// Marks a variable that has no mark.
    pub fn add(&mut self, lit: Lit, mark: Mark)
        requires small { lit.var < length self.old.marks }
        requires clean { is_clean (mark_of self.old.marks lit.var) ≡ true }
        requires mark { is_clean mark ≡ false }
        ensures { self.new ≡ record { marks = slice_set self.old.marks lit.var mark; lits = self.old.lits ++ lit ∷ [] } }
    {
        self.pending += mark.ones();
        self.marks[lit.var() as usize] = mark;
        self.lits.push_reserved(lit);
    }

    /// Gives a marked variable another mark.
    pub fn change(&mut self, var: Var, mark: Mark)
        requires small { var < length self.old.marks }
        requires marked { is_clean (mark_of self.old.marks var) ≡ false }
        requires mark { is_clean mark ≡ false }
        requires done { is_pending mark ≡ false }
        ensures { self.new ≡ record self.old { marks = slice_set self.old.marks var mark } }
    {
        self.pending -= self.get(var).ones();
        self.marks[var as usize] = mark;
    }

    /// Leaves no marks.
    pub fn clear(&mut self)
        ensures { self.new ≡ unmarked (length self.old.marks) }
    {
        clean(self.marks.as_mut_slice(), self.lits.as_slice());
        self.lits.clear();
        self.pending = 0;
    }
}
