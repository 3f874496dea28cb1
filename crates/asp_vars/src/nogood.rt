//! Nogoods: sets of literals that must not all be true.
ghost use Rattle.std.specs.Prelude.{◌≡◌, ◌++◌, ◌∷◌, [], IfOk, OnOk, OnErr, length};

use crate::lit::Lit;
use asp_model::cost::Cost;
use smallvec::SmallVec;
use std::alloc::{AllocError, Global};
use std::marker::Model;

/// A list of literals, of which up to six need no memory of their own.
#[derive(Drop)]
pub struct Lits {
    /// The literals, in their order.
    items: SmallVec<Lit, 6>,
}

impl Model for Lits {
    ghost use Rattle.std.specs.Prelude.{List};
    ghost use Rattle.asp_vars.specs.Literals.{Literal};

    ghost Value = { List Literal };

    ghost view = { λ l. l.items.items };
}

impl Lits {
    /// No literals.
    pub fn new(alloc: Global) -> Lits
        ensures { result ≡ [] }
    {
        Lits {
            items: SmallVec::new(alloc),
        }
    }

    /// No literals, with room for so many.
    pub fn with_capacity(alloc: Global, room: usize) -> Result<Lits, AllocError>
        ensures { IfOk result (λ lits. lits ≡ []) }
    {
        let items = SmallVec::with_capacity(alloc, room)?;
        Ok(Lits { items })
    }

    /// These literals.
    pub fn from_slice(alloc: Global, lits: &[Lit]) -> Result<Lits, AllocError>
        ensures { IfOk result (λ l. l ≡ lits.now) }
    {
        let items = SmallVec::from_slice(alloc, lits)?;
        Ok(Lits { items })
    }

    /// This literal first, and then the others.
    pub fn with_first(alloc: Global, first: Lit, others: &[Lit]) -> Result<Lits, AllocError>
        ensures { IfOk result (λ lits. lits ≡ first ∷ others.now) }
    {
        let mut lits = Lits::new(alloc);
        lits.push(first)?;
        for other in others {
            lits.push(*other)?;
        }
        Ok(lits)
    }

    /// The literals, in their order.
    pub fn as_slice(&self) -> &[Lit]
        ensures value { result.now ≡ self.now }
        ensures len { length result.now ≡ length self.now }
    {
        self.items.as_slice()
    }

    /// Adds a literal at the end. Want of memory leaves the list as it was.
    pub fn push(&mut self, lit: Lit) -> Result<(), AllocError>
        ensures ok { OnOk result (self.new ≡ self.old ++ lit ∷ []) }
        ensures err { OnErr result (self.new ≡ self.old) }
    {
        self.items.push(lit)?;
        Ok(())
    }

    /// Another list of the same literals.
    pub fn copy(&self) -> Result<Lits, AllocError>
        ensures { IfOk result (λ copy. copy ≡ self.now) }
    {
        let items = SmallVec::from_slice(*self.items.allocator(), self.items.as_slice())?;
        Ok(Lits { items })
    }
}

/// What a nogood says.
#[derive(Drop)]
pub enum Base {
    /// It hits no stable model.
    Pure,
    /// It hits none whose cost betters this one.
    Below(Cost),
    /// It hits none that is new to a search and betters that search's bound.
    Local,
}

impl Base {
    /// The same base.
    pub fn copy(&self) -> Result<Base, AllocError>
        ensures { IfOk result (λ copy. copy ≡ self.now) }
    {
        match self {
            Base::Pure => Ok(Base::Pure),
            Base::Below(cost) => {
                let cost = cost.copy()?;
                Ok(Base::Below(cost))
            }
            Base::Local => Ok(Base::Local),
        }
    }
}

/// A set of literals that must not all be true, with what that rests on.
#[derive(Drop)]
pub struct Nogood {
    /// Literals that no answer has all of.
    pub lits: Lits,
    /// Which answers that holds for.
    pub base: Base,
}

impl Nogood {
    /// Another nogood of the same literals, with the same base.
    pub fn copy(&self) -> Result<Nogood, AllocError>
        ensures { IfOk result (λ copy. copy ≡ self.now) }
    {
        let lits = self.lits.copy()?;
        let base = self.base.copy()?;
        Ok(Nogood { lits, base })
    }
}
