//! What is searched of a program, and what is set aside before: its facts, and the atoms that copy another one.
ghost use Rattle.std.specs.Prelude.{◌≡◌, IfOk};
ghost use Rattle.asp_model.specs.Sound.{IsSound};
ghost use Rattle.asp_equal.specs.Reduced.{aside_of, reduced, restored};

use crate::merge::{Merged, extend, merge};
use asp_model::interp::Interp;
use asp_model::program::{Atom, Program};
use asp_model::seq::Seq;
use asp_settle::settle::{Settled, settle, unite};
use std::alloc::{AllocError, Global};

/// What is set aside of a program before it is searched.
#[derive(Drop)]
pub struct Aside {
    /// The facts, each of which is in every answer.
    pub facts: Interp,
    /// The atoms that went, ascending, each with the one by which it went.
    pub copies: Seq<(Atom, Atom)>,
}

/// What is set aside of a program, and what is left of it.
#[derive(Drop)]
pub struct Reduced {
    /// What each answer gets back.
    pub aside: Aside,
    /// The program without it.
    pub left: Program,
}

/// Divides a program into what is set aside and what is searched.
pub fn reduce(alloc: Global, program: Program) -> Result<Reduced, AllocError>
    requires { IsSound program }
    ensures aside { IfOk result (λ it. it.aside ≡ aside_of program) }
    ensures left { IfOk result (λ it. it.left ≡ reduced program) }
{
    let Settled { facts, left } = settle(alloc, program)?;
    let Merged { copies, left } = merge(alloc, left)?;
    let aside = Aside { facts, copies };
    Ok(Reduced { aside, left })
}

/// The set with what was set aside.
pub fn restore(alloc: Global, aside: &Aside, set: &Interp) -> Result<Interp, AllocError>
    ensures { IfOk result (λ whole. whole ≡ restored aside.now set.now) }
{
    let some = extend(alloc, &aside.copies, set)?;
    unite(alloc, &aside.facts, &some)
}
