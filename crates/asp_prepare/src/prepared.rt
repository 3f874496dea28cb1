//! What is searched of a program: what is left of it, compiled.
ghost use Rattle.std.specs.Prelude.{◌≡◌, Some, IfErr, IfOk, IfSome, OnOk};
ghost use Rattle.asp_model.specs.Sound.{IsSound};
ghost use Rattle.asp_cli.specs.Found.{seeks_consequences};
ghost use Rattle.asp_equal.specs.Reduced.{aside_of, none_aside, reduced};
ghost use Rattle.asp_unfold.specs.Unfolded.{unfolded};
ghost use Rattle.asp_prepare.specs.Naming.{HasNumbers, WhyNot, aside_for, asked_if, is_json, is_named, is_settled, left_for, prepared_of};

use asp_cli::{Form, Options};
use asp_compile::compile::compile;
use asp_equal::reduce::{Aside, Reduced, reduce};
use asp_model::interp::Interp;
use asp_model::program::Program;
use asp_model::results::Mode;
use asp_model::seq::Seq;
use asp_named::named::name;
use asp_unfold::unfold::unfold;
use asp_vars::compiled::Compiled;
use std::alloc::{AllocError, Global};

/// The program that is searched, compiled, and what was set aside before.
#[derive(Drop)]
pub struct Prepared {
    /// What is searched.
    pub compiled: Compiled,
    /// What each answer gets back.
    pub aside: Aside,
}

/// Why nothing is searched of a program that is there.
#[derive(Clone, Copy)]
pub enum Unready {
    /// Out of memory.
    Memory,
    /// Consequences can't be told by name: the program leaves too few numbers for atoms of its outputs.
    Unnamed,
}

// Whether anything is set aside: a proof is of the whole program as it is, and so are parts.
fn is_settled(options: &Options) -> bool
    ensures { result ≡ is_settled options.now }
{
    !(options.proof || options.split.is_some())
}

fn is_json(form: Form) -> bool
    ensures { result ≡ is_json form }
{
    match form {
        Form::Text => false,
        Form::Json => true,
    }
}

fn seeks_consequences(mode: Option<Mode>) -> bool
    ensures { result ≡ seeks_consequences (Some mode) }
{
    match mode {
        None => false,
        Some(mode) => mode.reasoning().is_some(),
    }
}

/// Whether consequences are told by name.
pub fn is_named(options: &Options) -> bool
    ensures { result ≡ is_named options.now }
{
    is_settled(options)
        && seeks_consequences(options.mode)
        && (options.names || is_json(options.form))
}

// The program whose answers are sought: with atoms for its outputs where consequences are told by name.
fn asked(alloc: Global, options: &Options, program: Program) -> Result<Option<Program>, AllocError>
    requires { IsSound program }
    ensures asked { IfOk result (λ o. o ≡ asked_if options.now program) }
    ensures sound { IfOk result (λ o. IfSome o IsSound) }
{
    if is_named(options) {
        name(alloc, program)
    } else {
        Ok(Some(program))
    }
}

// The program without what is set aside, its minimise statements unfolded, compiled.
fn without_aside(alloc: Global, program: Program) -> Result<Prepared, AllocError>
    requires { IsSound program }
    ensures { IfOk result (λ prepared. prepared ≡ record { compiled = unfolded (reduced program); aside = aside_of program }) }
{
    let reduced = reduce(alloc, program)?;
    let Reduced { aside, left } = reduced;
    let unfolded = unfold(alloc, left)?;
    let compiled = compile(alloc, unfolded)?;
    Ok(Prepared { compiled, aside })
}

// The whole program, compiled.
fn whole(alloc: Global, program: Program) -> Result<Prepared, AllocError>
    requires { IsSound program }
    ensures { IfOk result (λ prepared. prepared ≡ record { compiled = program; aside = none_aside }) }
{
    let aside = Aside {
        facts: Interp::new(alloc),
        copies: Seq::from_vec(Vec::new(alloc)),
    };
    let compiled = compile(alloc, program)?;
    Ok(Prepared { compiled, aside })
}

fn divided(alloc: Global, options: &Options, program: Program) -> Result<Prepared, AllocError>
    requires { IsSound program }
    ensures { IfOk result (λ prepared. prepared ≡ record { compiled = left_for options.now program; aside = aside_for options.now program }) }
{
    if is_settled(options) {
        without_aside(alloc, program)
    } else {
        whole(alloc, program)
    }
}

/// What is searched of the program, compiled.
pub fn ready(alloc: Global, options: &Options, program: Program) -> Result<Prepared, Unready>
    requires { IsSound program }
    ensures same { IfOk result (λ prepared. prepared ≡ prepared_of options.now program) }
    ensures numbers { OnOk result (HasNumbers options.now program) }
    ensures wanting { IfErr result (WhyNot options.now program) }
{
    match asked(alloc, options, program) {
        Ok(Some(sought)) => match divided(alloc, options, sought) {
            Ok(prepared) => Ok(prepared),
            Err(_) => Err(Unready::Memory),
        },
        Ok(None) => Err(Unready::Unnamed),
        Err(_) => Err(Unready::Memory),
    }
}
