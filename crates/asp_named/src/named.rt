//! A program is given atoms for its outputs.
ghost use Rattle.std.specs.Prelude.{◌≡◌, ◌+◌, ◌≤◌, [], ◌∷◌, ◌++◌, true, length, IfOk, IfSome, OnOk};
ghost use Rattle.asp_model.specs.Sound.{IsSound};
ghost use Rattle.asp_model.specs.Views.{output_seen};
ghost use Rattle.asp_named.specs.Named.{are_plain, first_free, greatest, fits, is_plain, named_from, named_if, named_output, named_outputs, naming_rule, naming_rules};

use asp_model::interp::Interp;
use asp_model::outputs::{OutputView, Outputs};
use asp_model::program::{Atom, External, Minimize, Program};
use asp_model::rules::Rules;
use asp_model::seq::Seq;
use asp_model::view::{BodyView, HeadView, RuleView};
use std::alloc::{AllocError, Global};

// Atoms have numbers below this one.
const END_OF_ATOMS: usize = 2147483648;

// How many rules a program may have.
const MOST_RULES: usize = 268435456;

// Whether the output is shown in every set, or exactly in those that have one atom.
fn is_plain(condition: &[i32]) -> bool
    ensures { result ≡ is_plain condition.now }
{
    match condition {
        [] => true,
        [literal] => *literal >= 0,
        _ => false,
    }
}

fn are_plain(outputs: &Outputs) -> bool
    ensures { result ≡ are_plain outputs.now }
{
    for i in 0..outputs.len() {
        if !is_plain(outputs.output(i).condition) {
            return false;
        }
    }
    true
}

// Adds the rule for an output's atom, where it has one of its own.
fn push_rule(rules: &mut Rules, output: OutputView<'_>, atom: Atom) -> Result<(), AllocError>
    ensures { OnOk result (rules.new ≡ rules.old ++ naming_rule atom (output_seen output.entry)) }
{
    if is_plain(output.condition) {
        return Ok(());
    }
    rules.push(RuleView {
        head: HeadView::One(atom),
        body: BodyView::All(output.condition),
    })
}

fn push_rules(rules: &mut Rules, outputs: &Outputs, first: Atom) -> Result<(), AllocError>
    requires { first + length outputs.now ≤ 2147483648 }
    ensures { OnOk result (rules.new ≡ rules.old ++ naming_rules first outputs.now) }
{
    for i in 0..outputs.len() {
        push_rule(rules, outputs.output(i), first + i as u32)?;
    }
    Ok(())
}

// Adds the output, with its atom as its condition where it has one of its own.
fn push_output(named: &mut Outputs, output: OutputView<'_>, atom: Atom) -> Result<(), AllocError>
    requires { atom ≤ 2147483647 }
    ensures { OnOk result (named.new ≡ named.old ++ named_output atom (output_seen output.entry) ∷ []) }
{
    if is_plain(output.condition) {
        return named.push(output);
    }
    named.push(OutputView {
        text: output.text,
        condition: &[atom as i32],
    })
}

fn push_outputs(named: &mut Outputs, outputs: &Outputs, first: Atom) -> Result<(), AllocError>
    requires { first + length outputs.now ≤ 2147483648 }
    ensures { OnOk result (named.new ≡ named.old ++ named_outputs first outputs.now) }
{
    for i in 0..outputs.len() {
        push_output(named, outputs.output(i), first + i as u32)?;
    }
    Ok(())
}

fn with_rules(rules: Rules, outputs: &Outputs, first: Atom) -> Result<Rules, AllocError>
    requires { first + length outputs.now ≤ 2147483648 }
    ensures { IfOk result (λ all. all ≡ rules ++ naming_rules first outputs.now) }
{
    let mut rules = rules;
    push_rules(&mut rules, outputs, first)?;
    Ok(rules)
}

fn named_outputs(alloc: Global, outputs: &Outputs, first: Atom) -> Result<Outputs, AllocError>
    requires { first + length outputs.now ≤ 2147483648 }
    ensures { IfOk result (λ named. named ≡ named_outputs first outputs.now) }
{
    let mut named = Outputs::new(alloc)?;
    push_outputs(&mut named, outputs, first)?;
    Ok(named)
}

// What stays as it is.
#[derive(Drop)]
struct Rest {
    /// What answers cost.
    minimize: Seq<Minimize>,
    /// Atoms that other programs may define.
    externals: Seq<External>,
    /// Literals that hold in each answer.
    assumptions: Seq<i32>,
}

// The program with atoms for its outputs from the first on.
fn named_from(alloc: Global, program: Program, first: Atom) -> Result<Program, AllocError>
    requires { first + length program.outputs ≤ 2147483648 }
    ensures { IfOk result (λ named. named ≡ named_from first program) }
{
    let Program {
        rules,
        minimize,
        outputs,
        externals,
        assumptions,
    } = program;
    let rest = Rest {
        minimize,
        externals,
        assumptions,
    };
    let rules = with_rules(rules, &outputs, first)?;
    let outputs = named_outputs(alloc, &outputs, first)?;
    let Rest {
        minimize,
        externals,
        assumptions,
    } = rest;
    Ok(Program {
        rules,
        minimize,
        outputs,
        externals,
        assumptions,
    })
}

fn greatest(atoms: &Interp) -> Atom
    ensures { result ≡ greatest atoms.now }
{
    let atoms = atoms.as_slice();
    if atoms.is_empty() {
        return 0;
    }
    atoms[atoms.len() - 1]
}

// The number from which on no atom stands in the program.
fn first_free(alloc: Global, program: &Program) -> Result<usize, AllocError>
    ensures free { IfOk result (λ first. first ≡ first_free program.now) }
    ensures small { IfOk result (λ first. first ≤ 4294967296) }
{
    let atoms = program.atoms(alloc)?;
    Ok(greatest(&atoms) as usize + 1)
}

// Whether there are so many numbers from the first on, and room for so many rules more.
fn fits(program: &Program, first: usize) -> bool
    requires first { first ≤ 4294967296 }
    requires rules { length program.now.rules ≤ 268435456 }
    requires outputs { length program.now.outputs ≤ 268435456 }
    ensures { result ≡ fits first program.now }
{
    let outputs = program.outputs.len();
    first + outputs <= END_OF_ATOMS && program.rules.len() + outputs <= MOST_RULES
}

/// The program in which an atom says of each output whether it is shown; it itself where its own atoms do. None where it
/// would take atoms above 2147483647, or more rules than there may be.
pub fn name(alloc: Global, program: Program) -> Result<Option<Program>, AllocError>
    requires { IsSound program }
    ensures named { IfOk result (λ o. o ≡ named_if program) }
    ensures sound { IfOk result (λ o. IfSome o IsSound) }
{
    if are_plain(&program.outputs) {
        return Ok(Some(program));
    }
    let first = first_free(alloc, &program)?;
    if !fits(&program, first) {
        return Ok(None);
    }
    let named = named_from(alloc, program, first as u32)?;
    Ok(Some(named))
}
