//! A program is divided into the atoms that go by another one and the program in which they are one.
ghost use Rattle.std.specs.Prelude.{◌≡◌, ◌∷◌, [], ◌++◌, filter, map, not, if◌then◌else◌, IfOk, OnOk};
ghost use Rattle.asp_model.specs.Sets.{has, set_of};
ghost use Rattle.asp_model.specs.Sound.{IsSound};
ghost use Rattle.asp_equal.specs.Merged.{back, copies_of, extended, gone, merged_by, merged_of, renamed, renamed_minimize};
ghost use Rattle.asp_equal.specs.Tables.{sent};

use crate::copies::SameTable;
use crate::rename::{merged_rules, renamed_literals, renamed_outputs, renamed_statements};
use asp_model::interp::Interp;
use asp_model::program::{Atom, External, Minimize, Program};
use asp_model::seq::Seq;
use std::alloc::{AllocError, Global};

/// The atoms of a program that go, and the program without them.
#[derive(Drop)]
pub struct Merged {
    /// The atoms that go, ascending, each with the one by which it goes.
    pub copies: Seq<(Atom, Atom)>,
    /// The program in which each is the one by which it goes.
    pub left: Program,
}

// What is neither rule nor output.
#[derive(Drop)]
struct Rest {
    /// What answers cost.
    minimize: Seq<Minimize>,
    /// Atoms that other programs may define.
    externals: Seq<External>,
    /// Literals that hold in each answer.
    assumptions: Seq<i32>,
}

fn renamed_rest(alloc: Global, table: &SameTable, rest: Rest) -> Result<Rest, AllocError>
    ensures minimize { IfOk result (λ other. other.minimize ≡ map (renamed_minimize (sent table.now)) rest.minimize) }
    ensures externals { IfOk result (λ other. other.externals ≡ rest.externals) }
    ensures assumptions { IfOk result (λ other. other.assumptions ≡ map (renamed (sent table.now)) rest.assumptions) }
{
    let Rest {
        minimize,
        externals,
        assumptions,
    } = rest;
    let minimize = renamed_statements(alloc, table, minimize)?;
    let assumptions = renamed_literals(alloc, table, assumptions.as_slice())?;
    Ok(Rest {
        minimize,
        externals,
        assumptions,
    })
}

// The program, renamed. Few values are alive where it can return: each way out is proved for each of them.
fn renamed(alloc: Global, table: &SameTable, program: Program) -> Result<Program, AllocError>
    ensures { IfOk result (λ left. left ≡ merged_by (sent table.now) program) }
{
    let Program {
        rules,
        minimize,
        outputs,
        externals,
        assumptions,
    } = program;
    let rest = Rest {
        minimize,
        externals,
        assumptions,
    };
    let rules = merged_rules(alloc, table, rules)?;
    let outputs = renamed_outputs(alloc, table, outputs)?;
    let Rest {
        minimize,
        externals,
        assumptions,
    } = renamed_rest(alloc, table, rest)?;
    Ok(Program {
        rules,
        minimize,
        outputs,
        externals,
        assumptions,
    })
}

/// Divides a program into the atoms that go by another one and the program without them: it itself where none goes.
pub fn merge(alloc: Global, program: Program) -> Result<Merged, AllocError>
    requires { IsSound program }
    ensures copies { IfOk result (λ merged. merged.copies ≡ copies_of program) }
    ensures left { IfOk result (λ merged. merged.left ≡ merged_of program) }
{
    let table = SameTable::new(alloc, &program)?;
    let copies = Seq::from_vec(table.copies(alloc)?);
    if copies.as_slice().is_empty() {
        return Ok(Merged {
            copies,
            left: program,
        });
    }
    let left = renamed(alloc, &table, program)?;
    Ok(Merged { copies, left })
}

// Adds the atom, if the one by which it went is in the set.
fn push_copy(atoms: &mut Vec<Atom>, atom: Atom, other: Atom, set: &Interp) -> Result<(), AllocError>
    ensures { OnOk result (atoms.new.items ≡ atoms.old.items ++ (if has set.now other then atom ∷ [] else [])) }
{
    if set.has(other) {
        atoms.push(atom)?;
    }
    Ok(())
}

// Adds the atoms that went by one that is in the set.
fn push_copies(
    atoms: &mut Vec<Atom>,
    copies: &[(Atom, Atom)],
    set: &Interp,
) -> Result<(), AllocError>
    ensures { OnOk result (atoms.new.items ≡ atoms.old.items ++ back copies.now set.now) }
{
    for (atom, other) in copies {
        push_copy(atoms, *atom, *other, set)?;
    }
    Ok(())
}

// The atoms that go.
fn gone_set(alloc: Global, copies: &[(Atom, Atom)]) -> Result<Interp, AllocError>
    ensures { IfOk result (λ set. set ≡ set_of (gone copies.now)) }
{
    let mut atoms = Vec::with_capacity(alloc, copies.len())?;
    for (atom, _) in copies {
        atoms.push(*atom)?;
    }
    Ok(Interp::from_atoms(atoms))
}

fn staying(mut atoms: Vec<Atom>, gone: &Interp) -> Vec<Atom>
    ensures { result.items ≡ filter (λ a. not (has gone.now a)) atoms.items }
{
    atoms.retain(|atom| !gone.has(*atom));
    atoms
}

/// The set with the atoms that went by one that is in it, and without the others that went.
pub fn extend(alloc: Global, copies: &Seq<(Atom, Atom)>, set: &Interp) -> Result<Interp, AllocError>
    ensures { IfOk result (λ whole. whole ≡ extended copies.now set.now) }
{
    let gone = gone_set(alloc, copies.as_slice())?;
    let mut atoms = staying(Vec::from_slice(alloc, set.as_slice())?, &gone);
    push_copies(&mut atoms, copies.as_slice(), set)?;
    Ok(Interp::from_atoms(atoms))
}
