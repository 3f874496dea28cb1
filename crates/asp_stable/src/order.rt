//! Ranks for the atoms that no positive loop stands below.
//!
//! An atom gets the next rank once all bodies of its rules are done, and a body is done once all of its positive literals
//! have ranks. Nothing here is proved but that it ends: `are_ranks` tests what comes out.
ghost use Rattle.std.specs.Prelude.{◌≡◌, ◌+◌, ◌^◌, ◌<◌, IfOk, length};
ghost use Rattle.asp_model.specs.Models.{atoms_of};

use asp_vars::compiled::Compiled;
use asp_vars::lit::{Lit, Var};
use std::alloc::{AllocError, Global};

// Counts one off, and says whether none is left by that.
fn count_off(counts: &mut [u32], at: usize) -> bool {
    match counts.get_mut(at) {
        Some(count) => {
            let before = *count;
            *count = before.saturating_sub(1);
            before == 1
        }
        None => false,
    }
}

fn count_on(counts: &mut [u32], at: usize) {
    if let Some(count) = counts.get_mut(at) {
        *count = count.saturating_add(1);
    }
}

fn positive_count(lits: &[Lit]) -> u32 {
    let mut count: u32 = 0;
    for lit in lits {
        if lit.truth() {
            count = count.saturating_add(1);
        }
    }
    count
}

// For each body how many positive literals it has.
fn literal_counts(alloc: Global, compiled: &Compiled) -> Result<Vec<u32>, AllocError> {
    let mut counts = Vec::with_capacity(alloc, compiled.body_count())?;
    for body in 0..compiled.body_count() {
        counts.push(positive_count(compiled.literals(body)))?;
    }
    Ok(counts)
}

fn count_heads(counts: &mut [u32], heads: &[Var]) {
    for var in heads {
        count_on(counts, *var as usize);
    }
}

// For each atom's variable in how many rules of bodies it is a head.
fn head_counts(alloc: Global, compiled: &Compiled) -> Result<Vec<u32>, AllocError> {
    let mut counts = vec![in alloc; 0; compiled.atom_count() + 1]?;
    for body in 0..compiled.body_count() {
        count_heads(counts.as_mut_slice(), compiled.heads(body));
    }
    Ok(counts)
}

// The body is done: its heads that wait for nothing more come next.
fn finish(open: &mut [u32], queue: &mut Vec<Var>, heads: &[Var]) -> Result<(), AllocError> {
    for var in heads {
        if count_off(open, *var as usize) {
            queue.push(*var)?;
        }
    }
    Ok(())
}

// The atoms that wait for nothing from the start.
fn begin_atoms(open: &[u32], queue: &mut Vec<Var>, atoms: usize) -> Result<(), AllocError>
    requires { atoms < 2 ^ 31 }
{
    for i in 0..atoms {
        let var = i as u32 + 1;
        if open.get(var as usize).copied() == Some(0) {
            queue.push(var)?;
        }
    }
    Ok(())
}

// The bodies that wait for nothing from the start.
fn begin_bodies(
    compiled: &Compiled,
    lacks: &[u32],
    open: &mut [u32],
    queue: &mut Vec<Var>,
) -> Result<(), AllocError> {
    for body in 0..compiled.body_count() {
        if lacks.get(body).copied() == Some(0) {
            finish(open, queue, compiled.heads(body))?;
        }
    }
    Ok(())
}

// The atom has a rank: bodies that wait for nothing more are done.
fn follow(
    compiled: &Compiled,
    lacks: &mut [u32],
    open: &mut [u32],
    queue: &mut Vec<Var>,
    var: Var,
) -> Result<(), AllocError> {
    if var == 0 || var as usize > compiled.atom_count() {
        return Ok(());
    }
    for occurrence in compiled.occurrences(Lit::new(var, true)) {
        let body = occurrence.body as usize;
        if body < compiled.body_count() && count_off(lacks, body) {
            finish(open, queue, compiled.heads(body))?;
        }
    }
    Ok(())
}

// The atoms in an order in which each comes after those that its bodies need.
fn queue(alloc: Global, compiled: &Compiled) -> Result<Vec<Var>, AllocError> {
    let mut lacks = literal_counts(alloc, compiled)?;
    let mut open = head_counts(alloc, compiled)?;
    let mut queue = Vec::new(alloc);
    begin_atoms(open.as_slice(), &mut queue, compiled.atom_count())?;
    begin_bodies(compiled, lacks.as_slice(), open.as_mut_slice(), &mut queue)?;
    for next in 0..compiled.atom_count() {
        if next >= queue.len() {
            break;
        }
        let var = queue[next];
        follow(
            compiled,
            lacks.as_mut_slice(),
            open.as_mut_slice(),
            &mut queue,
            var,
        )?;
    }
    Ok(queue)
}

// Numbers the atoms in this order, from 1 on.
fn number(ranks: &mut [u32], order: &[Var]) {
    let mut next: u32 = 0;
    for var in order {
        next = next.saturating_add(1);
        if let Some(rank) = ranks.get_mut(*var as usize) {
            *rank = next;
        }
    }
}

/// A rank for the variable of each atom that no positive loop stands below, and 0 for the others.
pub(crate) fn ranks_of(alloc: Global, compiled: &Compiled) -> Result<Vec<u32>, AllocError>
    ensures { IfOk result (λ r. length r.items ≡ length (atoms_of compiled.now) + 1) }
{
    let order = queue(alloc, compiled)?;
    let mut ranks = vec![in alloc; 0; compiled.atom_count() + 1]?;
    number(ranks.as_mut_slice(), order.as_slice());
    Ok(ranks)
}
