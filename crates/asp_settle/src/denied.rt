//! The atoms that are assumed false, as a table.
ghost use Rattle.std.specs.Prelude.{◌≡◌, ◌<◌, ◌≤◌, ℕ, true, false, flat_map, map, IfOk, IsTrue};
ghost use Rattle.std.specs.Option.{option_to_list};
ghost use Rattle.asp_model.specs.Sets.{has};
ghost use Rattle.asp_model.specs.Sound.{IsSound};
ghost use Rattle.asp_settle.specs.Constraints.{denied_by, denied_of};
ghost use Rattle.asp_settle.specs.Tables.{with_flags};

use crate::table::{AtomTable, no_flags, places, set_flag};
use asp_model::program::{Atom, External, Program};
use std::alloc::{AllocError, Global};

// The atom that the literal denies, if it does.
fn denied_by(literal: i32) -> Option<Atom>
    ensures { option_to_list result ≡ denied_by literal }
{
    if literal < 0 {
        return Some(literal.unsigned_abs());
    }
    None
}

// The least number above all atoms that the literals deny.
fn above(literals: &[i32]) -> usize
    ensures above { (a : ℕ) → IsTrue (has (flat_map denied_by literals.now) a) → a < result }
    ensures most { result ≤ 4294967296 }
{
    let mut above = 0usize;
    for literal in literals {
        if let Some(atom) = denied_by(*literal) {
            above = above.max(atom as usize + 1);
        }
    }
    above
}

fn raise_denied(flags: &mut [bool], literal: i32)
    ensures { flags.new ≡ with_flags true flags.old (denied_by literal) }
{
    if let Some(atom) = denied_by(literal) {
        set_flag(flags, atom, true);
    }
}

fn raise_all_denied(flags: &mut [bool], literals: &[i32])
    ensures { flags.new ≡ with_flags true flags.old (flat_map denied_by literals.now) }
{
    for literal in literals {
        raise_denied(flags, *literal);
    }
}

fn lower_externals(flags: &mut [bool], externals: &[External])
    ensures { flags.new ≡ with_flags false flags.old (map (λ e. e.atom) externals.now) }
{
    for external in externals {
        set_flag(flags, external.atom, false);
    }
}

// Raises the flags of the atoms that are denied, and that no external names.
fn mark(flags: &mut [bool], program: &Program)
    ensures { flags.new ≡ with_flags false (with_flags true flags.old (flat_map denied_by program.now.assumptions)) (map (λ e. e.atom) program.now.externals) }
{
    raise_all_denied(flags, program.assumptions.as_slice());
    lower_externals(flags, program.externals.as_slice());
}

/// The atoms that are assumed false, and that no external names.
pub(crate) fn denied_table(alloc: Global, program: &Program) -> Result<AtomTable, AllocError>
    requires { IsSound program.now }
    ensures { IfOk result (λ table. table ≡ denied_of program.now) }
{
    let above = above(program.assumptions.as_slice());
    let mut flags = no_flags(alloc, places(above, program.rules.len()))?;
    mark(flags.as_mut_slice(), program);
    Ok(AtomTable::from_flags(flags))
}
