//! The heads of each body's rules, and the bodies that support each atom.
ghost use Rattle.std.specs.Prelude.{◌≡◌, ◌+◌, ◌<◌, ◌^◌, [], ◌++◌, All, IfOk, OnOk, IsTrue, map, length, slice_index_or, slice_set};
ghost use Rattle.std.specs.List.{AllByRecursion};
ghost use Rattle.asp_model.specs.Sets.{IsAscending, has};
ghost use Rattle.asp_model.specs.Models.{head_atoms};
ghost use Rattle.asp_model.specs.Views.{head_seen};
ghost use Rattle.asp_vars.specs.Numbering.{var_in};
ghost use Rattle.asp_compile.specs.Headed.{HeadsStand, AreHeads};

use asp_model::program::{Atom, Rule};
use asp_model::rules::Rules;
use asp_model::view::HeadView;
use asp_table::buckets::Buckets;
use asp_table::columns::Occurrence;
use asp_table::table::Table;
use asp_vars::lit::Var;
use asp_vars::place::var_in;
use asp_vars::rules::rule_at;
use std::alloc::{AllocError, Global};

fn add_atoms(
    heads: &mut Buckets<Var>,
    atoms: &[Atom],
    body: usize,
    more: &[Atom],
) -> Result<(), AllocError>
    requires body { body < length heads.old }
    requires up { IsAscending atoms.now }
    requires few { length atoms.now < 2 ^ 31 }
    requires stand { AllByRecursion (λ a. IsTrue (has atoms.now a)) more.now }
    ensures { OnOk result (heads.new ≡ slice_set heads.old body (slice_index_or heads.old body [] ++ map (var_in atoms.now) more.now)) }
{
    for atom in more {
        heads.push(body, var_in(atoms, *atom))?;
    }
    Ok(())
}

fn add_head(
    heads: &mut Buckets<Var>,
    atoms: &[Atom],
    body: usize,
    head: HeadView<'_>,
) -> Result<(), AllocError>
    requires body { body < length heads.old }
    requires up { IsAscending atoms.now }
    requires few { length atoms.now < 2 ^ 31 }
    requires stand { AllByRecursion (λ a. IsTrue (has atoms.now a)) (head_atoms (head_seen head)) }
    ensures { OnOk result (heads.new ≡ slice_set heads.old body (slice_index_or heads.old body [] ++ map (var_in atoms.now) (head_atoms (head_seen head.entry)))) }
{
    match head {
        HeadView::One(atom) => heads.push(body, var_in(atoms, atom)),
        HeadView::Choice(more) => add_atoms(heads, atoms, body, more),
        HeadView::Never => Ok(()),
    }
}

/// The variables of the head atoms of each body's rules, rule by rule. A rule's body stands at its place.
pub fn head_rows(
    alloc: Global,
    atoms: &[Atom],
    count: usize,
    places: &[u32],
    rules: &Rules,
    opened: &[Rule],
) -> Result<Table<Var>, AllocError>
    requires up { IsAscending atoms.now }
    requires few { length atoms.now < 2 ^ 31 }
    requires places { length places.now ≡ length rules.now + length opened.now }
    requires within { All (λ j. j < count) places.now }
    requires stand { HeadsStand atoms.now (rules.now ++ opened.now) }
    ensures { IfOk result (λ heads. AreHeads heads atoms.now count places.now (rules.now ++ opened.now)) }
{
    let mut heads = Buckets::new(alloc, count)?;
    for (i, place) in places.iter().enumerate() {
        let rule = rule_at(rules, opened, i);
        add_head(&mut heads, atoms, *place as usize, rule.head)?;
    }
    heads.into_table(alloc)
}

fn support_row(alloc: Global, first: u32, cells: &[Occurrence]) -> Result<Vec<u32>, AllocError>
    requires { All (λ o. first + o.body < 2 ^ 31) cells.now }
    ensures { IfOk result (λ row. row.items ≡ map (λ o. first + o.body) cells.now) }
{
    let mut row = Vec::new(alloc);
    for cell in cells {
        row.push(first + cell.body)?;
    }
    Ok(row)
}

/// The numbers of the bodies in each row, where the first body has this number.
pub fn support_rows(
    alloc: Global,
    first: u32,
    rows: &Table<Occurrence>,
) -> Result<Table<u32>, AllocError>
    requires { All (λ row. All (λ o. first + o.body < 2 ^ 31) row) rows.now }
    ensures { IfOk result (λ supports. supports ≡ map (λ row. map (λ o. first + o.body) row) rows.now) }
{
    let mut supports = Table::new(alloc)?;
    for row in 0..rows.len() {
        let row = support_row(alloc, first, rows.row(row))?;
        supports = supports.with_row(row.as_slice())?;
    }
    Ok(supports)
}
