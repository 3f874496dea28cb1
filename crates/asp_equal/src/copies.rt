//! The atoms of a program that copy another one, and by which each of them goes.
ghost use Rattle.std.specs.Prelude.{◌≡◌, ◌∷◌, [], ◌++◌, OnOk, ◌<◌, ◌≤◌, ◌+◌, ◌==◌, ◌&&◌, ℕ, map, length, slice_index, slice_set, if◌then◌else◌, IfOk};
ghost use Rattle.asp_model.specs.Sets.{has, set_of};
ghost use Rattle.asp_model.specs.Sound.{IsSound};
ghost use Rattle.asp_model.specs.Views.{body_seen, rule_seen};
ghost use Rattle.asp_equal.specs.Copies.{above, above_rule, copies_below, only_atom, places};
ghost use Rattle.asp_equal.specs.Tables.{AreLeast, AreNoted, AreSources, IsSameTable, root_in, sent, target_in};

use asp_model::interp::Interp;
use asp_model::program::{Atom, External, Program};
use asp_model::rules::Rules;
use asp_model::view::{BodyView, HeadView, RuleView};
use std::alloc::{AllocError, Global};
use std::marker::Model;

/// How many places the tables may have for each rule.
const PLACES_A_RULE: usize = 16;

// The atom of the body, where that is one positive literal alone, and else the other one.
fn only_atom(other: Atom, body: BodyView<'_>) -> Atom
    ensures { result ≡ only_atom other (body_seen body.entry) }
{
    if let BodyView::All(literals) = body {
        if literals.len() == 1 && literals[0] > 0 {
            return literals[0].unsigned_abs();
        }
    }
    other
}

// ---- how far is looked

// Above which number the atoms are, where the rule copies one.
fn above_rule(rule: RuleView<'_>) -> usize
    ensures value { let r = rule_seen rule.entry in result ≡ above_rule r.head r.body }
    ensures most { result ≤ 4294967296 }
{
    match rule.head {
        HeadView::One(atom) => {
            let copied = only_atom(0, rule.body);
            if copied == 0 {
                0
            } else {
                atom.max(copied) as usize + 1
            }
        }
        _ => 0,
    }
}

fn above(rules: &Rules) -> usize
    ensures value { result ≡ above rules.now }
    ensures most { result ≤ 4294967296 }
{
    let mut above = 0usize;
    for i in 0..rules.len() {
        above = above.max(above_rule(rules.rule(i)));
    }
    above
}

// How many places the tables have.
fn places(program: &Program) -> usize
    requires { length program.now.rules ≤ 268435456 }
    ensures value { result ≡ places program.now }
    ensures most { result ≤ 4294967296 }
{
    above(&program.rules).min(PLACES_A_RULE * (program.rules.len() + 1))
}

// ---- what the rules say of each atom

fn set_atom(table: &mut [Atom], place: Atom, atom: Atom)
    ensures { table.new ≡ slice_set table.old place atom }
{
    let place = place as usize;
    if place < table.len() {
        table[place] = atom;
    }
}

fn note_one(known: &mut [Atom], atom: Atom, copied: Atom)
    ensures { (a : ℕ) → a < length known.old → slice_index known.new a ≡ (if atom == a then (if slice_index known.old a == 0 then copied else a) else slice_index known.old a) }
{
    let place = atom as usize;
    if place < known.len() {
        let is_first = known[place] == 0;
        known[place] = if is_first { copied } else { atom };
    }
}

fn note_choice(known: &mut [Atom], atoms: &[Atom])
    ensures { (a : ℕ) → a < length known.old → slice_index known.new a ≡ (if has atoms.now a then a else slice_index known.old a) }
{
    for atom in atoms {
        set_atom(known, *atom, *atom);
    }
}

fn note(known: &mut [Atom], rule: RuleView<'_>)
    ensures { AreNoted known.old known.new (rule_seen rule.entry) }
{
    match rule.head {
        HeadView::One(atom) => note_one(known, atom, only_atom(atom, rule.body)),
        HeadView::Choice(atoms) => note_choice(known, atoms),
        HeadView::Never => {}
    }
}

fn note_rules(known: &mut [Atom], rules: &Rules)
    requires { (a : ℕ) → a < length known.old → slice_index known.old a ≡ 0 }
    ensures { AreSources rules.now known.new }
{
    if known.is_empty() {
        return;
    }
    for i in 0..rules.len() {
        note(known, rules.rule(i));
    }
}

fn sources(alloc: Global, rules: &Rules, count: usize) -> Result<Vec<Atom>, AllocError>
    ensures count { IfOk result (λ known. length known.items ≡ count) }
    ensures value { IfOk result (λ known. AreSources rules.now known.items) }
{
    let mut known = vec![in alloc; 0; count]?;
    note_rules(known.as_mut_slice(), rules);
    Ok(known)
}

// The atoms that externals name.
fn named_set(alloc: Global, externals: &[External]) -> Result<Interp, AllocError>
    ensures { IfOk result (λ named. named ≡ set_of (map (λ e. e.atom) externals.now)) }
{
    let mut atoms = Vec::with_capacity(alloc, externals.len())?;
    for external in externals {
        atoms.push(external.atom)?;
    }
    Ok(Interp::from_atoms(atoms))
}

// ---- the least atom with the same root

fn target(known: &[Atom], named: &Interp, atom: Atom) -> Atom
    ensures { result ≡ target_in known.now named.now atom }
{
    let place = atom as usize;
    if place >= known.len() {
        return atom;
    }
    let copied = known[place];
    if 0 < atom
        && 0 < copied
        && (copied as usize) < known.len()
        && !named.has(atom)
        && !named.has(copied)
    {
        copied
    } else {
        atom
    }
}

fn root(known: &[Atom], named: &Interp, atom: Atom) -> Atom
    ensures { result ≡ root_in known.now named.now atom }
{
    let copied = target(known, named, atom);
    if target(known, named, copied) == copied {
        copied
    } else {
        atom
    }
}

fn numbers(alloc: Global, count: usize) -> Result<Vec<Atom>, AllocError>
    requires { count ≤ 4294967296 }
    ensures count { IfOk result (λ table. length table.items ≡ count) }
    ensures value { IfOk result (λ table. (a : ℕ) → a < count → slice_index table.items a ≡ a) }
{
    let mut table = Vec::with_capacity(alloc, count)?;
    for place in 0..count {
        table.push(place as Atom)?;
    }
    Ok(table)
}

fn lower(table: &mut [Atom], known: &[Atom], named: &Interp)
    requires count { length table.old ≡ length known.now }
    requires most { length known.now ≤ 4294967296 }
    requires numbers { (a : ℕ) → a < length table.old → slice_index table.old a ≡ a }
    ensures { AreLeast known.now named.now table.new }
{
    for place in (0..known.len()).rev() {
        let atom = place as Atom;
        set_atom(table, root(known, named, atom), atom);
    }
}

fn least(alloc: Global, known: &[Atom], named: &Interp) -> Result<Vec<Atom>, AllocError>
    requires { length known.now ≤ 4294967296 }
    ensures count { IfOk result (λ table. length table.items ≡ length known.now) }
    ensures value { IfOk result (λ table. AreLeast known.now named.now table.items) }
{
    let mut table = numbers(alloc, known.len())?;
    lower(table.as_mut_slice(), known, named);
    Ok(table)
}

fn at(table: &[Atom], atom: Atom) -> Atom
    ensures { result ≡ sent table.now atom }
{
    let place = atom as usize;
    if place < table.len() {
        table[place]
    } else {
        atom
    }
}

fn through_roots(
    alloc: Global,
    known: &[Atom],
    named: &Interp,
    least: &[Atom],
) -> Result<Vec<Atom>, AllocError>
    requires { length known.now ≤ 4294967296 }
    ensures count { IfOk result (λ table. length table.items ≡ length known.now) }
    ensures value { IfOk result (λ table. (a : ℕ) → a < length known.now → slice_index table.items a ≡ sent least.now (root_in known.now named.now a)) }
{
    let mut table = Vec::with_capacity(alloc, known.len())?;
    for place in 0..known.len() {
        table.push(at(least, root(known, named, place as Atom)))?;
    }
    Ok(table)
}

fn same_atoms(alloc: Global, program: &Program) -> Result<Vec<Atom>, AllocError>
    requires { IsSound program.now }
    ensures same { IfOk result (λ table. IsSameTable program.now table.items) }
    ensures most { IfOk result (λ table. length table.items ≤ 4294967296) }
{
    let named = named_set(alloc, program.externals.as_slice())?;
    let known = sources(alloc, &program.rules, places(program))?;
    let least = least(alloc, known.as_slice(), &named)?;
    let table = through_roots(alloc, known.as_slice(), &named, least.as_slice())?;
    Ok(table)
}

// Adds the atom with the one by which it goes, unless it stays.
fn push_copy(copies: &mut Vec<(Atom, Atom)>, atom: Atom, other: Atom) -> Result<(), AllocError>
    ensures { OnOk result (copies.new.items ≡ copies.old.items ++ (if other == atom then [] else (atom, other) ∷ [])) }
{
    if other != atom {
        copies.push((atom, other))?;
    }
    Ok(())
}

/// By which atom each atom goes, as a table.
#[derive(Drop)]
pub struct SameTable {
    /// For each atom from 0 on the one by which it goes. Greater ones stay.
    atoms: Vec<Atom>,
}

impl Model for SameTable {
    ghost use Rattle.std.specs.Prelude.{ℕ, List, length, ◌≤◌};
    ghost use Rattle.asp_equal.specs.Tables.{IsLow};

    ghost Value = { List ℕ };

    ghost view = { λ t. t.atoms.items };

    ghost invariant = { λ t. IsLow t.atoms.items × (length t.atoms.items ≤ 4294967296) };
}

impl SameTable {
    /// By which atoms those of the program go.
    pub fn new(alloc: Global, program: &Program) -> Result<SameTable, AllocError>
        requires { IsSound program.now }
        ensures { IfOk result (λ table. IsSameTable program.now table) }
    {
        let atoms = same_atoms(alloc, program)?;
        Ok(SameTable { atoms })
    }

    /// The atom by which an atom goes: itself, if it stays.
    pub fn of(&self, atom: Atom) -> Atom
        ensures value { result ≡ sent self.now atom }
        ensures low { result ≤ atom }
    {
        at(self.atoms.as_slice(), atom)
    }

    /// The atoms that go, each with the one by which it goes.
    pub fn copies(&self, alloc: Global) -> Result<Vec<(Atom, Atom)>, AllocError>
        ensures { IfOk result (λ copies. copies.items ≡ copies_below (sent self.now) (length self.now)) }
    {
        let mut copies = Vec::new(alloc);
        for place in 0..self.atoms.len() {
            let atom = place as Atom;
            push_copy(&mut copies, atom, self.of(atom))?;
        }
        Ok(copies)
    }
}
