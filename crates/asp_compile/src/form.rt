//! Bodies in normal form.
ghost use Rattle.std.specs.Prelude.{◌≡◌, ◌+◌, ◌≤◌, ◌<◌, [], ◌++◌, IfOk, OnOk, All, fold, pos, ◌+ℤ◌, unwrap_or, length, if◌then◌else◌};
ghost use Rattle.std.specs.Ordering.{int_cmp, int_eq};
ghost use Rattle.std.specs.BTreeMap.{get, values};
ghost use Rattle.asp_model.specs.Sound.{weighted_count};
ghost use Rattle.asp_model.specs.Views.{body_seen};
ghost use Rattle.asp_vars.specs.Numbering.{normal, with_literal, with_weight};
ghost use Rattle.asp_compile.specs.Forms.{body_of, IsSmall, item_words, key_of};

use asp_model::seq::Seq;
use asp_model::view::BodyView;
use std::alloc::{AllocError, Global};
use std::collections::{BTreeMap, BTreeSet};

/// A body in normal form: its literals rise, and each stands once.
#[derive(Drop)]
pub enum Form {
    All(Seq<i32>),
    AtLeast(i32, Seq<(i32, i64)>),
}

fn literal_set(alloc: Global, literals: &[i32]) -> Result<BTreeSet<i32>, AllocError>
    ensures { IfOk result (λ set. set.keys ≡ fold (λ ks l. with_literal l ks) [] literals.now) }
{
    let mut set = BTreeSet::new(alloc);
    for literal in literals {
        set.insert(*literal)?;
    }
    Ok(set)
}

// The sum of a literal's weights, with one more of them.
fn sum_with(sums: &BTreeMap<i32, i64>, literal: i32, weight: i32, count: usize) -> i64
    requires few { count < 16777216 }
    requires small { All (IsSmall count) (values sums.now) }
    ensures sum { result ≡ unwrap_or (get int_cmp sums.now literal) (pos 0) +ℤ weight }
    ensures small { IsSmall (count + 1) result }
{
    match sums.get(&literal) {
        Some(sum) => *sum + i64::from(weight),
        None => i64::from(weight),
    }
}

// Adds a literal's weight. So many were added before.
fn add_weight(
    sums: &mut BTreeMap<i32, i64>,
    literal: i32,
    weight: i32,
    count: usize,
) -> Result<(), AllocError>
    requires few { count < 16777216 }
    requires small { All (IsSmall count) (values sums.old) }
    ensures sums { OnOk result (sums.new.entries ≡ (if int_eq weight (pos 0) then sums.old.entries else with_weight (literal, weight) sums.old.entries)) }
    ensures small { OnOk result (All (IsSmall (count + 1)) (values sums.new)) }
{
    if weight == 0 {
        return Ok(());
    }
    let sum = sum_with(sums, literal, weight, count);
    sums.insert(literal, sum)?;
    Ok(())
}

fn weight_sums(alloc: Global, items: &[(i32, i32)]) -> Result<BTreeMap<i32, i64>, AllocError>
    requires { length items.now ≤ 16777216 }
    ensures { IfOk result (λ sums. sums.entries ≡ fold (λ js i. if int_eq i.1 (pos 0) then js else with_weight i js) [] items.now) }
{
    let mut sums = BTreeMap::new(alloc);
    for (i, (literal, weight)) in items.iter().enumerate() {
        add_weight(&mut sums, *literal, *weight, i)?;
    }
    Ok(sums)
}

fn keys(alloc: Global, set: &BTreeSet<i32>) -> Result<Vec<i32>, AllocError>
    ensures { IfOk result (λ keys. keys.items ≡ set.now.keys) }
{
    set.iter().copied().collect(alloc)
}

fn entries(alloc: Global, map: &BTreeMap<i32, i64>) -> Result<Vec<(i32, i64)>, AllocError>
    ensures { IfOk result (λ entries. entries.items ≡ map.now.entries) }
{
    map.iter().map(|(key, value)| (*key, *value)).collect(alloc)
}

// The literals, each once, ascending.
fn sorted(alloc: Global, literals: &[i32]) -> Result<Seq<i32>, AllocError>
    ensures { IfOk result (λ seq. seq ≡ fold (λ ks l. with_literal l ks) [] literals.now) }
{
    let set = literal_set(alloc, literals)?;
    let literals = keys(alloc, &set)?;
    Ok(Seq::from_vec(literals))
}

// The literals, ascending, each with the sum of its weights.
fn summed(alloc: Global, items: &[(i32, i32)]) -> Result<Seq<(i32, i64)>, AllocError>
    requires { length items.now ≤ 16777216 }
    ensures { IfOk result (λ seq. seq ≡ fold (λ js i. if int_eq i.1 (pos 0) then js else with_weight i js) [] items.now) }
{
    let sums = weight_sums(alloc, items)?;
    let items = entries(alloc, &sums)?;
    Ok(Seq::from_vec(items))
}

/// The normal form of a body.
pub fn normal_form(alloc: Global, body: BodyView<'_>) -> Result<Form, AllocError>
    requires { weighted_count (body_seen body) ≤ 16777216 }
    ensures { IfOk result (λ form. body_of form ≡ normal (body_seen body.entry)) }
{
    match body {
        BodyView::All(literals) => {
            let literals = sorted(alloc, literals)?;
            Ok(Form::All(literals))
        }
        BodyView::AtLeast(bound, items) => {
            let items = summed(alloc, items)?;
            Ok(Form::AtLeast(bound, items))
        }
    }
}

fn add_items(key: &mut Vec<i64>, items: &[(i32, i64)]) -> Result<(), AllocError>
    ensures { OnOk result (key.new.items ≡ key.old.items ++ item_words items.now) }
{
    for (literal, weight) in items {
        key.push(i64::from(*literal))?;
        key.push(*weight)?;
    }
    Ok(())
}

fn add_literals(key: &mut Vec<i64>, literals: &[i32]) -> Result<(), AllocError>
    ensures { OnOk result (key.new.items ≡ key.old.items ++ literals.now) }
{
    for literal in literals {
        key.push(i64::from(*literal))?;
    }
    Ok(())
}

/// The words by which a body is looked up.
pub fn key(alloc: Global, form: &Form) -> Result<Vec<i64>, AllocError>
    ensures { IfOk result (λ key. key.items ≡ key_of (body_of form.now)) }
{
    let mut key = Vec::new(alloc);
    match form {
        Form::All(literals) => {
            key.push(0)?;
            add_literals(&mut key, literals.as_slice())?;
        }
        Form::AtLeast(bound, items) => {
            key.push(1)?;
            key.push(i64::from(*bound))?;
            add_items(&mut key, items.as_slice())?;
        }
    }
    Ok(key)
}
