//! What is left of literals and bodies.
ghost use Rattle.std.specs.Prelude.{◌≡◌, ◌∷◌, [], ◌*◌, ◌≤◌, filter, not, true, length, pos, ◌≤ℤ◌, ◌&&◌, if◌then◌else◌, IsTrue};
ghost use Rattle.std.specs.List.{list_all, list_any};
ghost use Rattle.std.specs.Option.{option_to_list};
ghost use Rattle.asp_model.specs.Holding.{atom_of, is_positive};
ghost use Rattle.asp_model.specs.Sets.{has};
ghost use Rattle.asp_model.specs.Sound.{is_sound_body, is_weighted, weighted_count};
ghost use Rattle.asp_model.specs.Views.{body_seen};
ghost use Rattle.asp_settle.specs.Constraints.{is_barred};
ghost use Rattle.asp_settle.specs.Settled.{lowered, settled_body, settled_items, settled_literals, settled_weight};

use crate::table::AtomTable;
use asp_model::program::Body;
use asp_model::seq::Seq;
use asp_model::view::BodyView;

/// Whether a literal says that an atom of the table is absent.
pub(crate) fn is_barred(facts: &AtomTable, literal: i32) -> bool
    ensures { result ≡ is_barred facts.now literal }
{
    literal < 0 && facts.has(literal.unsigned_abs())
}

fn is_some_barred(facts: &AtomTable, literals: &[i32]) -> bool
    ensures { result ≡ list_any (is_barred facts.now) literals.now }
{
    literals.iter().any(|literal| is_barred(facts, *literal))
}

fn without_facts(facts: &AtomTable, literals: Seq<i32>) -> Seq<i32>
    ensures { result ≡ filter (λ l. not (has facts.now (atom_of l))) literals }
{
    let mut literals = literals.into_vec();
    literals.retain(|literal| !facts.has(literal.unsigned_abs()));
    literals.shrink_to_fit();
    Seq::from_vec(literals)
}

/// The literals that aren't facts; none where one of them can't hold.
pub(crate) fn settled_literals(facts: &AtomTable, literals: Seq<i32>) -> Option<Seq<i32>>
    ensures { option_to_list result ≡ settled_literals facts.now literals }
{
    if is_some_barred(facts, literals.as_slice()) {
        return None;
    }
    Some(without_facts(facts, literals))
}

fn settled_items(facts: &AtomTable, items: Seq<(i32, i32)>) -> Seq<(i32, i32)>
    ensures { result ≡ settled_items facts.now items }
{
    let mut items = items.into_vec();
    items.retain(|(literal, _)| !facts.has(literal.unsigned_abs()));
    items.shrink_to_fit();
    Seq::from_vec(items)
}

// The weight, where the literal is a fact.
fn item_weight(facts: &AtomTable, literal: i32, weight: i32) -> i64
    requires { pos 0 ≤ℤ weight }
    ensures weight { result ≡ (if is_positive literal && has facts.now (atom_of literal) then weight else pos 0) }
    ensures low { pos 0 ≤ℤ result }
    ensures high { result ≤ℤ pos 2147483648 }
{
    if literal >= 0 && facts.has(literal.unsigned_abs()) {
        i64::from(weight)
    } else {
        0
    }
}

// The weights of the facts.
fn settled_weight(facts: &AtomTable, items: &[(i32, i32)]) -> i64
    requires few { length items.now ≤ 16777216 }
    requires weighted { IsTrue (list_all is_weighted items.now) }
    ensures weight { result ≡ settled_weight facts.now items.now }
    ensures low { pos 0 ≤ℤ result }
    ensures high { result ≤ℤ pos (2147483648 * length items.now) }
{
    let mut total: i64 = 0;
    for (literal, weight) in items {
        total += item_weight(facts, *literal, *weight);
    }
    total
}

// The bound behind a weight, 0 at least.
fn lowered(bound: i32, weight: i64) -> i32
    requires low { pos 0 ≤ℤ weight }
    requires high { weight ≤ℤ pos 36028797018963968 }
    ensures { result ≡ lowered bound weight }
{
    let rest = i64::from(bound) - weight;
    if rest <= 0 { 0 } else { rest as i32 }
}

/// What is left of the body; none where it can't hold.
pub(crate) fn settled_body(facts: &AtomTable, body: Body) -> Option<Body>
    requires sound { IsTrue (is_sound_body body) }
    requires few { weighted_count body ≤ 16777216 }
    ensures { option_to_list result ≡ settled_body facts.now body }
{
    match body {
        Body::All(literals) => match settled_literals(facts, literals) {
            Some(literals) => Some(Body::All(literals)),
            None => None,
        },
        Body::AtLeast(bound, items) => {
            let weight = settled_weight(facts, items.as_slice());
            Some(Body::AtLeast(lowered(bound, weight), settled_items(facts, items)))
        }
    }
}

/// Whether none of the literals' atoms is a fact.
pub(crate) fn literals_stay(facts: &AtomTable, literals: &[i32]) -> bool
    ensures { result ≡ list_all (λ l. not (has facts.now (atom_of l))) literals.now }
{
    literals
        .iter()
        .all(|literal| !facts.has(literal.unsigned_abs()))
}

fn items_stay(facts: &AtomTable, items: &[(i32, i32)]) -> bool
    ensures { result ≡ list_all (λ i. not (has facts.now (atom_of i.0))) items.now }
{
    items
        .iter()
        .all(|(literal, _)| !facts.has(literal.unsigned_abs()))
}

/// Whether the body is seen to stay as it is.
pub(crate) fn body_stays(facts: &AtomTable, body: BodyView<'_>) -> bool
    ensures { result ≡ true → settled_body facts.now (body_seen body.entry) ≡ body_seen body.entry ∷ [] }
{
    match body {
        BodyView::All(literals) => literals_stay(facts, literals),
        BodyView::AtLeast(bound, items) => bound >= 0 && items_stay(facts, items),
    }
}
