//! Whether a body is silent.
ghost use Rattle.std.specs.Prelude.{◌≡◌, ◌+◌, ◌<◌, ◌≤◌, nat_le, nat_lt, true, false, not, ◌||◌, Some, None, IfNone, IfSome, length};
ghost use Rattle.std.specs.List.{All, AllPairs, list_all};
ghost use Rattle.asp_vars.specs.Literals.{value_of, holds_in};
ghost use Rattle.asp_trail.specs.Fixpoint.{is_open};
ghost use Rattle.asp_weight.specs.Rows.{sum_where, total_of, need_of, is_short, is_silent_row, shape_at, row_at};
ghost use Rattle.asp_weight.specs.Tallied.{sum_for};
ghost use Rattle.asp_weight.specs.Spoken.{item_at, Speaks, AreReady};
ghost use Rattle.asp_weight.specs.Kept.{ArePassed, AreCounted, AreSilentRows};

use crate::item::{Item, Shape};
use crate::tally::{Tallies, Tally};
use asp_table::table::Table;
use asp_vars::assign::Assign;

/// A side of a body that the literals that hold settle, or would with an open one.
#[derive(Clone, Copy)]
pub struct Speech {
    /// Whether the body is true, or false, by the literals.
    pub side: bool,
    /// The place in the row of the open literal that would settle it; None where it is settled.
    pub open: Option<usize>,
}

/// What a body says, unless it is silent, and how many of its first items are known to have values.
#[derive(Clone, Copy)]
pub struct Finding {
    /// None where the body is silent.
    pub speech: Option<Speech>,
    /// So many of the row's first items have values.
    pub start: usize,
}

// The first item without a value, if it weighs so much, and how many items before it have values.
#[derive(Clone, Copy)]
struct Search {
    /// The item's place in the row; None where all that weigh so much have values.
    open: Option<usize>,
    /// So many of the row's first items have values.
    start: usize,
}

// The search begins behind items that have values.
fn heaviest_open(row: &[Item], values: &Assign, least: u64, start: usize) -> Search
    requires within { All (λ i. i.lit.var < length values.now) row.now }
    requires falling { AllPairs (λ i j. j.weight ≤ i.weight) row.now }
    requires passed { ArePassed values.now row.now start }
    ensures none { IfNone result.open (list_all (λ i. not (is_open values.now i.lit) || nat_lt i.weight least) row.now ≡ true) }
    ensures some { IfSome result.open (λ j. (j < length row.now) × (is_open values.now (item_at row.now j).lit ≡ true) × (least ≤ (item_at row.now j).weight)) }
    ensures passed { ArePassed values.now row.now result.start }
{
    for i in start..row.len() {
        let item = &row[i];
        if item.weight < least {
            return Search {
                open: None,
                start: i,
            };
        }
        if values.value(item.lit.var()).is_none() {
            return Search {
                open: Some(i),
                start: i,
            };
        }
    }
    Search {
        open: None,
        start: row.len(),
    }
}

fn sum(tally: &Tally, side: bool) -> u64
    ensures { result ≡ sum_for side tally.now }
{
    if side { tally.reached } else { tally.missed }
}

pub fn need(shape: &Shape, side: bool) -> u64
    ensures { result ≡ need_of side shape.now }
{
    if side { shape.reach } else { shape.miss }
}

// Whether the literals that hold settle the side.
fn is_settled(tally: &Tally, shape: &Shape, side: bool) -> bool
    ensures { result ≡ nat_le (need_of side shape.now) (sum_for side tally.now) }
{
    need(shape, side) <= sum(tally, side)
}

// A body whose variable has the value that the side would rule out. Where the literals that hold settle the other side, as
// that value says, those without a value weigh too little for this one, and the row needn't be read.
fn look_at_side(side: bool, tally: &Tally, shape: &Shape, row: &[Item], values: &Assign) -> Finding
    requires within { All (λ i. i.lit.var < length values.now) row.now }
    requires falling { AllPairs (λ i j. j.weight ≤ i.weight) row.now }
    requires whole { total_of row.now < shape.now.reach + shape.now.miss }
    requires counted { sum_for side tally.now ≡ sum_where (holds_in values.now) side row.now }
    requires other { sum_for (not side) tally.now ≡ sum_where (holds_in values.now) (not side) row.now }
    requires valued { value_of values.now shape.now.var ≡ Some (not side) }
    requires passed { ArePassed values.now row.now tally.now.start }
    ensures none { IfNone result.speech (is_short side values.now shape.now row.now ≡ true) }
    ensures some { IfSome result.speech (λ x. Speaks x values.now shape.now row.now) }
    ensures passed { ArePassed values.now row.now result.start }
{
    let start = tally.start as usize;
    if is_settled(tally, shape, !side) {
        return Finding {
            speech: None,
            start,
        };
    }
    let sum = sum(tally, side);
    let need = need(shape, side);
    if need <= sum {
        return Finding {
            speech: Some(Speech { side, open: None }),
            start,
        };
    }
    let Search { open, start } = heaviest_open(row, values, need - sum, start);
    match open {
        None => Finding {
            speech: None,
            start,
        },
        Some(place) => Finding {
            speech: Some(Speech {
                side,
                open: Some(place),
            }),
            start,
        },
    }
}

// A body whose variable has no value.
fn look_at_both(tally: &Tally, shape: &Shape, row: &[Item], values: &Assign) -> Option<Speech>
    requires reached { tally.now.reached ≡ sum_where (holds_in values.now) true row.now }
    requires missed { tally.now.missed ≡ sum_where (holds_in values.now) false row.now }
    requires open { value_of values.now shape.now.var ≡ None }
    ensures none { IfNone result (is_silent_row values.now shape.now row.now ≡ true) }
    ensures some { IfSome result (λ x. Speaks x values.now shape.now row.now) }
{
    if shape.reach <= tally.reached {
        return Some(Speech {
            side: true,
            open: None,
        });
    }
    if shape.miss <= tally.missed {
        return Some(Speech {
            side: false,
            open: None,
        });
    }
    let _ = row;
    let _ = values;
    None
}

/// What the body says, unless it is silent, and where the next look may begin.
pub fn look(tally: &Tally, shape: &Shape, row: &[Item], values: &Assign) -> Finding
    requires var { shape.now.var < length values.now }
    requires within { All (λ i. i.lit.var < length values.now) row.now }
    requires falling { AllPairs (λ i j. j.weight ≤ i.weight) row.now }
    requires whole { total_of row.now < shape.now.reach + shape.now.miss }
    requires reached { tally.now.reached ≡ sum_where (holds_in values.now) true row.now }
    requires missed { tally.now.missed ≡ sum_where (holds_in values.now) false row.now }
    requires passed { ArePassed values.now row.now tally.now.start }
    ensures none { IfNone result.speech (is_silent_row values.now shape.now row.now ≡ true) }
    ensures some { IfSome result.speech (λ x. Speaks x values.now shape.now row.now) }
    ensures passed { ArePassed values.now row.now result.start }
{
    match values.value(shape.var) {
        None => Finding {
            speech: look_at_both(tally, shape, row, values),
            start: tally.start as usize,
        },
        Some(value) => look_at_side(!value, tally, shape, row, values),
    }
}

// The place in the 32 bits of a counter, or the last one that they have.
fn short(place: usize) -> u32
    ensures { result ≤ place }
{
    if place <= u32::MAX as usize {
        place as u32
    } else {
        u32::MAX
    }
}

// What the body says, unless it is silent. It keeps where the next look is to begin.
fn look_at(
    tallies: &mut Tallies,
    body: usize,
    shapes: &[Shape],
    rows: &Table<Item>,
    values: &Assign,
) -> Option<Speech>
    requires body { body < length rows.now }
    requires ready { AreReady values.now shapes.now rows.now }
    requires counted { AreCounted values.now rows.now tallies.old.tallies }
    requires silence { AreSilentRows values.now shapes.now rows.now tallies.old.tallies }
    ensures queue { tallies.new.queue ≡ tallies.old.queue }
    ensures counted { AreCounted values.now rows.now tallies.new.tallies }
    ensures silence { AreSilentRows values.now shapes.now rows.now tallies.new.tallies }
    ensures none { IfNone result (is_silent_row values.now (shape_at shapes.now body) (row_at rows.now body) ≡ true) }
    ensures some { IfSome result (λ x. Speaks x values.now (shape_at shapes.now body) (row_at rows.now body)) }
{
    let Finding { speech, start } = look(tallies.at(body), &shapes[body], rows.row(body), values);
    tallies.begin_at(body, short(start));
    speech
}

/// What the newest queued body that isn't silent says. The silent ones before it leave the queue.
pub fn first_speech(
    tallies: &mut Tallies,
    shapes: &[Shape],
    rows: &Table<Item>,
    values: &Assign,
) -> Option<(usize, Speech)>
    requires ready { AreReady values.now shapes.now rows.now }
    requires counted { AreCounted values.now rows.now tallies.old.tallies }
    requires silence { AreSilentRows values.now shapes.now rows.now tallies.old.tallies }
    ensures counted { AreCounted values.now rows.now tallies.new.tallies }
    ensures silence { AreSilentRows values.now shapes.now rows.now tallies.new.tallies }
    ensures none { IfNone result (All (λ t. t.queued ≡ false) tallies.new.tallies) }
    ensures some { IfSome result (λ r. (r.0 < length rows.now) × Speaks r.1 values.now (shape_at shapes.now r.0) (row_at rows.now r.0)) }
{
    while let Some(body) = tallies.newest() {
        if let Some(speech) = look_at(tallies, body, shapes, rows, values) {
            return Some((body, speech));
        }
        tallies.settle();
    }
    None
}
