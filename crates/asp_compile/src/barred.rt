//! Which bodies constraints have.
ghost use Rattle.std.specs.Prelude.{◌≡◌, ◌+◌, ◌<◌, ◌++◌, true, All, IfOk, length, if◌then◌else◌, slice_set};
ghost use Rattle.asp_model.specs.Models.{is_never};
ghost use Rattle.asp_model.specs.Views.{head_seen};
ghost use Rattle.asp_compile.specs.Headed.{AreBarred};

use asp_model::program::Rule;
use asp_model::rules::Rules;
use asp_model::view::HeadView;
use asp_vars::rules::rule_at;
use std::alloc::{AllocError, Global};

// Marks the rule's body, if the rule is a constraint.
fn mark(marks: &mut Vec<bool>, body: usize, head: HeadView<'_>)
    requires { body < length marks.old.items }
    ensures { marks.new.items ≡ (if is_never (head_seen head.entry) then slice_set marks.old.items body true else marks.old.items) }
{
    if let HeadView::Never = head {
        marks[body] = true;
    }
}

/// For each body whether a constraint has it. A rule's body stands at its place.
pub fn barred_bodies(
    alloc: Global,
    count: usize,
    places: &[u32],
    rules: &Rules,
    opened: &[Rule],
) -> Result<Vec<bool>, AllocError>
    requires places { length places.now ≡ length rules.now + length opened.now }
    requires within { All (λ j. j < count) places.now }
    ensures { IfOk result (λ marks. AreBarred marks.items count places.now (rules.now ++ opened.now)) }
{
    let mut marks = vec![in alloc; false; count]?;
    for (i, place) in places.iter().enumerate() {
        let rule = rule_at(rules, opened, i);
        mark(&mut marks, *place as usize, rule.head);
    }
    Ok(marks)
}
