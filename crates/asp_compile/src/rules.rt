//! The numbers of the bodies of rules.
ghost use Rattle.std.specs.Prelude.{◌≡◌, ◌+◌, ◌<◌, ◌^◌, ◌++◌, All, IfOk, map, length};
ghost use Rattle.asp_model.specs.Sound.{HasFewItems};
ghost use Rattle.asp_vars.specs.Numbering.{normal, body_eq, distinct, place_of};

use crate::bodies::Bodies;
use crate::form::normal_form;
use asp_model::program::Rule;
use asp_model::rules::Rules;
use asp_vars::rules::rule_at;
use std::alloc::{AllocError, Global};

/// The distinct bodies of the rules, and the place of each rule's body among them.
pub fn number(
    alloc: Global,
    rules: &Rules,
    opened: &[Rule],
) -> Result<(Bodies, Vec<u32>), AllocError>
    requires few { length rules.now + length opened.now < 2 ^ 31 }
    requires items { All HasFewItems (rules.now ++ opened.now) }
    ensures bodies { IfOk result (λ r. r.0 ≡ distinct (map (λ x. normal x.body) (rules.now ++ opened.now))) }
    ensures places { IfOk result (λ r. r.1.items ≡ map (λ x. place_of (body_eq (normal x.body)) r.0) (rules.now ++ opened.now)) }
{
    let mut bodies = Bodies::new(alloc);
    let mut places = Vec::new(alloc);
    for i in 0..rules.len() + opened.len() {
        let rule = rule_at(rules, opened, i);
        let form = normal_form(alloc, rule.body)?;
        let (more, place) = bodies.with(alloc, form)?;
        bodies = more;
        places.push(place)?;
    }
    Ok((bodies, places))
}
