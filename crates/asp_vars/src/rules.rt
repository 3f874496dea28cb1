//! The rules in force.
ghost use Rattle.std.specs.Prelude.{◌≡◌, ◌+◌, ◌<◌, ◌++◌, length, slice_index_or};
ghost use Rattle.asp_model.specs.Views.{rule_seen};

use asp_model::program::Rule;
use asp_model::rules::Rules;
use asp_model::view::RuleView;

/// A rule of the one list and then of the other.
pub fn rule_at<'a>(rules: &'a Rules, opened: &'a [Rule], rule: usize) -> RuleView<'a>
    requires { rule < length rules.now + length opened.now }
    ensures { rule_seen result ≡ slice_index_or (rules.now ++ opened.now) rule (rule_seen result) }
{
    if rule < rules.len() {
        rules.rule(rule)
    } else {
        opened[rule - rules.len()].view()
    }
}
