//! How many atoms and literals a statement has.
ghost use Rattle.std.specs.Prelude.{◌≡◌, ◌≤◌};
ghost use Rattle.asp_read.specs.Fields.{most_counted};
ghost use Rattle.asp_read.specs.Sizes.{head_size, body_size, rule_size};

use asp_model::program::{Body, Head, Rule};

pub fn size_of_head(head: &Head) -> u32
    requires { head_size head.now ≤ most_counted }
    ensures { result ≡ head_size head.now }
{
    match head {
        Head::One(_) => 1,
        Head::Choice(atoms) => atoms.as_slice().len() as u32,
        Head::Never => 0,
    }
}

fn size_of_body(body: &Body) -> u32
    requires { body_size body.now ≤ most_counted }
    ensures { result ≡ body_size body.now }
{
    match body {
        Body::All(literals) => literals.as_slice().len() as u32,
        Body::AtLeast(_, items) => items.as_slice().len() as u32,
    }
}

pub fn size_of_rule(rule: &Rule) -> u32
    requires { rule_size rule.now ≤ most_counted }
    ensures { result ≡ rule_size rule.now }
{
    size_of_head(&rule.head) + size_of_body(&rule.body)
}
