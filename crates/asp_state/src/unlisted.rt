//! First activities by bodies whose definitions the completion doesn't list: weight bodies, and those of constraints.
ghost use Rattle.std.specs.Prelude.{◌≡◌, ◌<◌, length};
ghost use Rattle.asp_order.specs.Waiting.{HasVars};
ghost use Rattle.asp_vars.specs.Numbering.{var_count, bodies_of, nth_body};
ghost use Rattle.asp_state.specs.SearchStates.{with_places, unlisted_literals, with_unlisted};

use asp_order::order::Order;
use asp_vars::compiled::Compiled;

// A bump for each place where a variable stands in the body, if its definition isn't listed.
fn begin_body(order: &mut Order, compiled: &Compiled, body: usize)
    requires body { body < length (bodies_of compiled.now) }
    requires vars { HasVars (var_count compiled.now) order.old }
    ensures { order.new ≡ with_places order.old (unlisted_literals compiled.now (nth_body compiled.now body)) }
{
    let _vars = compiled.vars();
    if compiled.bound(body).is_some() || compiled.is_barred(body) {
        order.begin(compiled.literals(body));
    }
}

/// A bump for each place where a variable stands in a body whose definition isn't listed.
pub fn begin_unlisted(order: &mut Order, compiled: &Compiled)
    requires { HasVars (var_count compiled.now) order.old }
    ensures { order.new ≡ with_unlisted compiled.now order.old }
{
    for body in 0..compiled.body_count() {
        begin_body(order, compiled, body);
    }
}
