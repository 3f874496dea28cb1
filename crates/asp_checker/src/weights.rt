//! Weight bodies under values.
ghost use Rattle.std.specs.Prelude.{◌≡◌, ◌+◌, ◌<◌, Some, length};
ghost use Rattle.std.specs.List.{list_any};
ghost use Rattle.asp_vars.specs.Numbering.{bodies_of, nth_body, var_count};
ghost use Rattle.asp_vars.specs.Tabled.{bound_of};
ghost use Rattle.asp_checker.specs.Propagation.{is_broken};

use asp_member::weighing::reaches;
use asp_vars::assign::Assign;
use asp_vars::compiled::Compiled;

// Whether the body has a value that its literals can't give it any more.
fn is_weight_body_broken(compiled: &Compiled, values: &Assign, body: usize, bound: i32) -> bool
    requires body { body < length (bodies_of compiled.now) }
    requires size { length values.now ≡ var_count compiled.now + 1 }
    requires weighted { bound_of (nth_body compiled.now body) ≡ Some bound }
    ensures { result ≡ is_broken compiled.now values.now (nth_body compiled.now body) }
{
    let _program = compiled.program();
    let lits = compiled.literals(body);
    let weights = compiled.weights(body);
    match values.value(compiled.body_lit(body).var()) {
        None => false,
        Some(true) => !reaches(values, true, lits, weights, bound),
        Some(false) => reaches(values, false, lits, weights, bound),
    }
}

/// Whether the weight body is true and out of reach, or false and reached.
pub(crate) fn is_broken(compiled: &Compiled, values: &Assign, body: usize) -> bool
    requires body { body < length (bodies_of compiled.now) }
    requires size { length values.now ≡ var_count compiled.now + 1 }
    ensures { result ≡ is_broken compiled.now values.now (nth_body compiled.now body) }
{
    match compiled.bound(body) {
        None => false,
        Some(bound) => is_weight_body_broken(compiled, values, body, bound),
    }
}

/// Whether a weight body is true and out of reach, or false and reached.
pub fn are_broken(compiled: &Compiled, values: &Assign) -> bool
    requires { length values.now ≡ var_count compiled.now + 1 }
    ensures { result ≡ list_any (is_broken compiled.now values.now) (bodies_of compiled.now) }
{
    for body in 0..compiled.body_count() {
        if is_broken(compiled, values, body) {
            return true;
        }
    }
    false
}
