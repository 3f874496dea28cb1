//! What bodies lack, counted off.
ghost use Rattle.std.specs.Prelude.{◌<◌, IsTrue, length};
ghost use Rattle.asp_vars.specs.Numbering.{bodies_of};

use asp_vars::compiled::Compiled;

/// Counts a literal off in a body, and says whether the body came to lack nothing by that.
pub fn count_off(compiled: &Compiled, lacks: &mut [i64], body: usize, place: usize) -> bool
    ensures { IsTrue result → body < length (bodies_of compiled.now) }
{
    if body >= compiled.body_count() {
        return false;
    }
    let weight = match compiled.bound(body) {
        Some(_) => compiled.weights(body).get(place).copied().unwrap_or(0),
        None => 1,
    };
    match lacks.get_mut(body) {
        Some(left) => {
            let before = *left;
            *left = before.saturating_sub(weight);
            before > 0 && *left <= 0
        }
        None => false,
    }
}
