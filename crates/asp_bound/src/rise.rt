//! By how much a value raises the optimistic cost.
ghost use Rattle.std.specs.Prelude.{◌≡◌, ◌<◌, ◌^◌};
ghost use Rattle.std.specs.Int.RustNames.{unsigned_abs};
ghost use Rattle.asp_bound.specs.Rises.{above, rise};

fn above(number: i64) -> u64
    ensures { result ≡ above number }
{
    if number > 0 { number as u64 } else { 0 }
}

/// What the value adds to the least cost of a variable without one, by the weights of the literals that it is true or false.
pub fn rise(truth: bool, if_true: i64, if_false: i64) -> u64
    requires if_true { unsigned_abs if_true < 2 ^ 56 }
    requires if_false { unsigned_abs if_false < 2 ^ 56 }
    ensures rise { result ≡ rise truth if_true if_false }
    ensures small { result < 2 ^ 57 }
{
    if truth {
        above(if_true - if_false)
    } else {
        above(if_false - if_true)
    }
}
