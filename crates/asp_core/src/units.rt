//! Units of work that are out, by number.
ghost use Rattle.std.specs.Prelude.{◌≡◌, ◌+◌, ◌<◌, ◌^◌, MatchOption, OnOk, OnErr};
ghost use Rattle.asp_core.specs.Units.{out_of, leased, returned, IsEntry, HasNoEntry};

use std::alloc::AllocError;

// Where the entry of a number stands.
fn entry(out: &[(u32, u64)], number: u32) -> Option<usize>
    ensures { MatchOption result (HasNoEntry out.now number) (IsEntry out.now number) }
{
    for (i, x) in out.iter().enumerate() {
        if x.0 == number {
            return Some(i);
        }
    }
    None
}

/// Puts n more units out for a number.
pub fn lease_out(out: &mut Vec<(u32, u64)>, number: u32, n: u64) -> Result<(), AllocError>
    requires { out_of out.old.items number + n < 2 ^ 64 }
    ensures ok { OnOk result (out.new.items ≡ leased number n out.old.items) }
    ensures err { OnErr result (out.new.items ≡ out.old.items) }
{
    match entry(out.as_slice(), number) {
        Some(i) => {
            out[i].1 += n;
        }
        None => {
            out.push((number, n))?;
        }
    }
    Ok(())
}

/// Takes a number's units back.
pub fn return_out(out: &mut Vec<(u32, u64)>, number: u32)
    ensures { out.new.items ≡ returned number out.old.items }
{
    if let Some(i) = entry(out.as_slice(), number) {
        out[i].1 = 0;
    }
}

/// A number's units.
pub fn units_of(out: &[(u32, u64)], number: u32) -> u64
    ensures { result ≡ out_of out.now number }
{
    match entry(out, number) {
        Some(i) => out[i].1,
        None => 0,
    }
}
