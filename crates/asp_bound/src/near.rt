//! Whether a variable may reach the bound.
ghost use Rattle.std.specs.Prelude.{◌<◌, ◌^◌, ◌<ℤ◌, pos, IsTrue};
ghost use Rattle.asp_bound.specs.Found.{IsNear};

/// Whether a variable that adds so much at a priority may reach the bound there.
pub fn is_near(sum: i64, limit: i64, most: u64) -> bool
    requires sum { sum <ℤ pos (2 ^ 60) }
    requires most { most < 2 ^ 60 }
    ensures { IsNear sum limit most → IsTrue result }
{
    most > 0 && limit <= sum + most as i64
}
