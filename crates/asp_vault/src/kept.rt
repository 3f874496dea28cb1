//! What a value in a vault stands for.
ghost use Rattle.std.specs.Prelude.{◌≡◌, ℕ, ◌^◌, ◌<◌, List, Option, length};

/// A value stands for its data, which no one changes, and a list of entries, which only grows.
pub trait Kept {
    /// The data.
    type About;

    /// An entry of the list.
    type Entry;

    // The data that a value is for.
    ghost about: { Self → Self.About };

    // The list that a value stands for.
    ghost entries: { Self → List Self.Entry };

    // The number of the seat that an entry names as its maker.
    ghost maker: { Self.Entry → Option ℕ };

    // The fact that each value in the vault meets.
    ghost sound: { Self → Type 0 };

    /// How many entries there are.
    fn len(&self) -> u64
        requires { sound self.now }
        ensures is { result ≡ length (entries self.now) }
        ensures fits { result < 2 ^ 63 };
}
