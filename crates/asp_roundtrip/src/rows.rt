//! Worked rows of rewriting. Each holds by computing.
ghost use Rattle.std.specs.Prelude.{◌≡◌, Ok, codes};
ghost use Rattle.asp_roundtrip.specs.Rewritten.{rewritten};

/// A text with every kind of statement, in an order and a layout of its own, and its canonical text; a text
/// that lacks its last line feed is the one that gets longer.
pub fn every_kind_of_statement()
    ensures free { rewritten (codes "\n  asp 1\t0 2\r\n10 a comment\n4 4 a, b 1 01\n1 1 2 1 2 0 0\n6 1 -2\n \n1 0 0 1 3 2 1 2 2 2\n5 7 2\n2 -0 1 -1 -5\n1 0 1 2147483647 0 0\n6 1 7\n0\n\n") ≡ Ok (codes "asp 1 0 0\n1 1 2 1 2 0 0\n1 0 0 1 3 2 1 2 2 2\n1 0 1 2147483647 0 0\n2 0 1 -1 -5\n4 4 a, b 1 1\n5 7 2\n6 2 -2 7\n0\n") }
    ensures canonical { rewritten (codes "asp 1 0 0\n1 1 2 1 2 0 0\n1 0 0 1 3 2 1 2 2 2\n1 0 1 2147483647 0 0\n2 0 1 -1 -5\n4 4 a, b 1 1\n5 7 2\n6 2 -2 7\n0\n") ≡ Ok (codes "asp 1 0 0\n1 1 2 1 2 0 0\n1 0 0 1 3 2 1 2 2 2\n1 0 1 2147483647 0 0\n2 0 1 -1 -5\n4 4 a, b 1 1\n5 7 2\n6 2 -2 7\n0\n") }
    ensures nothing { rewritten (codes "asp 1 0 0\r\n6 0\r\n0") ≡ Ok (codes "asp 1 0 0\n0\n") }
    ensures longer { rewritten (codes "asp 1 0 0\n0") ≡ Ok (codes "asp 1 0 0\n0\n") }
{}
