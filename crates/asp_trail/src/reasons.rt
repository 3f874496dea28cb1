//! Why literals were implied.
//!
//! A number below `LATE` is that of a nogood that is kept. One from there on says that the reason isn't written: whoever
//! implied the literal writes it when it is asked for.
ghost use Rattle.std.specs.Prelude.{IfOk, IfSome};

use asp_vars::lit::Lit;
use asp_vars::nogood::Nogood;
use std::alloc::AllocError;

/// The number of a reason: that of a nogood that is kept, or one from `LATE` on.
pub type NogoodId = usize;

/// The first number of a reason that is written when it is asked for.
pub const LATE: NogoodId = 0x8000_0000;

/// What knows the reasons that a trail names.
pub trait Reasons {
    ghost use Rattle.std.specs.Prelude.{ℕ};
    ghost use Rattle.asp_vars.specs.Literals.{Literal};
    ghost use Rattle.asp_vars.specs.declared.nogood.Nogood.{Nogood};

    /// It may be asked for the reason of a literal, which has this number.
    ghost asks: { Self → Literal → ℕ → Type 0 };

    /// It may say that this nogood is the reason of a literal, which has this number.
    ghost says: { Self → Literal → ℕ → Nogood → Type 0 };

    /// The reason of a literal, if it is kept.
    fn kept(&self, lit: Lit, id: NogoodId) -> Option<&Nogood>
        requires { asks self.now lit id }
        ensures { IfSome result (λ n. says self.now lit id n.now) };

    /// The reason of a literal, written anew.
    ///
    /// Want of memory is the one error.
    fn write(&self, lit: Lit, id: NogoodId) -> Result<Nogood, AllocError>
        requires { asks self.now lit id }
        ensures { IfOk result (says self.now lit id) };
}
