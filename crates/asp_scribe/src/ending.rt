//! What a run's proof says of its results.
ghost use Rattle.std.specs.Prelude.{◌≡◌};
ghost use Rattle.asp_scribe.specs.Proofs.{is_part, sought_of};

use asp_model::results::{Ask, End, Mode};
use asp_proof::proof::Sought;

/// What a proof says that was sought.
pub fn sought_of(ask: Ask) -> Sought
    ensures { result ≡ sought_of ask }
{
    match ask.mode {
        Mode::Enum | Mode::Consequences(_) => Sought::All,
        Mode::Opt => {
            if ask.all_optima {
                Sought::Optima
            } else {
                Sought::Best
            }
        }
    }
}

/// Whether a run ended before all was found: with as many answers as were asked for, or with its budget.
pub fn is_part(end: End) -> bool
    ensures { result ≡ is_part end }
{
    match end {
        End::Limited | End::Unfinished => true,
        End::Finished => false,
    }
}
