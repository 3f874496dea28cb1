//! What is asked of a program.
ghost use Rattle.std.specs.Prelude.{◌≡◌};
ghost use Rattle.asp_prepare.specs.Meaning.{mode_of};
ghost use Rattle.asp_prepare.specs.Naming.{ask_of};

use crate::prepared::is_named;
use asp_cli::Options;
use asp_model::program::Program;
use asp_model::results::{Ask, Mode};

/// The mode that was asked for, or else the program's own: an optimum exactly where it minimises something.
pub fn mode_of(asked: Option<Mode>, program: &Program) -> Mode
    ensures { result ≡ mode_of asked program.now }
{
    match asked {
        Some(mode) => mode,
        None => match program.minimize.as_slice() {
            [] => Mode::Enum,
            _ => Mode::Opt,
        },
    }
}

/// What is asked of the program by the options.
pub fn ask_of(options: &Options, program: &Program) -> Ask
    ensures { result ≡ ask_of options.now program.now }
{
    Ask {
        mode: mode_of(options.mode, program),
        models: options.models,
        all_optima: options.all_optima,
        by_name: is_named(options),
    }
}
