//! The statements by which sets are priced.
ghost use Rattle.std.specs.Prelude.{◌≡◌, IfOk};
ghost use Rattle.asp_model.specs.Sound.{IsSound};

use asp_model::outputs::Outputs;
use asp_model::program::{Minimize, Program};
use asp_model::rules::Rules;
use asp_model::seq::Seq;
use std::alloc::{AllocError, Global};

fn copied(alloc: Global, statements: &[Minimize]) -> Result<Vec<Minimize>, AllocError>
    ensures { IfOk result (λ copies. copies.items ≡ statements.now) }
{
    let mut copies = Vec::new(alloc);
    for statement in statements {
        let items = statement.items.copy(alloc)?;
        copies.push(Minimize {
            priority: statement.priority,
            items,
        })?;
    }
    Ok(copies)
}

/// A program that has the minimize statements alone, so that sets cost the same.
pub fn prices(alloc: Global, program: &Program) -> Result<Program, AllocError>
    requires { IsSound program.now }
    ensures same { IfOk result (λ p. p.minimize ≡ program.now.minimize) }
    ensures sound { IfOk result IsSound }
{
    let minimize = copied(alloc, program.minimize.as_slice())?;
    let rules = Rules::new(alloc)?;
    let outputs = Outputs::new(alloc)?;
    Ok(Program {
        rules,
        minimize: Seq::from_vec(minimize),
        outputs,
        externals: Seq::from_vec(Vec::new(alloc)),
        assumptions: Seq::from_vec(Vec::new(alloc)),
    })
}
