//! The words of the command line, and how a run ends that can't have them.
ghost use Rattle.std.specs.Prelude.{◌≡◌, ◌⊎◌, IfErr};
ghost use Rattle.std.specs.IoError.{error_kind};
ghost use Rattle.asp_checkrun.specs.declared.status.Status.TheVariants.{Memory, Usage};
ghost use Rattle.asp_checkrun.specs.Statuses.{status_without};

use crate::status::Status;
use std::env::{self, Env};
use std::io::{self, ErrorKind};

// Out of memory stays so. An argument that isn't UTF-8 makes the command line faulty.
fn status_without(error: &io::Error) -> Status
    ensures { result ≡ status_without (error_kind error.now) }
{
    match error.kind() {
        ErrorKind::OutOfMemory => Status::Memory,
        _ => Status::Usage,
    }
}

fn gather<R: Env + AllocGlobal>(rt: &R) -> io::Result<Vec<String>> {
    let mut words = Vec::new(rt.alloc());
    for word in env::args(rt)? {
        words.push(word)?;
    }
    Ok(words)
}

/// The words of the command line, the program's name first, or the status of a run that can't have them: Memory, or
/// Usage where an argument isn't UTF-8.
pub fn collect_words<R: Env + AllocGlobal>(rt: &R) -> Result<Vec<String>, Status>
    ensures lost { IfErr result (λ status. (status ≡ Memory) ⊎ (status ≡ Usage)) }
{
    match gather(rt) {
        Ok(words) => Ok(words),
        Err(error) => Err(status_without(&error)),
    }
}
