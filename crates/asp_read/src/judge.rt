//! Who judges the lines of a text, each with those before it.
ghost use Rattle.std.specs.Prelude.{◌≡◌, IfErr};
ghost use Rattle.asp_read.specs.Gives.{Gives};
ghost use Rattle.asp_read.specs.Stream.{IsOfLines};

use crate::error::LineError;
use crate::fault::ReadError;

/// A judge of lines, which stands for what the lines so far said.
pub trait Judge: Drop {
    ghost use Rattle.asp_read.specs.Judging.{Format};

    /// What a text says.
    type Parsed;

    /// What the lines have to say.
    ghost format: { Format Self Self.Parsed };

    /// Judges a line, with the lines before it.
    fn judge(&mut self, line: &[u8]) -> Result<(), LineError>
        ensures { Gives (λ _. self.new) result (format.after_line self.old line.now) };

    /// The end of the text, as the line with this number.
    fn end(self, number: u32) -> Result<Self::Parsed, ReadError>
        ensures end { result ≡ format.at_end number self }
        ensures of_lines { IfErr result IsOfLines };
}
