//! The command line of the solver.
#![tactic(auto)]

mod found;
mod hints;
mod names;
mod texts;
mod values;
mod walk;

ghost use Rattle.std.specs.Prelude.{◌≡◌, IfOk, map, string_bytes};
ghost use Rattle.asp_cli.specs.Given.{asks_help, asks_version, given_of, words_give};
ghost use Rattle.asp_cli.specs.Found.{IsApart, IsAsking};
ghost use Rattle.asp_cli.specs.Values.{IsCrew, IsPartCount, IsRing, is_row};

use asp_model::results::Mode;
pub use hints::{counterpart, nearest};
pub use names::Name;
pub use texts::{page_back, page_front, usage, version};

/// The format of a program.
#[derive(Clone, Copy)]
pub enum Format {
    /// The format aspif 1.0.
    Aspif,
    /// The text format of smodels.
    Smodels,
}

/// The form of the results that are written.
#[derive(Clone, Copy)]
pub enum Form {
    /// Lines of text.
    Text,
    /// JSON with the keys that clasp has.
    Json,
}

/// How several workers tell one another what they learnt.
#[derive(Clone, Copy)]
pub enum LogKind {
    /// By blocks of entries, to which one at a time adds.
    Blocks,
    /// By a row of slots, without a lock.
    Row,
}

impl LogKind {
    /// Whether it is a row of slots.
    pub fn is_row(self) -> bool
        ensures { result ≡ is_row self }
    {
        match self {
            LogKind::Blocks => false,
            LogKind::Row => true,
        }
    }
}

/// What the command line asks for.
#[derive(Clone, Copy)]
pub struct Options {
    /// How many threads may search: 1 to 64.
    pub workers: u32,
    /// How several of them tell one another what they learnt. One tells nothing.
    pub log: LogKind,
    /// What is sought; None leaves it to the program: an optimum exactly where it minimises something.
    pub mode: Option<Mode>,
    /// The format of the program that is read.
    pub format: Format,
    /// How many units of work there are, each of which a conflict costs. The greatest number is 2^63 - 1, which also stands where none was given.
    pub budget: u64,
    /// How many answers are enough, where a list of them is sought. With 0, which also stands where none was given, there is no
    /// limit.
    pub models: u64,
    /// Whether an optimisation lists all answers of least cost.
    pub all_optima: bool,
    /// The form of the results. It is text where a proof, parts or a ring are asked for.
    pub form: Form,
    /// Whether the closing lines alone are written, and no answer is made into text.
    pub quiet: bool,
    /// Whether lines of text tell consequences by name, and not by the atoms' numbers.
    pub names: bool,
    /// The number of nodes of the ring that is solved in place of a program that is read, if one is: 3 to 2000.
    pub make: Option<u32>,
    /// Whether queries follow the program, each of which is answered. There is no limit then, and neither a proof, all optima,
    /// a stream, consequences, parts nor a ring is asked for.
    pub queries: bool,
    /// Whether of a core no literal may be left out.
    pub core_min: bool,
    /// Whether the notes get counts of the run.
    pub stats: bool,
    /// Whether the notes get lines while one search goes on.
    pub progress: bool,
    /// Whether a list of answers or of optima is to be written while it is found, each as soon as no smaller one can come. Queries
    /// don't follow the program then.
    pub stream: bool,
    /// Whether a run writes a proof in place of its results.
    pub proof: bool,
    /// Into how many parts at most the program is divided in place of being solved, if it is: 1 to 100000. A proof isn't
    /// asked for then.
    pub split: Option<u32>,
}

/// The first fault of a command line, from the left.
#[derive(Clone, Copy)]
pub enum WordFault<'a> {
    /// Not even the program's name is there.
    NoWords,
    /// The word looks like an option, and is none; without its value.
    Unknown(&'a str),
    /// The word is neither an option nor the value of one.
    Unexpected(&'a str),
    /// The option was given before.
    Twice(Name),
    /// The option is the last word, without its value.
    Missing(Name),
    /// The option doesn't take this value.
    Value(Name, &'a str),
    /// The first was given, and the second can't stand beside it.
    Rivals(Name, Name),
}

/// Why the words of a command line give no options.
#[derive(Clone, Copy)]
pub enum CliError<'a> {
    /// The words are faulty.
    Usage(WordFault<'a>),
    /// A word asks for help, and none before it is faulty.
    Help,
    /// A word asks for the version, and none before it is faulty.
    Version,
}

/// Whether the word asks for help.
pub(crate) fn asks_for_help(word: &str) -> bool
    ensures { result ≡ asks_help word.now }
{
    word == "--help" || word == "-h"
}

/// Whether the word asks for the version.
pub(crate) fn asks_for_version(word: &str) -> bool
    ensures { result ≡ asks_version word.now }
{
    word == "--version"
}

/// What the words of a command line give, the program's name first. From the left the first word decides that asks for help
/// or the version, or is faulty; where none does, they give options.
pub fn words<'a>(words: &'a [String]) -> Result<Options, CliError<'a>>
    ensures answers { given_of result ≡ words_give (map string_bytes words.entry.now) }
    ensures ring { IfOk result (λ o. IsRing o.make) }
    ensures crew { IfOk result (λ o. IsCrew o.workers) }
    ensures parts { IfOk result (λ o. IsPartCount o.split) }
    ensures apart { IfOk result IsApart }
    ensures asking { IfOk result IsAsking }
{
    match words {
        [] => Err(CliError::Usage(WordFault::NoWords)),
        [_, rest @ ..] => walk::walk(rest),
    }
}
