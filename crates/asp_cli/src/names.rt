//! The options' names, and other words for them.
ghost use Rattle.std.specs.Prelude.{◌≡◌};
ghost use Rattle.asp_cli.specs.Names.{meant, named, takes_of, text_of};

/// An option.
#[derive(Clone, Copy)]
pub enum Name {
    Mode,
    Format,
    Models,
    OptAll,
    Workers,
    Log,
    Budget,
    Output,
    Quiet,
    Names,
    Proof,
    Split,
    Make,
    Queries,
    CoreMin,
    Stats,
    Progress,
    Stream,
}

impl Name {
    /// The word that names it.
    pub fn text(self) -> &'static str
        ensures { result.now ≡ text_of self }
    {
        match self {
            Name::Mode => "--mode",
            Name::Format => "--format",
            Name::Models => "--models",
            Name::OptAll => "--opt-all",
            Name::Workers => "--workers",
            Name::Log => "--log",
            Name::Budget => "--budget",
            Name::Output => "--output",
            Name::Quiet => "--quiet",
            Name::Names => "--names",
            Name::Proof => "--proof",
            Name::Split => "--split",
            Name::Make => "--make",
            Name::Queries => "--queries",
            Name::CoreMin => "--core-min",
            Name::Stats => "--stats",
            Name::Progress => "--progress",
            Name::Stream => "--stream",
        }
    }

    /// What it takes, as the notes tell it.
    pub fn takes(self) -> &'static str
        ensures { result.now ≡ takes_of self }
    {
        match self {
            Name::Mode => "auto, enum, opt, brave or cautious",
            Name::Format => "aspif or smodels",
            Name::Log => "blocks or row",
            Name::Output => "text or json",
            Name::Models | Name::Budget => "a number up to 9223372036854775807",
            Name::Workers => "a number from 1 to 64",
            Name::Split => "a number from 1 to 100000",
            Name::Make => "a number from 3 to 2000",
            Name::OptAll
            | Name::Quiet
            | Name::Names
            | Name::Proof
            | Name::Queries
            | Name::CoreMin
            | Name::Stats
            | Name::Progress
            | Name::Stream => "no value",
        }
    }
}

/// The option that the word names.
pub fn named(word: &str) -> Option<Name>
    ensures { result ≡ named word.now }
{
    if word == Name::Mode.text() {
        Some(Name::Mode)
    } else if word == Name::Format.text() {
        Some(Name::Format)
    } else if word == Name::Models.text() {
        Some(Name::Models)
    } else if word == Name::OptAll.text() {
        Some(Name::OptAll)
    } else if word == Name::Workers.text() {
        Some(Name::Workers)
    } else if word == Name::Log.text() {
        Some(Name::Log)
    } else if word == Name::Budget.text() {
        Some(Name::Budget)
    } else if word == Name::Output.text() {
        Some(Name::Output)
    } else if word == Name::Quiet.text() {
        Some(Name::Quiet)
    } else if word == Name::Names.text() {
        Some(Name::Names)
    } else if word == Name::Proof.text() {
        Some(Name::Proof)
    } else if word == Name::Split.text() {
        Some(Name::Split)
    } else if word == Name::Make.text() {
        Some(Name::Make)
    } else if word == Name::Queries.text() {
        Some(Name::Queries)
    } else if word == Name::CoreMin.text() {
        Some(Name::CoreMin)
    } else if word == Name::Stats.text() {
        Some(Name::Stats)
    } else if word == Name::Progress.text() {
        Some(Name::Progress)
    } else if word == Name::Stream.text() {
        Some(Name::Stream)
    } else {
        None
    }
}

/// The word for which this one stands: the short forms, and what clasp's users write, have ours.
pub fn meant<'a>(word: &'a str) -> &'a str
    ensures { result.now ≡ meant word.entry.now }
{
    if word == "-e" {
        Name::Mode.text()
    } else if word == "-n" {
        Name::Models.text()
    } else if word == "-t" {
        Name::Workers.text()
    } else if word == "-q" {
        Name::Quiet.text()
    } else if word == "--opt-mode=ignore" {
        "--mode=enum"
    } else if word == "--opt-mode=opt" {
        "--mode=opt"
    } else if word == "--opt-mode=optN" {
        "--opt-all"
    } else if word == "--outf=0" {
        "--output=text"
    } else if word == "--outf=2" {
        "--output=json"
    } else {
        word
    }
}
