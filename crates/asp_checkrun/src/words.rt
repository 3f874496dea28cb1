//! The arguments after the program's name.
ghost use Rattle.std.specs.Prelude.{◌≡◌, map, option_map, string_bytes};
ghost use Rattle.asp_checkrun.specs.Given.{after, asks_help, asks_version, cut, ended, format_named, given_of, named, seen, start, told_alone, told_format, told_with_value, told_word, walked, words_give};

use asp_checker::run::Format;

/// The first fault of the arguments, from the left.
#[derive(Clone, Copy)]
pub enum WordFault<'a> {
    /// The argument is no option.
    Unknown(&'a str),
    /// `--format` was given before.
    Twice,
    /// `--format` is the last argument, without its value.
    Missing,
    /// `--format` doesn't take this value.
    Value(&'a str),
}

/// Why the arguments give no format.
#[derive(Clone, Copy)]
pub enum AskError<'a> {
    /// The arguments are faulty.
    Usage(WordFault<'a>),
    /// An argument asks for help, and none before it is faulty.
    Help,
    /// An argument asks for the version, and none before it is faulty.
    Version,
}

/// What the arguments up to here said.
#[derive(Clone, Copy)]
pub struct State {
    /// The format that was given.
    pub format: Option<Format>,
    /// Whether the next argument is the value of `--format`.
    pub awaits_value: bool,
}

fn start() -> State
    ensures { result ≡ start }
{
    State {
        format: None,
        awaits_value: false,
    }
}

// Whether the argument asks for help.
fn asks_for_help(word: &str) -> bool
    ensures { result ≡ asks_help word.now }
{
    word == "--help" || word == "-h"
}

// Whether the argument asks for the version.
fn asks_for_version(word: &str) -> bool
    ensures { result ≡ asks_version word.now }
{
    word == "--version"
}

// The format of this name.
fn format_named(name: &str) -> Option<Format>
    ensures { result ≡ format_named name.now }
{
    if name == "aspif" {
        Some(Format::Aspif)
    } else if name == "smodels" {
        Some(Format::Smodels)
    } else {
        None
    }
}

// The value of `--format`.
fn told_format<'a>(name: &'a str) -> Result<State, AskError<'a>>
    ensures { seen result ≡ told_format name.entry.now }
{
    match format_named(name) {
        Some(format) => Ok(State {
            format: Some(format),
            awaits_value: false,
        }),
        None => Err(AskError::Usage(WordFault::Value(name))),
    }
}

// What stands before the first `=`, and what comes after it.
fn cut<'a>(word: &'a str) -> Option<(&'a str, &'a str)>
    ensures { option_map (λ p. (p.0.now, p.1.now)) result ≡ cut word.entry.now }
{
    word.split_once('=')
}

// An argument with `=`, whose name comes before it and whose value after it.
fn with_value<'a>(
    state: State,
    name: &'a str,
    text: &'a str,
    word: &'a str,
) -> Result<State, AskError<'a>>
    ensures { seen result ≡ told_with_value state name.entry.now text.entry.now word.entry.now }
{
    if name == "--format" {
        if state.format.is_some() {
            Err(AskError::Usage(WordFault::Twice))
        } else {
            told_format(text)
        }
    } else {
        Err(AskError::Usage(WordFault::Unknown(word)))
    }
}

// An argument without `=`.
fn alone<'a>(state: State, word: &'a str) -> Result<State, AskError<'a>>
    ensures { seen result ≡ told_alone state word.entry.now }
{
    if word == "--format" {
        if state.format.is_some() {
            Err(AskError::Usage(WordFault::Twice))
        } else {
            Ok(State {
                format: None,
                awaits_value: true,
            })
        }
    } else {
        Err(AskError::Usage(WordFault::Unknown(word)))
    }
}

fn named<'a>(state: State, word: &'a str) -> Result<State, AskError<'a>>
    ensures { seen result ≡ named state word.entry.now }
{
    match cut(word) {
        Some((name, text)) => with_value(state, name, text, word),
        None => alone(state, word),
    }
}

fn told_word<'a>(state: State, word: &'a str) -> Result<State, AskError<'a>>
    ensures { seen result ≡ told_word state word.entry.now }
{
    if asks_for_help(word) {
        Err(AskError::Help)
    } else if asks_for_version(word) {
        Err(AskError::Version)
    } else {
        named(state, word)
    }
}

// What is said after one more argument.
fn after<'a>(state: State, word: &'a str) -> Result<State, AskError<'a>>
    ensures { seen result ≡ after state word.entry.now }
{
    if state.awaits_value {
        told_format(word)
    } else {
        told_word(state, word)
    }
}

fn ended<'a>(state: State) -> Result<Format, AskError<'a>>
    ensures { seen result ≡ ended state }
{
    if state.awaits_value {
        Err(AskError::Usage(WordFault::Missing))
    } else {
        Ok(state.format.unwrap_or(Format::Aspif))
    }
}

fn walk<'a>(words: &'a [String]) -> Result<Format, AskError<'a>>
    ensures { seen result ≡ walked start (map string_bytes words.entry.now) }
{
    let mut state = start();
    for word in words {
        state = after(state, word.as_str())?;
    }
    ended(state)
}

/// The program's format, or what the first argument gives that asks for help or the version, or is faulty. The first word is
/// the program's name.
pub fn words<'a>(words: &'a [String]) -> Result<Format, AskError<'a>>
    ensures { given_of result ≡ words_give (map string_bytes words.entry.now) }
{
    match words {
        [] => walk(words),
        [_, rest @ ..] => walk(rest),
    }
}
