//! The walk over the words after the program's name.
ghost use Rattle.std.specs.Prelude.{◌≡◌, None, IfOk, IfSome, map, option_map, string_bytes};
ghost use Rattle.asp_cli.specs.Found.{AreApart, AreAsking, IsApart, IsAsking, rival_of, start};
ghost use Rattle.asp_cli.specs.Given.{after, cut, ended, fresh, looks_like_option, refused, seen, stray, told_alone, told_option, told_value, told_with_value, walked};
ghost use Rattle.asp_cli.specs.Values.{IsCrew, IsPartCount, IsRing};

use crate::found::{Found, clash, has, options, rival, with};
use crate::names::{Name, meant, named};
use crate::{CliError, Options, WordFault, asks_for_help, asks_for_version};

/// What the next word may be.
#[derive(Clone, Copy)]
pub enum Awaits {
    /// An option.
    Option,
    /// The value of this one.
    Value(Name),
    /// Nothing: the word `--` came.
    Nothing,
}

/// What the words up to here said.
#[derive(Clone, Copy)]
pub struct State {
    /// The options up to here.
    pub found: Found,
    /// What the next word has to be.
    pub awaits: Awaits,
}

fn start() -> State
    ensures { result ≡ start }
{
    let found = Found {
        workers: None,
        log: None,
        mode: None,
        format: None,
        budget: None,
        models: None,
        all_optima: false,
        form: None,
        quiet: false,
        names: false,
        make: None,
        queries: false,
        core_min: false,
        stats: false,
        progress: false,
        stream: false,
        proof: false,
        split: None,
    };
    State {
        found,
        awaits: Awaits::Option,
    }
}

// A hyphen and more.
fn looks_like_option(word: &str) -> bool
    ensures { result ≡ looks_like_option word.now }
{
    match word.as_bytes() {
        [first, _, ..] => *first == b'-',
        _ => false,
    }
}

// What a word gives whose name, what stands before its value, names no option.
fn stray<'a>(name: &'a str, word: &'a str) -> CliError<'a>
    ensures { refused result ≡ stray name.entry.now word.entry.now }
{
    if asks_for_help(name) {
        CliError::Help
    } else if asks_for_version(name) {
        CliError::Version
    } else if looks_like_option(word) {
        CliError::Usage(WordFault::Unknown(name))
    } else {
        CliError::Usage(WordFault::Unexpected(word))
    }
}

// What stands before the first `=`, and what comes after it.
fn cut<'a>(word: &'a str) -> Option<(&'a str, &'a str)>
    ensures { option_map (λ p. (p.0.now, p.1.now)) result ≡ cut word.entry.now }
{
    word.split_once('=')
}

// The option of this name, which the word gives for the first time, and which may stand beside the others.
fn fresh<'a>(found: &Found, name: &'a str, word: &'a str) -> Result<Name, CliError<'a>>
    ensures value { seen result ≡ fresh found.now name.entry.now word.entry.now }
    ensures apart { IfOk result (λ n. rival_of found.now n ≡ None) }
{
    match named(name) {
        None => Err(stray(name, word)),
        Some(name) => {
            if has(found, name) {
                return Err(CliError::Usage(WordFault::Twice(name)));
            }
            match rival(found, name) {
                None => Ok(name),
                Some(rival) => Err(CliError::Usage(WordFault::Rivals(rival, name))),
            }
        }
    }
}

fn value<'a>(found: Found, name: Name, text: &'a str) -> Result<State, CliError<'a>>
    ensures value { seen result ≡ told_value found name text.entry.now }
    ensures ring { IsRing found.make → IfOk result (λ s. IsRing s.found.make) }
    ensures crew { IfSome found.workers IsCrew → IfOk result (λ s. IfSome s.found.workers IsCrew) }
    ensures parts { IsPartCount found.split → IfOk result (λ s. IsPartCount s.found.split) }
    ensures apart { AreApart found → IfOk result (λ s. AreApart s.found) }
    ensures asking { AreAsking found → IfOk result (λ s. AreAsking s.found) }
{
    match with(found, name, text) {
        Some(found) => match clash(&found) {
            Some((given, rival)) => Err(CliError::Usage(WordFault::Rivals(given, rival))),
            None => Ok(State {
                found,
                awaits: Awaits::Option,
            }),
        },
        None => Err(CliError::Usage(WordFault::Value(name, text))),
    }
}

// An option with its value after `=`.
fn with_value<'a>(
    found: Found,
    name: &'a str,
    text: &'a str,
    word: &'a str,
) -> Result<State, CliError<'a>>
    ensures value { seen result ≡ told_with_value found name.entry.now text.entry.now word.entry.now }
    ensures ring { IsRing found.make → IfOk result (λ s. IsRing s.found.make) }
    ensures crew { IfSome found.workers IsCrew → IfOk result (λ s. IfSome s.found.workers IsCrew) }
    ensures parts { IsPartCount found.split → IfOk result (λ s. IsPartCount s.found.split) }
    ensures apart { AreApart found → IfOk result (λ s. AreApart s.found) }
    ensures asking { AreAsking found → IfOk result (λ s. AreAsking s.found) }
{
    match fresh(&found, name, word) {
        Ok(name) => value(found, name, text),
        Err(error) => Err(error),
    }
}

// An option in a word of its own.
fn alone<'a>(found: Found, word: &'a str) -> Result<State, CliError<'a>>
    ensures value { seen result ≡ told_alone found word.entry.now }
    ensures ring { IsRing found.make → IfOk result (λ s. IsRing s.found.make) }
    ensures crew { IfSome found.workers IsCrew → IfOk result (λ s. IfSome s.found.workers IsCrew) }
    ensures parts { IsPartCount found.split → IfOk result (λ s. IsPartCount s.found.split) }
    ensures apart { AreApart found → IfOk result (λ s. AreApart s.found) }
    ensures asking { AreAsking found → IfOk result (λ s. AreAsking s.found) }
{
    match fresh(&found, word, word) {
        Ok(Name::Stats) => Ok(State {
            found: Found {
                stats: true,
                ..found
            },
            awaits: Awaits::Option,
        }),
        Ok(Name::OptAll) => Ok(State {
            found: Found {
                all_optima: true,
                ..found
            },
            awaits: Awaits::Option,
        }),
        Ok(Name::Quiet) => Ok(State {
            found: Found {
                quiet: true,
                ..found
            },
            awaits: Awaits::Option,
        }),
        Ok(Name::Names) => Ok(State {
            found: Found {
                names: true,
                ..found
            },
            awaits: Awaits::Option,
        }),
        Ok(Name::Queries) => Ok(State {
            found: Found {
                queries: true,
                ..found
            },
            awaits: Awaits::Option,
        }),
        Ok(Name::CoreMin) => Ok(State {
            found: Found {
                core_min: true,
                ..found
            },
            awaits: Awaits::Option,
        }),
        Ok(Name::Proof) => Ok(State {
            found: Found {
                proof: true,
                ..found
            },
            awaits: Awaits::Option,
        }),
        Ok(Name::Progress) => Ok(State {
            found: Found {
                progress: true,
                ..found
            },
            awaits: Awaits::Option,
        }),
        Ok(Name::Stream) => Ok(State {
            found: Found {
                stream: true,
                ..found
            },
            awaits: Awaits::Option,
        }),
        Ok(name) => Ok(State {
            found,
            awaits: Awaits::Value(name),
        }),
        Err(error) => Err(error),
    }
}

fn option<'a>(found: Found, word: &'a str) -> Result<State, CliError<'a>>
    ensures value { seen result ≡ told_option found word.entry.now }
    ensures ring { IsRing found.make → IfOk result (λ s. IsRing s.found.make) }
    ensures crew { IfSome found.workers IsCrew → IfOk result (λ s. IfSome s.found.workers IsCrew) }
    ensures parts { IsPartCount found.split → IfOk result (λ s. IsPartCount s.found.split) }
    ensures apart { AreApart found → IfOk result (λ s. AreApart s.found) }
    ensures asking { AreAsking found → IfOk result (λ s. AreAsking s.found) }
{
    if word == "--" {
        return Ok(State {
            found,
            awaits: Awaits::Nothing,
        });
    }
    let meant = meant(word);
    match cut(meant) {
        Some((name, text)) => with_value(found, name, text, meant),
        None => alone(found, meant),
    }
}

// What is said after one more word.
fn after<'a>(state: State, word: &'a str) -> Result<State, CliError<'a>>
    ensures value { seen result ≡ after state word.entry.now }
    ensures ring { IsRing state.found.make → IfOk result (λ s. IsRing s.found.make) }
    ensures crew { IfSome state.found.workers IsCrew → IfOk result (λ s. IfSome s.found.workers IsCrew) }
    ensures parts { IsPartCount state.found.split → IfOk result (λ s. IsPartCount s.found.split) }
    ensures apart { AreApart state.found → IfOk result (λ s. AreApart s.found) }
    ensures asking { AreAsking state.found → IfOk result (λ s. AreAsking s.found) }
{
    match state.awaits {
        Awaits::Option => option(state.found, word),
        Awaits::Value(name) => value(state.found, name, word),
        Awaits::Nothing => Err(CliError::Usage(WordFault::Unexpected(word))),
    }
}

fn ended<'a>(state: &State) -> Result<Options, CliError<'a>>
    ensures value { seen result ≡ ended state.now }
    ensures ring { IsRing state.now.found.make → IfOk result (λ o. IsRing o.make) }
    ensures crew { IfSome state.now.found.workers IsCrew → IfOk result (λ o. IsCrew o.workers) }
    ensures parts { IsPartCount state.now.found.split → IfOk result (λ o. IsPartCount o.split) }
    ensures apart { AreApart state.now.found → IfOk result IsApart }
    ensures asking { AreAsking state.now.found → IfOk result IsAsking }
{
    match state.awaits {
        Awaits::Value(name) => Err(CliError::Usage(WordFault::Missing(name))),
        _ => Ok(options(&state.found)),
    }
}

/// The options that the words give, or what the first word gives that asks for help or the version, or is faulty.
pub fn walk<'a>(words: &'a [String]) -> Result<Options, CliError<'a>>
    ensures value { seen result ≡ walked start (map string_bytes words.entry.now) }
    ensures ring { IfOk result (λ o. IsRing o.make) }
    ensures crew { IfOk result (λ o. IsCrew o.workers) }
    ensures parts { IfOk result (λ o. IsPartCount o.split) }
    ensures apart { IfOk result IsApart }
    ensures asking { IfOk result IsAsking }
{
    let mut state = start();
    for word in words {
        state = after(state, word.as_str())?;
    }
    ended(&state)
}
