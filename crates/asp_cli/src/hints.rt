//! What helps with an option that isn't there: what is here for one of clasp's, or the nearest name.
ghost use Rattle.std.specs.Prelude.{◌≡◌, option_map};
ghost use Rattle.asp_cli.specs.Hints.{counterpart, first_near, is_near, is_one_off, is_same, is_two_off, nearest};

use crate::names::Name;

/// What is here for an option of clasp's.
pub fn counterpart(word: &str) -> Option<&'static str>
    ensures { option_map (λ s. s.now) result ≡ counterpart word.now }
{
    if word == "--time-limit" {
        Some("--budget counts conflicts")
    } else if word == "--solve-limit" {
        Some("--budget counts conflicts")
    } else if word == "--opt-mode" {
        Some("--opt-mode=ignore, =opt or =optN")
    } else if word == "--enum-mode" {
        Some("--mode brave or --mode cautious")
    } else if word == "--parallel-mode" {
        Some("--workers N for N threads")
    } else if word == "--outf" {
        Some("--outf=0 or =2")
    } else if word == "-V" {
        Some("--stats and --progress tell of a run")
    } else if word == "--verbose" {
        Some("--stats and --progress tell of a run")
    } else if word == "-v" {
        Some("--version")
    } else if word == "--project" {
        Some("there is no projection")
    } else if word == "--configuration" {
        Some("the search has no settings")
    } else if word == "--heuristic" {
        Some("the search has no settings")
    } else {
        None
    }
}

fn is_same(left: &[u8], right: &[u8]) -> bool
    ensures { result ≡ is_same left.now right.now }
{
    match left {
        [] => right.len() == 0,
        [first, rest @ ..] => match right {
            [] => false,
            [other, others @ ..] => *first == *other && is_same(rest, others),
        },
    }
}

// Whether at most one byte is too many, is missing or is another.
fn is_one_off(left: &[u8], right: &[u8]) -> bool
    ensures { result ≡ is_one_off left.now right.now }
{
    match left {
        [] => right.len() <= 1,
        [first, rest @ ..] => match right {
            [] => left.len() <= 1,
            [other, others @ ..] => {
                if *first == *other {
                    is_one_off(rest, others)
                } else {
                    is_same(rest, right) || is_same(left, others) || is_same(rest, others)
                }
            }
        },
    }
}

// Whether at most two are. Each try is of one byte less in one of the texts: names are short, and so are the ways.
fn is_two_off(left: &[u8], right: &[u8]) -> bool
    ensures { result ≡ is_two_off left.now right.now }
{
    match left {
        [] => right.len() <= 2,
        [first, rest @ ..] => match right {
            [] => left.len() <= 2,
            [other, others @ ..] => {
                if *first == *other {
                    is_two_off(rest, others)
                } else {
                    is_one_off(rest, right) || is_one_off(left, others) || is_one_off(rest, others)
                }
            }
        },
    }
}

fn is_near(strict: bool, word: &str, name: &str) -> bool
    ensures { result ≡ is_near strict word.now name.now }
{
    if strict {
        is_one_off(word.as_bytes(), name.as_bytes())
    } else {
        is_two_off(word.as_bytes(), name.as_bytes())
    }
}

fn first_near(strict: bool, word: &str) -> Option<&'static str>
    ensures { option_map (λ s. s.now) result ≡ first_near strict word.now }
{
    if is_near(strict, word, Name::Mode.text()) {
        Some(Name::Mode.text())
    } else if is_near(strict, word, Name::Format.text()) {
        Some(Name::Format.text())
    } else if is_near(strict, word, Name::Models.text()) {
        Some(Name::Models.text())
    } else if is_near(strict, word, Name::OptAll.text()) {
        Some(Name::OptAll.text())
    } else if is_near(strict, word, Name::Workers.text()) {
        Some(Name::Workers.text())
    } else if is_near(strict, word, Name::Log.text()) {
        Some(Name::Log.text())
    } else if is_near(strict, word, Name::Budget.text()) {
        Some(Name::Budget.text())
    } else if is_near(strict, word, Name::Output.text()) {
        Some(Name::Output.text())
    } else if is_near(strict, word, Name::Quiet.text()) {
        Some(Name::Quiet.text())
    } else if is_near(strict, word, Name::Names.text()) {
        Some(Name::Names.text())
    } else if is_near(strict, word, Name::Proof.text()) {
        Some(Name::Proof.text())
    } else if is_near(strict, word, Name::Split.text()) {
        Some(Name::Split.text())
    } else if is_near(strict, word, Name::Make.text()) {
        Some(Name::Make.text())
    } else if is_near(strict, word, Name::Stats.text()) {
        Some(Name::Stats.text())
    } else if is_near(strict, word, Name::Progress.text()) {
        Some(Name::Progress.text())
    } else if is_near(strict, word, Name::Stream.text()) {
        Some(Name::Stream.text())
    } else if is_near(strict, word, "--help") {
        Some("--help")
    } else if is_near(strict, word, "--version") {
        Some("--version")
    } else {
        None
    }
}

/// The option's name, help or the version that is nearest, one that is two off at most.
pub fn nearest(word: &str) -> Option<&'static str>
    ensures { option_map (λ s. s.now) result ≡ nearest word.now }
{
    match first_near(true, word) {
        Some(name) => Some(name),
        None => first_near(false, word),
    }
}
