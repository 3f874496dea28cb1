//! The values of the options.
ghost use Rattle.std.specs.Prelude.{◌≡◌, ◌≤◌, ◌&&◌, nat_le, Some, None, IfSome, if◌then◌else◌};
ghost use Rattle.asp_cli.specs.Values.{form_named, format_named, log_named, mode_named, number_within};

use crate::{Form, Format, LogKind};
use asp_model::results::{Mode, Reasoning};

/// The greatest number of workers.
pub const MOST_WORKERS: u64 = 64;
/// The greatest budget, which stands where none is given.
pub const MOST_UNITS: u64 = 9223372036854775807;
/// The greatest limit of answers.
pub const MOST_MODELS: u64 = 9223372036854775807;
/// The least and the greatest number of nodes of a ring.
pub const LEAST_RING: u64 = 3;

pub const LARGEST_RING: u64 = 2000;
/// The greatest number of parts.
pub const MOST_PARTS: u64 = 100000;

/// The mode that the text names; `auto` leaves it to the program.
pub fn named_mode(text: &str) -> Option<Option<Mode>>
    ensures { result ≡ mode_named text.now }
{
    if text == "auto" {
        Some(None)
    } else if text == "enum" {
        Some(Some(Mode::Enum))
    } else if text == "opt" {
        Some(Some(Mode::Opt))
    } else if text == "brave" {
        Some(Some(Mode::Consequences(Reasoning::Brave)))
    } else if text == "cautious" {
        Some(Some(Mode::Consequences(Reasoning::Cautious)))
    } else {
        None
    }
}

/// The format that the text names.
pub fn named_format(text: &str) -> Option<Format>
    ensures { result ≡ format_named text.now }
{
    if text == "aspif" {
        Some(Format::Aspif)
    } else if text == "smodels" {
        Some(Format::Smodels)
    } else {
        None
    }
}

/// The form of the results that the text names.
pub fn named_form(text: &str) -> Option<Form>
    ensures { result ≡ form_named text.now }
{
    if text == "text" {
        Some(Form::Text)
    } else if text == "json" {
        Some(Form::Json)
    } else {
        None
    }
}

/// The log that the text names.
pub fn named_log(text: &str) -> Option<LogKind>
    ensures { result ≡ log_named text.now }
{
    if text == "blocks" {
        Some(LogKind::Blocks)
    } else if text == "row" {
        Some(LogKind::Row)
    } else {
        None
    }
}

// The number, if it lies within these.
fn within(n: u64, least: u64, most: u64) -> Option<u64>
    ensures value { result ≡ (if nat_le least n && nat_le n most then Some n else None) }
    ensures within { IfSome result (λ m. (least ≤ m) × (m ≤ most)) }
{
    if least <= n && n <= most {
        Some(n)
    } else {
        None
    }
}

/// The number that the text writes, if it lies within these.
pub fn number(text: &str, least: u64, most: u64) -> Option<u64>
    ensures value { result ≡ number_within least most text.now }
    ensures within { IfSome result (λ n. (least ≤ n) × (n ≤ most)) }
{
    match text.parse::<u64>() {
        Ok(n) => within(n, least, most),
        Err(_) => None,
    }
}
