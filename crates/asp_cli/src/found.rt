//! The options that were found so far.
ghost use Rattle.std.specs.Prelude.{◌≡◌, false, true, IfSome};
ghost use Rattle.asp_cli.specs.Found.{AreApart, AreAsking, IsAlone, IsApart, IsAsking, barred_by, clash_of, clash_with, first_given, found_with, has, is_limited, is_smodels, only_if, options_of, rival_of, rivals_of, seeks_consequences, unasked};
ghost use Rattle.asp_cli.specs.Values.{IsCrew, IsPartCount, IsRing};

use crate::names::Name;
use crate::values::{
    LARGEST_RING, LEAST_RING, MOST_MODELS, MOST_PARTS, MOST_UNITS, MOST_WORKERS, named_form,
    named_format, named_log, named_mode, number,
};
use crate::{Form, Format, LogKind, Options};
use asp_model::results::Mode;

/// The options that were given, each with its value.
#[derive(Clone, Copy)]
pub struct Found {
    /// How many workers are to search.
    pub workers: Option<u32>,
    /// How several workers are to tell one another what they learnt.
    pub log: Option<LogKind>,
    /// The mode that was asked for; within, none for the mode that the program decides.
    pub mode: Option<Option<Mode>>,
    /// The format of the program that is read.
    pub format: Option<Format>,
    /// How many conflicts may be met.
    pub budget: Option<u64>,
    /// How many answers are enough.
    pub models: Option<u64>,
    /// Whether all optima were asked for.
    pub all_optima: bool,
    /// The form of the results.
    pub form: Option<Form>,
    /// Whether the closing lines alone were asked for.
    pub quiet: bool,
    /// Whether consequences by name were asked for.
    pub names: bool,
    /// The number of the example program that is to be written.
    pub make: Option<u32>,
    /// Whether queries follow the program.
    pub queries: bool,
    /// Whether least cores were asked for.
    pub core_min: bool,
    /// Whether counts of the run were asked for.
    pub stats: bool,
    /// Whether lines while the run goes on were asked for.
    pub progress: bool,
    /// Whether answers were asked for as soon as they are known to come next.
    pub stream: bool,
    /// Whether the proof was asked for.
    pub proof: bool,
    /// Into how many parts the program is to be divided.
    pub split: Option<u32>,
}

/// Whether the option was given.
pub fn has(found: &Found, name: Name) -> bool
    ensures { result ≡ has found.now name }
{
    match name {
        Name::Workers => found.workers.is_some(),
        Name::Log => found.log.is_some(),
        Name::Mode => found.mode.is_some(),
        Name::Format => found.format.is_some(),
        Name::Budget => found.budget.is_some(),
        Name::Models => found.models.is_some(),
        Name::OptAll => found.all_optima,
        Name::Output => found.form.is_some(),
        Name::Quiet => found.quiet,
        Name::Names => found.names,
        Name::Make => found.make.is_some(),
        Name::Queries => found.queries,
        Name::CoreMin => found.core_min,
        Name::Stats => found.stats,
        Name::Progress => found.progress,
        Name::Stream => found.stream,
        Name::Proof => found.proof,
        Name::Split => found.split.is_some(),
    }
}

// Whether consequences are asked for.
fn seeks_consequences(mode: Option<Option<Mode>>) -> bool
    ensures { result ≡ seeks_consequences mode }
{
    match mode {
        None | Some(None) => false,
        Some(Some(mode)) => mode.reasoning().is_some(),
    }
}

// Whether answers are to be limited.
fn is_limited(models: Option<u64>) -> bool
    ensures { result ≡ is_limited models }
{
    match models {
        None => false,
        Some(models) => models > 0,
    }
}

// Whether a smodels text is to be read.
fn is_smodels(format: Option<Format>) -> bool
    ensures { result ≡ is_smodels format }
{
    match format {
        None | Some(Format::Aspif) => false,
        Some(Format::Smodels) => true,
    }
}

// A name, where it counts.
fn only_if(condition: bool, name: Name) -> Option<Name>
    ensures { result ≡ only_if condition name }
{
    if condition { Some(name) } else { None }
}

// Which given option with its value can't stand beside a query.
fn unasked(found: &Found) -> Option<Name>
    ensures { result ≡ unasked found.now }
{
    if found.make.is_some() {
        Some(Name::Make)
    } else if found.split.is_some() {
        Some(Name::Split)
    } else if is_limited(found.models) {
        Some(Name::Models)
    } else if is_smodels(found.format) {
        Some(Name::Format)
    } else {
        only_if(seeks_consequences(found.mode), Name::Mode)
    }
}

// Which given option excludes this one by its value.
fn barred_by(found: &Found, name: Name) -> Option<Name>
    ensures { result ≡ barred_by found.now name }
{
    match name {
        Name::Proof => only_if(seeks_consequences(found.mode), Name::Mode),
        Name::Queries => unasked(found),
        _ => None,
    }
}

// An option that was given, and one that excludes it by its value.
fn clash_with(found: &Found, name: Name) -> Option<(Name, Name)>
    ensures { result ≡ clash_with found.now name }
{
    if !has(found, name) {
        return None;
    }
    match barred_by(found, name) {
        None => None,
        Some(other) => Some((name, other)),
    }
}

/// Two given options, of which the second excludes the first by its value.
pub fn clash(found: &Found) -> Option<(Name, Name)>
    ensures { result ≡ clash_of found.now }
{
    match clash_with(found, Name::Proof) {
        None => clash_with(found, Name::Queries),
        Some(pair) => Some(pair),
    }
}

// The options that can't stand beside this one, whatever their values.
fn rivals_of(name: Name) -> &'static [Name]
    ensures { result.now ≡ rivals_of name }
{
    match name {
        Name::Proof => &[Name::Split, Name::Quiet, Name::Output, Name::Queries],
        Name::OptAll => &[Name::Split, Name::Queries],
        Name::Quiet => &[Name::Proof, Name::Split],
        Name::Output => &[Name::Make, Name::Proof, Name::Split],
        Name::Make => &[Name::Output],
        Name::Queries => &[Name::Proof, Name::OptAll, Name::Stream],
        Name::Stream => &[Name::Split, Name::Queries],
        Name::Split => &[
            Name::Mode,
            Name::Models,
            Name::OptAll,
            Name::Workers,
            Name::Log,
            Name::Budget,
            Name::Output,
            Name::Quiet,
            Name::Names,
            Name::Proof,
            Name::Queries,
            Name::CoreMin,
            Name::Stats,
            Name::Progress,
            Name::Stream,
        ],
        Name::Format => &[],
        _ => &[Name::Split],
    }
}

// The first of these options that was given.
fn first_given(found: &Found, names: &[Name]) -> Option<Name>
    ensures { result ≡ first_given found.now names.now }
{
    match names {
        [] => None,
        [name, rest @ ..] => {
            if has(found, *name) {
                Some(*name)
            } else {
                first_given(found, rest)
            }
        }
    }
}

/// Which given option can't stand beside this one.
pub fn rival(found: &Found, name: Name) -> Option<Name>
    ensures { result ≡ rival_of found.now name }
{
    match first_given(found, rivals_of(name)) {
        None => barred_by(found, name),
        Some(rival) => Some(rival),
    }
}

/// What was found with this option's value, if it takes the value.
pub fn with(found: Found, name: Name, text: &str) -> Option<Found>
    ensures value { result ≡ found_with found name text.now }
    ensures ring { IsRing found.make → IfSome result (λ f. IsRing f.make) }
    ensures crew { IfSome found.workers IsCrew → IfSome result (λ f. IfSome f.workers IsCrew) }
    ensures parts { IsPartCount found.split → IfSome result (λ f. IsPartCount f.split) }
    ensures asking { IsAlone found → IfSome result IsAlone }
{
    match name {
        Name::Workers => {
            let workers = number(text, 1, MOST_WORKERS)?;
            Some(Found {
                workers: Some(workers as u32),
                ..found
            })
        }
        Name::Mode => {
            let mode = named_mode(text)?;
            Some(Found {
                mode: Some(mode),
                ..found
            })
        }
        Name::Format => {
            let format = named_format(text)?;
            Some(Found {
                format: Some(format),
                ..found
            })
        }
        Name::Log => {
            let log = named_log(text)?;
            Some(Found {
                log: Some(log),
                ..found
            })
        }
        Name::Output => {
            let form = named_form(text)?;
            Some(Found {
                form: Some(form),
                ..found
            })
        }
        Name::Budget => {
            let budget = number(text, 0, MOST_UNITS)?;
            Some(Found {
                budget: Some(budget),
                ..found
            })
        }
        Name::Models => {
            let models = number(text, 0, MOST_MODELS)?;
            Some(Found {
                models: Some(models),
                ..found
            })
        }
        Name::Make => {
            let nodes = number(text, LEAST_RING, LARGEST_RING)?;
            Some(Found {
                make: Some(nodes as u32),
                ..found
            })
        }
        Name::OptAll
        | Name::Quiet
        | Name::Names
        | Name::Proof
        | Name::Queries
        | Name::CoreMin
        | Name::Stats
        | Name::Progress
        | Name::Stream => None,
        Name::Split => {
            let parts = number(text, 1, MOST_PARTS)?;
            Some(Found {
                split: Some(parts as u32),
                ..found
            })
        }
    }
}

/// The options that were given, and for the others what stands where they aren't.
pub fn options(found: &Found) -> Options
    ensures value { result ≡ options_of found.now }
    ensures ring { IsRing found.now.make → IsRing result.make }
    ensures crew { IfSome found.now.workers IsCrew → IsCrew result.workers }
    ensures parts { IsPartCount found.now.split → IsPartCount result.split }
    ensures apart { AreApart found.now → IsApart result }
    ensures asking { AreAsking found.now → IsAsking result }
{
    Options {
        workers: found.workers.unwrap_or(1),
        log: found.log.unwrap_or(LogKind::Blocks),
        mode: found.mode.unwrap_or(None),
        format: found.format.unwrap_or(Format::Aspif),
        budget: found.budget.unwrap_or(MOST_UNITS),
        models: found.models.unwrap_or(0),
        all_optima: found.all_optima,
        form: found.form.unwrap_or(Form::Text),
        quiet: found.quiet,
        names: found.names,
        make: found.make,
        queries: found.queries,
        core_min: found.core_min,
        stats: found.stats,
        progress: found.progress,
        stream: found.stream,
        proof: found.proof,
        split: found.split,
    }
}
