// What the words ask for.
ghost use Rattle.std.specs.Prelude.{◌≡◌, ◌&&◌, nat_le, length, map, IfOk, IsErrOf, None, Some};
ghost use Rattle.std.specs.Char.{is_ascii_digit};
ghost use Rattle.std.specs.List.{list_all};
ghost use Rattle.command_words.specs.Request.{asked, bounds_checked, bounds_proved, bounds_with, budget_in, checked, ends_in, ends_named, flag_of, generated, goal_in, listed, lowered, measured, number_in, number_of, printed, proved, replayed, run_for_events, run_on_trees, run_with, sampled, steps_in, sufficed, traced};

use c_meaning::Ends;
use std::alloc::{AllocError, Global};

/// Why the words are no request.
#[derive(Clone, Copy, Debug, PartialEq, Eq)]
pub enum Refused {
    /// They are no command.
    Usage,
    /// Memory ran out.
    Memory,
}

impl From<AllocError> for Refused {
    ghost use Rattle.std.specs.Prelude.{◌≡◌};
    ghost use Rattle.command_words.specs.declared.requests.Refused.TheVariants as refused;

    ghost from_gives = { λ _ e. e ≡ refused.Memory };

    fn from(_: AllocError) -> Self {
        Refused::Memory
    }
}

/// The bounds within which inputs are searched.
#[derive(Clone, Copy, Debug, PartialEq, Eq)]
pub struct Bounds {
    /// The greatest value of a loop's counter, 0 to 1,000.
    pub turns: u32,
    /// The most frames at once, 1 to 64.
    pub frames: u32,
    /// The most answers that a run may read, 0 to 256.
    pub answers: u32,
}

/// Which goals given inputs cover.
#[derive(Debug, Drop)]
pub struct Measure<'a> {
    /// The name of the entry function.
    pub entry: &'a str,
    pub query: &'a str,
    /// The name of the file of inputs.
    pub inputs: &'a str,
    /// The names of the sources' files, one at least.
    pub sources: Vec<&'a str>,
    /// The most edges of a run, 1 to 1,000,000.
    pub steps: u32,
    /// The ends of a run that count.
    pub ends: Ends,
    pub json: bool,
}

/// Inputs that cover the goals, within bounds.
#[derive(Debug, Drop)]
pub struct Generate<'a> {
    /// The name of the entry function.
    pub entry: &'a str,
    pub query: &'a str,
    /// The names of the sources' files, one at least.
    pub sources: Vec<&'a str>,
    pub bounds: Bounds,
    /// The ends of a run that count.
    pub ends: Ends,
    /// The moves of each goal's search, 1 to 20,000,000.
    pub budget: u32,
    pub json: bool,
}

/// The list of goals.
#[derive(Debug, Drop)]
pub struct Goals<'a> {
    pub query: &'a str,
    /// The names of the sources' files, one at least.
    pub sources: Vec<&'a str>,
}

/// How the runs of given inputs end, and their edges.
#[derive(Debug, Drop)]
pub struct Runs<'a> {
    /// The name of the entry function.
    pub entry: &'a str,
    /// The name of the file of inputs.
    pub inputs: &'a str,
    /// The names of the sources' files, one at least.
    pub sources: Vec<&'a str>,
    /// The most edges of a run, 1 to 1,000,000.
    pub steps: u32,
}

/// A certificate that no input covers a goal within bounds, or what stands in its place.
#[derive(Debug, Drop)]
pub struct Prove<'a> {
    /// The name of the entry function.
    pub entry: &'a str,
    pub query: &'a str,
    /// The goal's number, 1 to 10,000.
    pub goal: u32,
    /// The names of the sources' files, one at least.
    pub sources: Vec<&'a str>,
    pub bounds: Bounds,
    /// The ends of a run that count.
    pub ends: Ends,
    /// The moves of the search, 1 to 20,000,000.
    pub budget: u32,
}

/// Whether a certificate refutes a goal.
#[derive(Debug, Drop)]
pub struct Check<'a> {
    /// The name of the entry function.
    pub entry: &'a str,
    pub query: &'a str,
    /// The goal's number, 1 to 10,000.
    pub goal: u32,
    /// The name of the certificate's file.
    pub certificate: &'a str,
    /// The names of the sources' files, one at least.
    pub sources: Vec<&'a str>,
    pub bounds: Bounds,
    /// The ends of a run that count.
    pub ends: Ends,
}

/// Whether bounds suffice, which is that no input has a run that leaves them.
#[derive(Debug, Drop)]
pub struct Suffice<'a> {
    /// The name of the entry function.
    pub entry: &'a str,
    /// The names of the sources' files, one at least.
    pub sources: Vec<&'a str>,
    pub bounds: Bounds,
    /// The moves of the search, 1 to 20,000,000.
    pub budget: u32,
}

/// Whether a certificate says that bounds suffice.
#[derive(Debug, Drop)]
pub struct CheckBounds<'a> {
    /// The name of the entry function.
    pub entry: &'a str,
    /// The name of the certificate's file.
    pub certificate: &'a str,
    /// The names of the sources' files, one at least.
    pub sources: Vec<&'a str>,
    pub bounds: Bounds,
}

/// The trace file of given inputs.
#[derive(Debug, Drop)]
pub struct Traces<'a> {
    /// The name of the entry function.
    pub entry: &'a str,
    /// The name of the file of inputs.
    pub inputs: &'a str,
    /// The names of the sources' files, one at least.
    pub sources: Vec<&'a str>,
    /// The most edges of a run, 1 to 1,000,000.
    pub steps: u32,
    /// The ends of a run that count.
    pub ends: Ends,
}

/// Which goals the traces of a file cover.
#[derive(Debug, Drop)]
pub struct Replay<'a> {
    /// The name of the entry function.
    pub entry: &'a str,
    pub query: &'a str,
    /// The name of the trace file.
    pub traces: &'a str,
    /// The names of the sources' files, one at least.
    pub sources: Vec<&'a str>,
    /// The ends of a run that count.
    pub ends: Ends,
    pub json: bool,
}

/// What the words ask for.
#[derive(Debug, Drop)]
pub enum Request<'a> {
    Measure(Measure<'a>),
    Generate(Generate<'a>),
    Goals(Goals<'a>),
    Runs(Runs<'a>),
    Prove(Prove<'a>),
    Check(Check<'a>),
    Bounds(Suffice<'a>),
    /// A certificate that bounds suffice, or what stands in its place, by the words of `bounds`.
    ProveBounds(Suffice<'a>),
    CheckBounds(CheckBounds<'a>),
    /// The least input that covers a goal, by the words of `prove`.
    Least(Prove<'a>),
    Traces(Traces<'a>),
    Replay(Replay<'a>),
    /// How the runs of given inputs end by the meaning of the trees, by the words of `runs`. The steps are turns.
    Trees(Runs<'a>),
    /// What happens in the runs of given inputs by the meaning of the trees, by the words of `runs`. The steps are edges.
    Events(Runs<'a>),
    /// The automaton of the sources whose files have these names, one at least.
    Graph(Vec<&'a str>),
    /// A large program, made from a number from 1 to 200.
    Sample(u32),
}

fn has_digits_only(text: &str) -> bool
    ensures { result ≡ list_all is_ascii_digit text.now }
{
    text.as_bytes().iter().all(|b| b.is_ascii_digit())
}

fn is_numeral(text: &str) -> bool
    ensures { result ≡ (nat_le (length text.now) 10 && list_all is_ascii_digit text.now) }
{
    text.len() <= 10 && has_digits_only(text)
}

fn number(text: &str, least: u32, most: u32) -> Option<u32>
    ensures { result ≡ number_in least most text.now }
{
    if !is_numeral(text) {
        return None;
    }
    let Ok(number) = text.parse::<u32>() else {
        return None;
    };
    if least <= number && number <= most {
        Some(number)
    } else {
        None
    }
}

/// The number of an option that may be used once, or its default.
pub fn number_given(values: &[&str], least: u32, most: u32, default: u32) -> Option<u32>
    ensures { result ≡ number_of least most default (map (λ v. v.now) values.now) }
{
    match values {
        [] => Some(default),
        [text] => number(text, least, most),
        _ => None,
    }
}

/// The number of `--steps`.
pub fn steps_given(values: &[&str]) -> Option<u32>
    ensures { result ≡ steps_in (map (λ v. v.now) values.now) }
{
    number_given(values, 1, 1_000_000, 100_000)
}

/// The number of `--budget`.
pub fn budget_given(values: &[&str]) -> Option<u32>
    ensures { result ≡ budget_in (map (λ v. v.now) values.now) }
{
    number_given(values, 1, 20_000_000, 5_000_000)
}

// The ends of this name.
fn ends_named(text: &str) -> Option<Ends>
    ensures { result ≡ ends_named text.now }
{
    if text == "returned" {
        Some(Ends::Returned)
    } else if text == "trapped" {
        Some(Ends::Trapped)
    } else if text == "any" {
        Some(Ends::Any)
    } else {
        None
    }
}

/// The ends of `--ends`, which may be used once.
pub fn ends_given(values: &[&str]) -> Option<Ends>
    ensures { result ≡ ends_in (map (λ v. v.now) values.now) }
{
    match values {
        [] => Some(Ends::Returned),
        [text] => ends_named(text),
        _ => None,
    }
}

/// Whether a flag is used, which may be used once.
pub fn flag_given(values: &[&str]) -> Option<bool>
    ensures { result ≡ flag_of (map (λ v. v.now) values.now) }
{
    match values {
        [] => Some(false),
        [_] => Some(true),
        _ => None,
    }
}

/// The bounds of their three numbers.
pub fn bounds_given(turns: Option<u32>, frames: Option<u32>, answers: Option<u32>) -> Option<Bounds>
    ensures { result ≡ bounds_with turns frames answers }
{
    match (turns, frames, answers) {
        (Some(turns), Some(frames), Some(answers)) => Some(Bounds {
            turns,
            frames,
            answers,
        }),
        _ => None,
    }
}

/// The request of `measure`.
pub fn measure_with<'a>(
    alloc: Global,
    positionals: &[&'a str],
    steps: Option<u32>,
    ends: Option<Ends>,
    json: Option<bool>,
) -> Result<Request<'a>, Refused>
    ensures ok { IfOk result (λ r. measured (map (λ v. v.now) positionals.now) steps ends json ≡ Some (asked r)) }
    ensures usage { IsErrOf result Refused.Usage → measured (map (λ v. v.now) positionals.now) steps ends json ≡ None }
{
    let (Some(steps), Some(ends), Some(json)) = (steps, ends, json) else {
        return Err(Refused::Usage);
    };
    match positionals {
        [entry, query, inputs, sources @ ..] if !sources.is_empty() => Ok(Request::Measure(
            Measure {
                entry: *entry,
                query: *query,
                inputs: *inputs,
                sources: sources.to_vec(alloc)?,
                steps,
                ends,
                json,
            },
        )),
        _ => Err(Refused::Usage),
    }
}

/// The request of `generate`.
pub fn generate_with<'a>(
    alloc: Global,
    positionals: &[&'a str],
    bounds: Option<Bounds>,
    ends: Option<Ends>,
    budget: Option<u32>,
    json: Option<bool>,
) -> Result<Request<'a>, Refused>
    ensures ok { IfOk result (λ r. generated (map (λ v. v.now) positionals.now) bounds ends budget json ≡ Some (asked r)) }
    ensures usage { IsErrOf result Refused.Usage → generated (map (λ v. v.now) positionals.now) bounds ends budget json ≡ None }
{
    let (Some(bounds), Some(ends), Some(budget), Some(json)) = (bounds, ends, budget, json) else {
        return Err(Refused::Usage);
    };
    match positionals {
        [entry, query, sources @ ..] if !sources.is_empty() => Ok(Request::Generate(Generate {
            entry: *entry,
            query: *query,
            sources: sources.to_vec(alloc)?,
            bounds,
            ends,
            budget,
            json,
        })),
        _ => Err(Refused::Usage),
    }
}

/// The request of `goals`.
pub fn goals_with<'a>(alloc: Global, positionals: &[&'a str]) -> Result<Request<'a>, Refused>
    ensures ok { IfOk result (λ r. listed (map (λ v. v.now) positionals.now) ≡ Some (asked r)) }
    ensures usage { IsErrOf result Refused.Usage → listed (map (λ v. v.now) positionals.now) ≡ None }
{
    match positionals {
        [query, sources @ ..] if !sources.is_empty() => Ok(Request::Goals(Goals {
            query: *query,
            sources: sources.to_vec(alloc)?,
        })),
        _ => Err(Refused::Usage),
    }
}

/// The request of `runs`.
pub fn runs_with<'a>(
    alloc: Global,
    positionals: &[&'a str],
    steps: Option<u32>,
) -> Result<Request<'a>, Refused>
    ensures ok { IfOk result (λ r. run_with (map (λ v. v.now) positionals.now) steps ≡ Some (asked r)) }
    ensures usage { IsErrOf result Refused.Usage → run_with (map (λ v. v.now) positionals.now) steps ≡ None }
{
    let Some(steps) = steps else {
        return Err(Refused::Usage);
    };
    match positionals {
        [entry, inputs, sources @ ..] if !sources.is_empty() => Ok(Request::Runs(Runs {
            entry: *entry,
            inputs: *inputs,
            sources: sources.to_vec(alloc)?,
            steps,
        })),
        _ => Err(Refused::Usage),
    }
}

/// The number of a goal.
fn goal_given(text: &str) -> Option<u32>
    ensures { result ≡ goal_in text.now }
{
    number(text, 1, 10_000)
}

/// The request of `prove`.
pub fn prove_with<'a>(
    alloc: Global,
    positionals: &[&'a str],
    bounds: Option<Bounds>,
    ends: Option<Ends>,
    budget: Option<u32>,
) -> Result<Request<'a>, Refused>
    ensures ok { IfOk result (λ r. proved (map (λ v. v.now) positionals.now) bounds ends budget ≡ Some (asked r)) }
    ensures usage { IsErrOf result Refused.Usage → proved (map (λ v. v.now) positionals.now) bounds ends budget ≡ None }
{
    let (Some(bounds), Some(ends), Some(budget)) = (bounds, ends, budget) else {
        return Err(Refused::Usage);
    };
    match positionals {
        [entry, query, number, sources @ ..] if !sources.is_empty() => match goal_given(number) {
            Some(goal) => Ok(Request::Prove(Prove {
                entry: *entry,
                query: *query,
                goal,
                sources: sources.to_vec(alloc)?,
                bounds,
                ends,
                budget,
            })),
            None => Err(Refused::Usage),
        },
        _ => Err(Refused::Usage),
    }
}

/// The request of `check`.
pub fn check_with<'a>(
    alloc: Global,
    positionals: &[&'a str],
    bounds: Option<Bounds>,
    ends: Option<Ends>,
) -> Result<Request<'a>, Refused>
    ensures ok { IfOk result (λ r. checked (map (λ v. v.now) positionals.now) bounds ends ≡ Some (asked r)) }
    ensures usage { IsErrOf result Refused.Usage → checked (map (λ v. v.now) positionals.now) bounds ends ≡ None }
{
    let (Some(bounds), Some(ends)) = (bounds, ends) else {
        return Err(Refused::Usage);
    };
    match positionals {
        [entry, query, number, certificate, sources @ ..] if !sources.is_empty() => {
            match goal_given(number) {
                Some(goal) => Ok(Request::Check(Check {
                    entry: *entry,
                    query: *query,
                    goal,
                    certificate: *certificate,
                    sources: sources.to_vec(alloc)?,
                    bounds,
                    ends,
                })),
                None => Err(Refused::Usage),
            }
        }
        _ => Err(Refused::Usage),
    }
}

/// The request of `bounds`.
pub fn suffice_with<'a>(
    alloc: Global,
    positionals: &[&'a str],
    bounds: Option<Bounds>,
    budget: Option<u32>,
) -> Result<Request<'a>, Refused>
    ensures ok { IfOk result (λ r. sufficed (map (λ v. v.now) positionals.now) bounds budget ≡ Some (asked r)) }
    ensures usage { IsErrOf result Refused.Usage → sufficed (map (λ v. v.now) positionals.now) bounds budget ≡ None }
{
    let (Some(bounds), Some(budget)) = (bounds, budget) else {
        return Err(Refused::Usage);
    };
    match positionals {
        [entry, sources @ ..] if !sources.is_empty() => Ok(Request::Bounds(Suffice {
            entry: *entry,
            sources: sources.to_vec(alloc)?,
            bounds,
            budget,
        })),
        _ => Err(Refused::Usage),
    }
}

/// The request of `prove-bounds`.
pub fn prove_bounds_with<'a>(
    alloc: Global,
    positionals: &[&'a str],
    bounds: Option<Bounds>,
    budget: Option<u32>,
) -> Result<Request<'a>, Refused>
    ensures ok { IfOk result (λ r. bounds_proved (map (λ v. v.now) positionals.now) bounds budget ≡ Some (asked r)) }
    ensures usage { IsErrOf result Refused.Usage → bounds_proved (map (λ v. v.now) positionals.now) bounds budget ≡ None }
{
    let (Some(bounds), Some(budget)) = (bounds, budget) else {
        return Err(Refused::Usage);
    };
    match positionals {
        [entry, sources @ ..] if !sources.is_empty() => Ok(Request::ProveBounds(Suffice {
            entry: *entry,
            sources: sources.to_vec(alloc)?,
            bounds,
            budget,
        })),
        _ => Err(Refused::Usage),
    }
}

/// The request of `check-bounds`.
pub fn check_bounds_with<'a>(
    alloc: Global,
    positionals: &[&'a str],
    bounds: Option<Bounds>,
) -> Result<Request<'a>, Refused>
    ensures ok { IfOk result (λ r. bounds_checked (map (λ v. v.now) positionals.now) bounds ≡ Some (asked r)) }
    ensures usage { IsErrOf result Refused.Usage → bounds_checked (map (λ v. v.now) positionals.now) bounds ≡ None }
{
    let Some(bounds) = bounds else {
        return Err(Refused::Usage);
    };
    match positionals {
        [entry, certificate, sources @ ..] if !sources.is_empty() => Ok(Request::CheckBounds(
            CheckBounds {
                entry: *entry,
                certificate: *certificate,
                sources: sources.to_vec(alloc)?,
                bounds,
            },
        )),
        _ => Err(Refused::Usage),
    }
}

/// The request of `least`.
pub fn least_with<'a>(
    alloc: Global,
    positionals: &[&'a str],
    bounds: Option<Bounds>,
    ends: Option<Ends>,
    budget: Option<u32>,
) -> Result<Request<'a>, Refused>
    ensures ok { IfOk result (λ r. lowered (map (λ v. v.now) positionals.now) bounds ends budget ≡ Some (asked r)) }
    ensures usage { IsErrOf result Refused.Usage → lowered (map (λ v. v.now) positionals.now) bounds ends budget ≡ None }
{
    let (Some(bounds), Some(ends), Some(budget)) = (bounds, ends, budget) else {
        return Err(Refused::Usage);
    };
    match positionals {
        [entry, query, number, sources @ ..] if !sources.is_empty() => match goal_given(number) {
            Some(goal) => Ok(Request::Least(Prove {
                entry: *entry,
                query: *query,
                goal,
                sources: sources.to_vec(alloc)?,
                bounds,
                ends,
                budget,
            })),
            None => Err(Refused::Usage),
        },
        _ => Err(Refused::Usage),
    }
}

/// The request of `traces`.
pub fn traces_with<'a>(
    alloc: Global,
    positionals: &[&'a str],
    steps: Option<u32>,
    ends: Option<Ends>,
) -> Result<Request<'a>, Refused>
    ensures ok { IfOk result (λ r. traced (map (λ v. v.now) positionals.now) steps ends ≡ Some (asked r)) }
    ensures usage { IsErrOf result Refused.Usage → traced (map (λ v. v.now) positionals.now) steps ends ≡ None }
{
    let (Some(steps), Some(ends)) = (steps, ends) else {
        return Err(Refused::Usage);
    };
    match positionals {
        [entry, inputs, sources @ ..] if !sources.is_empty() => Ok(Request::Traces(Traces {
            entry: *entry,
            inputs: *inputs,
            sources: sources.to_vec(alloc)?,
            steps,
            ends,
        })),
        _ => Err(Refused::Usage),
    }
}

/// The request of `replay`.
pub fn replay_with<'a>(
    alloc: Global,
    positionals: &[&'a str],
    ends: Option<Ends>,
    json: Option<bool>,
) -> Result<Request<'a>, Refused>
    ensures ok { IfOk result (λ r. replayed (map (λ v. v.now) positionals.now) ends json ≡ Some (asked r)) }
    ensures usage { IsErrOf result Refused.Usage → replayed (map (λ v. v.now) positionals.now) ends json ≡ None }
{
    let (Some(ends), Some(json)) = (ends, json) else {
        return Err(Refused::Usage);
    };
    match positionals {
        [entry, query, traces, sources @ ..] if !sources.is_empty() => Ok(Request::Replay(
            Replay {
                entry: *entry,
                query: *query,
                traces: *traces,
                sources: sources.to_vec(alloc)?,
                ends,
                json,
            },
        )),
        _ => Err(Refused::Usage),
    }
}

/// The request of `trees`.
pub fn trees_with<'a>(
    alloc: Global,
    positionals: &[&'a str],
    steps: Option<u32>,
) -> Result<Request<'a>, Refused>
    ensures ok { IfOk result (λ r. run_on_trees (map (λ v. v.now) positionals.now) steps ≡ Some (asked r)) }
    ensures usage { IsErrOf result Refused.Usage → run_on_trees (map (λ v. v.now) positionals.now) steps ≡ None }
{
    let Some(steps) = steps else {
        return Err(Refused::Usage);
    };
    match positionals {
        [entry, inputs, sources @ ..] if !sources.is_empty() => Ok(Request::Trees(Runs {
            entry: *entry,
            inputs: *inputs,
            sources: sources.to_vec(alloc)?,
            steps,
        })),
        _ => Err(Refused::Usage),
    }
}

/// The request of `events`.
pub fn events_with<'a>(
    alloc: Global,
    positionals: &[&'a str],
    steps: Option<u32>,
) -> Result<Request<'a>, Refused>
    ensures ok { IfOk result (λ r. run_for_events (map (λ v. v.now) positionals.now) steps ≡ Some (asked r)) }
    ensures usage { IsErrOf result Refused.Usage → run_for_events (map (λ v. v.now) positionals.now) steps ≡ None }
{
    let Some(steps) = steps else {
        return Err(Refused::Usage);
    };
    match positionals {
        [entry, inputs, sources @ ..] if !sources.is_empty() => Ok(Request::Events(Runs {
            entry: *entry,
            inputs: *inputs,
            sources: sources.to_vec(alloc)?,
            steps,
        })),
        _ => Err(Refused::Usage),
    }
}

/// The request of `graph`.
pub fn graph_with<'a>(alloc: Global, positionals: &[&'a str]) -> Result<Request<'a>, Refused>
    ensures ok { IfOk result (λ r. printed (map (λ v. v.now) positionals.now) ≡ Some (asked r)) }
    ensures usage { IsErrOf result Refused.Usage → printed (map (λ v. v.now) positionals.now) ≡ None }
{
    match positionals {
        [sources @ ..] if !sources.is_empty() => Ok(Request::Graph(sources.to_vec(alloc)?)),
        _ => Err(Refused::Usage),
    }
}

/// The request of `sample`.
pub fn sample_with<'a>(positionals: &[&'a str]) -> Result<Request<'a>, Refused>
    ensures ok { IfOk result (λ r. sampled (map (λ v. v.now) positionals.now) ≡ Some (asked r)) }
    ensures usage { IsErrOf result Refused.Usage → sampled (map (λ v. v.now) positionals.now) ≡ None }
{
    match positionals {
        [text] => match number(text, 1, 200) {
            Some(size) => Ok(Request::Sample(size)),
            None => Err(Refused::Usage),
        },
        _ => Err(Refused::Usage),
    }
}
