// The commands.
ghost use Rattle.std.specs.Prelude.{◌≡◌, None, Some, IfOk, IsErrOf};
ghost use Rattle.clap.specs.Matches.{found_of};
ghost use Rattle.clap.specs.Walk.{rows_of};
ghost use Rattle.command_words.specs.Reading.{texts, row_values};
ghost use Rattle.command_words.specs.Request.{asked, asked_by, bounds_in, check_bounds_of, check_of, events_of, generate_of, goals_of, graph_of, least_of, measure_of, of_bounds, prove_bounds_of, prove_of, replay_of, request_of, runs_of, sample_of, suffice_of, traces_of, trees_of};

use crate::CommandOption;
use crate::matching::{WORDS, matches, values_of};
use crate::requests::{
    Bounds, Refused, Request, bounds_given, budget_given, check_bounds_with, check_with,
    ends_given, events_with, flag_given, generate_with, goals_with, graph_with, least_with,
    measure_with, number_given, prove_bounds_with, prove_with, replay_with, runs_with, sample_with,
    steps_given, suffice_with, traces_with, trees_with,
};
use clap::ArgMatches;
use std::alloc::{AllocError, Global};

const MEASURE: [CommandOption; 3] = [
    CommandOption::Steps,
    CommandOption::Ends,
    CommandOption::Json,
];

const GENERATE: [CommandOption; 6] = [
    CommandOption::Turns,
    CommandOption::Frames,
    CommandOption::Answers,
    CommandOption::Ends,
    CommandOption::Budget,
    CommandOption::Json,
];

const GOALS: [CommandOption; 0] = [];

const RUNS: [CommandOption; 1] = [CommandOption::Steps];

const PROVE: [CommandOption; 5] = [
    CommandOption::Turns,
    CommandOption::Frames,
    CommandOption::Answers,
    CommandOption::Ends,
    CommandOption::Budget,
];

const CHECK: [CommandOption; 4] = [
    CommandOption::Turns,
    CommandOption::Frames,
    CommandOption::Answers,
    CommandOption::Ends,
];

const BOUNDS: [CommandOption; 4] = [
    CommandOption::Turns,
    CommandOption::Frames,
    CommandOption::Answers,
    CommandOption::Budget,
];

const PROVE_BOUNDS: [CommandOption; 4] = [
    CommandOption::Turns,
    CommandOption::Frames,
    CommandOption::Answers,
    CommandOption::Budget,
];

const CHECK_BOUNDS: [CommandOption; 3] = [
    CommandOption::Turns,
    CommandOption::Frames,
    CommandOption::Answers,
];

const LEAST: [CommandOption; 5] = [
    CommandOption::Turns,
    CommandOption::Frames,
    CommandOption::Answers,
    CommandOption::Ends,
    CommandOption::Budget,
];

const TRACES: [CommandOption; 2] = [CommandOption::Steps, CommandOption::Ends];

const REPLAY: [CommandOption; 2] = [CommandOption::Ends, CommandOption::Json];

const TREES: [CommandOption; 1] = [CommandOption::Steps];

const EVENTS: [CommandOption; 1] = [CommandOption::Steps];

const GRAPH: [CommandOption; 0] = [];

const SAMPLE: [CommandOption; 0] = [];

fn measure<'a>(alloc: Global, words: &'a [String]) -> Result<Request<'a>, Refused>
    ensures ok { IfOk result (λ r. asked_by measure_of MEASURE (texts words.now) ≡ Some (asked r)) }
    ensures usage { IsErrOf result Refused.Usage → asked_by measure_of MEASURE (texts words.now) ≡ None }
{
    let matches = matches(alloc, "measure", &MEASURE, words)?;
    let positionals = values_of(alloc, &matches, WORDS)?;
    let steps = values_of(alloc, &matches, CommandOption::Steps.name())?;
    let ends = values_of(alloc, &matches, CommandOption::Ends.name())?;
    let json = values_of(alloc, &matches, CommandOption::Json.name())?;
    measure_with(
        alloc,
        &positionals,
        steps_given(&steps),
        ends_given(&ends),
        flag_given(&json),
    )
}

// The bounds that the options give.
fn bounds(alloc: Global, matches: &ArgMatches) -> Result<Option<Bounds>, AllocError>
    ensures { IfOk result (λ bounds. bounds ≡ bounds_in (λ id. row_values id (rows_of (found_of matches.now)))) }
{
    let turns = values_of(alloc, matches, CommandOption::Turns.name())?;
    let frames = values_of(alloc, matches, CommandOption::Frames.name())?;
    let answers = values_of(alloc, matches, CommandOption::Answers.name())?;
    Ok(bounds_given(
        number_given(&turns, 0, 1000, 4),
        number_given(&frames, 1, 64, 8),
        number_given(&answers, 0, 256, 16),
    ))
}

fn generate<'a>(alloc: Global, words: &'a [String]) -> Result<Request<'a>, Refused>
    ensures ok { IfOk result (λ r. asked_by generate_of GENERATE (texts words.now) ≡ Some (asked r)) }
    ensures usage { IsErrOf result Refused.Usage → asked_by generate_of GENERATE (texts words.now) ≡ None }
{
    let matches = matches(alloc, "generate", &GENERATE, words)?;
    let positionals = values_of(alloc, &matches, WORDS)?;
    let bounds = bounds(alloc, &matches)?;
    let ends = values_of(alloc, &matches, CommandOption::Ends.name())?;
    let budget = values_of(alloc, &matches, CommandOption::Budget.name())?;
    let json = values_of(alloc, &matches, CommandOption::Json.name())?;
    generate_with(
        alloc,
        &positionals,
        bounds,
        ends_given(&ends),
        budget_given(&budget),
        flag_given(&json),
    )
}

fn goals<'a>(alloc: Global, words: &'a [String]) -> Result<Request<'a>, Refused>
    ensures ok { IfOk result (λ r. asked_by goals_of GOALS (texts words.now) ≡ Some (asked r)) }
    ensures usage { IsErrOf result Refused.Usage → asked_by goals_of GOALS (texts words.now) ≡ None }
{
    let matches = matches(alloc, "goals", &GOALS, words)?;
    let positionals = values_of(alloc, &matches, WORDS)?;
    goals_with(alloc, &positionals)
}

fn runs<'a>(alloc: Global, words: &'a [String]) -> Result<Request<'a>, Refused>
    ensures ok { IfOk result (λ r. asked_by runs_of RUNS (texts words.now) ≡ Some (asked r)) }
    ensures usage { IsErrOf result Refused.Usage → asked_by runs_of RUNS (texts words.now) ≡ None }
{
    let matches = matches(alloc, "runs", &RUNS, words)?;
    let positionals = values_of(alloc, &matches, WORDS)?;
    let steps = values_of(alloc, &matches, CommandOption::Steps.name())?;
    runs_with(alloc, &positionals, steps_given(&steps))
}

fn prove<'a>(alloc: Global, words: &'a [String]) -> Result<Request<'a>, Refused>
    ensures ok { IfOk result (λ r. asked_by prove_of PROVE (texts words.now) ≡ Some (asked r)) }
    ensures usage { IsErrOf result Refused.Usage → asked_by prove_of PROVE (texts words.now) ≡ None }
{
    let matches = matches(alloc, "prove", &PROVE, words)?;
    let positionals = values_of(alloc, &matches, WORDS)?;
    let bounds = bounds(alloc, &matches)?;
    let ends = values_of(alloc, &matches, CommandOption::Ends.name())?;
    let budget = values_of(alloc, &matches, CommandOption::Budget.name())?;
    prove_with(
        alloc,
        &positionals,
        bounds,
        ends_given(&ends),
        budget_given(&budget),
    )
}

fn check<'a>(alloc: Global, words: &'a [String]) -> Result<Request<'a>, Refused>
    ensures ok { IfOk result (λ r. asked_by check_of CHECK (texts words.now) ≡ Some (asked r)) }
    ensures usage { IsErrOf result Refused.Usage → asked_by check_of CHECK (texts words.now) ≡ None }
{
    let matches = matches(alloc, "check", &CHECK, words)?;
    let positionals = values_of(alloc, &matches, WORDS)?;
    let bounds = bounds(alloc, &matches)?;
    let ends = values_of(alloc, &matches, CommandOption::Ends.name())?;
    check_with(alloc, &positionals, bounds, ends_given(&ends))
}

fn suffice<'a>(alloc: Global, words: &'a [String]) -> Result<Request<'a>, Refused>
    ensures ok { IfOk result (λ r. asked_by suffice_of BOUNDS (texts words.now) ≡ Some (asked r)) }
    ensures usage { IsErrOf result Refused.Usage → asked_by suffice_of BOUNDS (texts words.now) ≡ None }
{
    let matches = matches(alloc, "bounds", &BOUNDS, words)?;
    let positionals = values_of(alloc, &matches, WORDS)?;
    let bounds = bounds(alloc, &matches)?;
    let budget = values_of(alloc, &matches, CommandOption::Budget.name())?;
    suffice_with(alloc, &positionals, bounds, budget_given(&budget))
}

fn prove_bounds<'a>(alloc: Global, words: &'a [String]) -> Result<Request<'a>, Refused>
    ensures ok { IfOk result (λ r. asked_by prove_bounds_of PROVE_BOUNDS (texts words.now) ≡ Some (asked r)) }
    ensures usage { IsErrOf result Refused.Usage → asked_by prove_bounds_of PROVE_BOUNDS (texts words.now) ≡ None }
{
    let matches = matches(alloc, "prove-bounds", &PROVE_BOUNDS, words)?;
    let positionals = values_of(alloc, &matches, WORDS)?;
    let bounds = bounds(alloc, &matches)?;
    let budget = values_of(alloc, &matches, CommandOption::Budget.name())?;
    prove_bounds_with(alloc, &positionals, bounds, budget_given(&budget))
}

fn check_bounds<'a>(alloc: Global, words: &'a [String]) -> Result<Request<'a>, Refused>
    ensures ok { IfOk result (λ r. asked_by check_bounds_of CHECK_BOUNDS (texts words.now) ≡ Some (asked r)) }
    ensures usage { IsErrOf result Refused.Usage → asked_by check_bounds_of CHECK_BOUNDS (texts words.now) ≡ None }
{
    let matches = matches(alloc, "check-bounds", &CHECK_BOUNDS, words)?;
    let positionals = values_of(alloc, &matches, WORDS)?;
    let bounds = bounds(alloc, &matches)?;
    check_bounds_with(alloc, &positionals, bounds)
}

fn least<'a>(alloc: Global, words: &'a [String]) -> Result<Request<'a>, Refused>
    ensures ok { IfOk result (λ r. asked_by least_of LEAST (texts words.now) ≡ Some (asked r)) }
    ensures usage { IsErrOf result Refused.Usage → asked_by least_of LEAST (texts words.now) ≡ None }
{
    let matches = matches(alloc, "least", &LEAST, words)?;
    let positionals = values_of(alloc, &matches, WORDS)?;
    let bounds = bounds(alloc, &matches)?;
    let ends = values_of(alloc, &matches, CommandOption::Ends.name())?;
    let budget = values_of(alloc, &matches, CommandOption::Budget.name())?;
    least_with(
        alloc,
        &positionals,
        bounds,
        ends_given(&ends),
        budget_given(&budget),
    )
}

fn traces<'a>(alloc: Global, words: &'a [String]) -> Result<Request<'a>, Refused>
    ensures ok { IfOk result (λ r. asked_by traces_of TRACES (texts words.now) ≡ Some (asked r)) }
    ensures usage { IsErrOf result Refused.Usage → asked_by traces_of TRACES (texts words.now) ≡ None }
{
    let matches = matches(alloc, "traces", &TRACES, words)?;
    let positionals = values_of(alloc, &matches, WORDS)?;
    let steps = values_of(alloc, &matches, CommandOption::Steps.name())?;
    let ends = values_of(alloc, &matches, CommandOption::Ends.name())?;
    traces_with(alloc, &positionals, steps_given(&steps), ends_given(&ends))
}

fn replay<'a>(alloc: Global, words: &'a [String]) -> Result<Request<'a>, Refused>
    ensures ok { IfOk result (λ r. asked_by replay_of REPLAY (texts words.now) ≡ Some (asked r)) }
    ensures usage { IsErrOf result Refused.Usage → asked_by replay_of REPLAY (texts words.now) ≡ None }
{
    let matches = matches(alloc, "replay", &REPLAY, words)?;
    let positionals = values_of(alloc, &matches, WORDS)?;
    let ends = values_of(alloc, &matches, CommandOption::Ends.name())?;
    let json = values_of(alloc, &matches, CommandOption::Json.name())?;
    replay_with(alloc, &positionals, ends_given(&ends), flag_given(&json))
}

fn trees<'a>(alloc: Global, words: &'a [String]) -> Result<Request<'a>, Refused>
    ensures ok { IfOk result (λ r. asked_by trees_of TREES (texts words.now) ≡ Some (asked r)) }
    ensures usage { IsErrOf result Refused.Usage → asked_by trees_of TREES (texts words.now) ≡ None }
{
    let matches = matches(alloc, "trees", &TREES, words)?;
    let positionals = values_of(alloc, &matches, WORDS)?;
    let steps = values_of(alloc, &matches, CommandOption::Steps.name())?;
    trees_with(alloc, &positionals, steps_given(&steps))
}

fn events<'a>(alloc: Global, words: &'a [String]) -> Result<Request<'a>, Refused>
    ensures ok { IfOk result (λ r. asked_by events_of EVENTS (texts words.now) ≡ Some (asked r)) }
    ensures usage { IsErrOf result Refused.Usage → asked_by events_of EVENTS (texts words.now) ≡ None }
{
    let matches = matches(alloc, "events", &EVENTS, words)?;
    let positionals = values_of(alloc, &matches, WORDS)?;
    let steps = values_of(alloc, &matches, CommandOption::Steps.name())?;
    events_with(alloc, &positionals, steps_given(&steps))
}

fn graph<'a>(alloc: Global, words: &'a [String]) -> Result<Request<'a>, Refused>
    ensures ok { IfOk result (λ r. asked_by graph_of GRAPH (texts words.now) ≡ Some (asked r)) }
    ensures usage { IsErrOf result Refused.Usage → asked_by graph_of GRAPH (texts words.now) ≡ None }
{
    let matches = matches(alloc, "graph", &GRAPH, words)?;
    let positionals = values_of(alloc, &matches, WORDS)?;
    graph_with(alloc, &positionals)
}

fn sample<'a>(alloc: Global, words: &'a [String]) -> Result<Request<'a>, Refused>
    ensures ok { IfOk result (λ r. asked_by sample_of SAMPLE (texts words.now) ≡ Some (asked r)) }
    ensures usage { IsErrOf result Refused.Usage → asked_by sample_of SAMPLE (texts words.now) ≡ None }
{
    let matches = matches(alloc, "sample", &SAMPLE, words)?;
    let positionals = values_of(alloc, &matches, WORDS)?;
    sample_with(&positionals)
}

// What the words ask for behind the name of a command that asks of bounds alone.
#[tactic(auto, unfolding(crate::specs::Request::of_bounds))]
fn of_bounds<'a>(alloc: Global, name: &str, words: &'a [String]) -> Result<Request<'a>, Refused>
    ensures ok { IfOk result (λ r. of_bounds name.now (texts words.now) ≡ Some (asked r)) }
    ensures usage { IsErrOf result Refused.Usage → of_bounds name.now (texts words.now) ≡ None }
{
    if name == "bounds" {
        suffice(alloc, words)
    } else if name == "prove-bounds" {
        prove_bounds(alloc, words)
    } else if name == "check-bounds" {
        check_bounds(alloc, words)
    } else {
        Err(Refused::Usage)
    }
}

/// What the words ask for. `Usage` comes exactly where they are no command.
pub fn request<'a>(alloc: Global, words: &'a [String]) -> Result<Request<'a>, Refused>
    ensures ok { IfOk result (λ r. request_of (texts words.now) ≡ Some (asked r)) }
    ensures usage { IsErrOf result Refused.Usage → request_of (texts words.now) ≡ None }
{
    match words {
        [name, rest @ ..] if name.as_str() == "measure" => measure(alloc, rest),
        [name, rest @ ..] if name.as_str() == "generate" => generate(alloc, rest),
        [name, rest @ ..] if name.as_str() == "goals" => goals(alloc, rest),
        [name, rest @ ..] if name.as_str() == "runs" => runs(alloc, rest),
        [name, rest @ ..] if name.as_str() == "prove" => prove(alloc, rest),
        [name, rest @ ..] if name.as_str() == "check" => check(alloc, rest),
        [name, rest @ ..] if name.as_str() == "least" => least(alloc, rest),
        [name, rest @ ..] if name.as_str() == "traces" => traces(alloc, rest),
        [name, rest @ ..] if name.as_str() == "replay" => replay(alloc, rest),
        [name, rest @ ..] if name.as_str() == "trees" => trees(alloc, rest),
        [name, rest @ ..] if name.as_str() == "events" => events(alloc, rest),
        [name, rest @ ..] if name.as_str() == "graph" => graph(alloc, rest),
        [name, rest @ ..] if name.as_str() == "sample" => sample(alloc, rest),
        [name, rest @ ..] => of_bounds(alloc, name, rest),
        [] => Err(Refused::Usage),
    }
}
