//! Laws of the definitions in specs/. Each function does nothing: its contract is the law.
ghost use Rattle.measurer_hits.specs.run_laws.Laws.{StatesCompose, OneEnd, EndsCompose, EndsOn, EndsHere, RunsEnd, EndsAreRuns, PathsAlong, RecordsAlong, OneTrace, LongestLeaves, NoneEnds, RunsLeave, RunsStay, HitsStay, NoneHitsAtAll, WordsStart, AlikeNexts, SameEdges, SameEnds, AlikeBeginnings, AlikeRecords, AlikeRuns, AlikeLongest, AlikeHits, AlikeBack, AlikeByNumbers, AnswersAlike, TakenAlike, TakenWithin, FittedWords, FittedLongest, EqualModulo, SameValue, LeastWord, FittedTwice};

/// State n + m from a state is state m from its state n.
pub fn states_compose()
    ensures { StatesCompose }
{}

/// The states from one on end in one way at most.
pub fn one_end()
    ensures { OneEnd }
{}

/// The states from one on end as those from each of them do.
pub fn ends_compose()
    ensures { EndsCompose }
{}

/// Where the run goes on from a state, the states from it on end as those from the next one do.
pub fn ends_on()
    ensures { EndsOn }
{}

/// Where the run doesn't go on from a state, the states from it on end in what comes next of it.
pub fn ends_here()
    ensures { EndsHere }
{}

/// A run ends in what comes next of its last state, and that is counted.
pub fn runs_end()
    ensures { RunsEnd }
{}

/// Where the states of an input end in a way that is counted, it has a run that ends so.
pub fn ends_are_runs()
    ensures { EndsAreRuns }
{}

/// A run goes along these edges exactly where the path up to as many edges does, and its end is counted.
pub fn paths_along()
    ensures { PathsAlong }
{}

/// The path up to as many edges as a run goes along records the run.
pub fn records_along()
    ensures { RecordsAlong }
{}

/// An input runs along one list of edges at most.
pub fn one_trace()
    ensures { OneTrace }
{}

/// Of the longest beginning within bounds, the run goes on exactly where the input leaves them.
pub fn longest_leaves()
    ensures { LongestLeaves }
{}

/// It goes on from each state of the longest beginning within bounds exactly where the input leaves them.
pub fn none_ends()
    ensures { NoneEnds }
{}

/// The run of an input isn't within bounds exactly where the input leaves them.
pub fn runs_leave()
    ensures { RunsLeave }
{}

/// The run of an input that doesn't leave the bounds is within them.
pub fn runs_stay()
    ensures { RunsStay }
{}

/// An input that doesn't leave the bounds, and hits a goal, hits it within them.
pub fn hits_stay()
    ensures { HitsStay }
{}

/// Where no input leaves the bounds, and none hits a goal within them, none hits it at all.
pub fn none_hits_at_all()
    ensures { NoneHitsAtAll }
{}

/// Words that are the same values of the parameters' kinds begin a run in one state.
pub fn words_start()
    ensures { WordsStart }
{}

/// Where the answer that would be taken next is alike, so is what comes next.
pub fn alike_nexts()
    ensures { AlikeNexts }
{}

/// Whatever the answers, a run goes on along the same edge.
pub fn same_edges()
    ensures { SameEdges }
{}

/// Whatever the answers, a run ends in the same way, or goes on.
pub fn same_ends()
    ensures { SameEnds }
{}

/// Inputs that are alike for a run's beginning both have it.
pub fn alike_beginnings()
    ensures { AlikeBeginnings }
{}

/// Inputs that are alike for a run's beginning have one record of it.
pub fn alike_records()
    ensures { AlikeRecords }
{}

/// Inputs that are alike for a run both have it.
pub fn alike_runs()
    ensures { AlikeRuns }
{}

/// Inputs that are alike for the longest beginning within bounds both have it.
pub fn alike_longest()
    ensures { AlikeLongest }
{}

/// Inputs that are alike for a run that hits a goal both hit it.
pub fn alike_hits()
    ensures { AlikeHits }
{}

/// Being alike is mutual.
pub fn alike_back()
    ensures { AlikeBack }
{}

/// Inputs are alike for a run's beginning where their words are the same values and their answers are alike as far as it
/// takes them.
pub fn alike_by_numbers()
    ensures { AlikeByNumbers }
{}

/// Inputs with equal words, whose answers are equal as far as a run's beginning takes them, have the same moves and record.
pub fn answers_alike()
    ensures { AnswersAlike }
{}

/// An input is alike to the one that has exactly the answers that a run's beginning reads.
pub fn taken_alike()
    ensures { TakenAlike }
{}

/// A run's beginning within bounds takes no more answers than they have.
pub fn taken_within()
    ensures { TakenWithin }
{}

/// Inputs whose words are the same values, and whose answers are alike as far as the bounds have answers, hit the same
/// goals within the bounds.
pub fn fitted_words()
    ensures { FittedWords }
{}

/// And they have the same longest beginning within the bounds.
pub fn fitted_longest()
    ensures { FittedLongest }
{}

/// Words that are equal modulo 2 to 64 are the same value of each kind.
pub fn equal_modulo()
    ensures { EqualModulo }
{}

/// Exactly the words that are equal modulo 2 to a kind's width are the same value of it.
pub fn same_value()
    ensures { SameValue }
{}

/// Of the words that are one value of a kind, the least is what is left modulo 2 to the width.
pub fn least_word()
    ensures { LeastWord }
{}

/// Words as values of the parameters' kinds are these values.
pub fn fitted_twice()
    ensures { FittedTwice }
{}
