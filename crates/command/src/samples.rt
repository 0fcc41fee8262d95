// A program that is made from a number, and what is found of it.
ghost use Rattle.std.specs.Prelude.{◌∷◌, [], IfErr, IfOk};
ghost use Rattle.c_front.specs.Automata.{IsAutomatonOf, IsRefused};
ghost use Rattle.cfa.specs.Contexts.{IsOnce};
ghost use Rattle.fq_core.specs.Refusals.{IfRefused};
ghost use Rattle.command_words.specs.Request as asks;
ghost use Rattle.command.specs.Asked.{sample_file};
ghost use Rattle.command.specs.Parts.{IsSampleFor};
ghost use Rattle.command.specs.Ranges.{IsInRange};
ghost use Rattle.command.specs.Replies.{Gives};
ghost use Rattle.command.specs.Sample.{IsDueOfSample, sample_source};
ghost use Rattle.command.specs.Watched.{watched};

use crate::generate::{is_open, make_inputs};
use crate::query::plan_at;
use crate::reply::Reply;
use crate::types::Automaton;
use c_front::automaton_of_texts;
use c_lex::SourceText;
use c_meaning::Ends;
use cfa::Graph;
use containers::Vector;
use fq_core::{Fault, Name};
use report::sample_text;
use sample::{program, sample_query};
use search::Watch;
use std::alloc::Global;
use suite_problem::Given;
use unwinder_reach::reached::Bounds;

/// The bounds where no option is given.
const BOUNDS: Bounds = Bounds {
    turns: 4,
    frames: 8,
    answers: 16,
};

/// The budget where no option is given.
const BUDGET: u64 = 5_000_000;

// The automaton of the program.
fn sample_graph(alloc: Global, number: u32) -> Result<Graph, Fault>
    requires { IsInRange (asks.sample number) }
    ensures accepted { IfOk result (λ graph. IsAutomatonOf (sample_source number ∷ []) graph) }
    ensures once { IfOk result IsOnce }
    ensures refused { IfErr result (λ fault. IfRefused fault (λ refusal.
        IsRefused (sample_source number ∷ []) refusal.code refusal.place)) }
{
    let bytes = program(alloc, number)?;
    // A place in a source has 32 bits.
    if bytes.len() > u32::MAX as usize {
        return Err(Fault::Memory);
    }
    let name = Name::new(alloc, b"sample.c")?;
    let texts = vec![in alloc;
        SourceText {
            name,
            bytes: Vector::from_vec(bytes),
        },
    ]?;
    automaton_of_texts(alloc, &texts)
}

// Makes inputs for the goals, and counts their answers.
fn generation<W: Watch>(
    alloc: Global,
    number: u32,
    given: &Given,
    watch: &mut W,
) -> Result<Reply, Fault>
    ensures { Gives (IsSampleFor given.now number) (sample_file ∷ [])
        (watched W.Watch watch.old watch.new) result }
{
    let made = make_inputs(alloc, given, BUDGET, watch)?;
    let planned = &given.planned;
    let text = sample_text(
        alloc,
        number,
        planned.entry.graph,
        &planned.plan,
        &made.answers,
    )?;
    Ok(Reply::Answer {
        text,
        left_open: is_open(&made.answers),
    })
}

/// What is due of `sample`.
pub fn sample<W: Watch>(alloc: Global, number: u32, watch: &mut W) -> Result<Reply, Fault>
    requires { IsInRange (asks.sample number) }
    ensures { Gives (IsDueOfSample number) (sample_file ∷ [])
        (watched W.Watch watch.old watch.new) result }
{
    let graph = sample_graph(alloc, number)?;
    let automaton = Automaton { graph };
    let query = sample_query(alloc, number)?;
    let planned = plan_at(alloc, &automaton, "f", &query)?;
    let given = Given {
        planned,
        bounds: BOUNDS,
        ends: Ends::Returned,
    };
    generation(alloc, number, &given, watch)
}
