//! The texts of generation, byte for byte, of sources whose goals and inputs are worked by hand.
ghost use Rattle.std.specs.Prelude.{◌≡◌, IsTrue, length};
ghost use Rattle.std.specs.List.{All};
ghost use Rattle.input_text.specs.Laws.{HasWords};
ghost use Rattle.report.specs.Made.{parameter_kinds};

use c_meaning::Input;
use c_values::Kind;
use cfa::Graph;
use containers::Vector;
use fq_core::Fault;
use fql_read::read_query;
use goals::{Answer, Plan, plan_of};
use path_runner::Ends;
use report::{
    generated_json, generated_text, proved_text, refuted_text, sample_text, undecided_text,
};
use std::alloc::{AllocError, Global};
use std::test::Fail;
use suite_problem::Generated;
use test_programs::graph_of;
use unwinder_reach::reached::Bounds;

const INT: Kind = Kind {
    width: 32,
    signed: true,
};

// e0 and e1 are the guards of `x > 10`, e2 and e3 those of `x < 5`.
const TWO_CONDITIONS: &str =
    "int f(int x) {\n  if (x > 10 && x < 5) {\n    return 1;\n  }\n  return 0;\n}\n";

// e2 is the return of line 3.
const SEVEN: &str = "int f(int x) {\n  if (x == 7) {\n    return 1;\n  }\n  return 0;\n}\n";

// e11 is the return of line 9.
const TWO_ANSWERS: &str =
    "int in(void);\nint f(int x) {\n  int s = 0;\n  if (x == 1) {\n    s = in();\n  }\n  int t = in();\n  if (s == 5 && t == 9) {\n    return 1;\n  }\n  return 0;\n}\n";

// An input with one argument, and as many answers as its run takes.
fn input(alloc: Global, word: u64, answers: &[(Kind, u64)]) -> Result<Input, AllocError> {
    let mut words = Vector::new(alloc);
    for answer in answers {
        words.push(answer.1)?;
    }
    Ok(Input {
        words: Vector::from_vec([word].to_vec(alloc)?),
        answers: words,
    })
}

fn parameter_count(graph: &Graph) -> usize
    ensures { result ≡ length (parameter_kinds graph.now 0) }
{
    match graph.functions().get(0) {
        Some(function) => function.parameters.len(),
        None => 0,
    }
}

fn are_of(inputs: &[Input], parameters: usize) -> bool
    ensures { IsTrue result → All (HasWords parameters) inputs.now }
{
    inputs.iter().all(|input| input.words.len() == parameters)
}

fn plan(alloc: Global, graph: &Graph, query: &str) -> Result<Plan, Fault> {
    plan_of(alloc, &read_query(alloc, query.as_bytes())?, graph)
}

const BOUNDS: Bounds = Bounds {
    turns: 4,
    frames: 8,
    answers: 16,
};

// What was made, with what each input's run reads. No report shows which goals an input hits.
fn made(
    alloc: Global,
    inputs: Vec<Input>,
    taken: Vec<Vector<(Kind, u64)>>,
    answers: Vec<Answer>,
) -> Generated {
    Generated {
        answers: Vector::from_vec(answers),
        inputs: Vector::from_vec(inputs),
        taken: Vector::from_vec(taken),
        hits: Vector::new(alloc),
    }
}

// The text and the JSON of what was made.
fn generated(
    alloc: Global,
    graph: &Graph,
    query: &str,
    made: &Generated,
    kept: &[u32],
    budget: u64,
    ends: Ends,
) -> Result<(Vec<u8>, Vec<u8>), Fault> {
    let plan = plan(alloc, graph, query)?;
    if plan.goals.len() != made.answers.len()
        || made.taken.len() != made.inputs.len()
        || !are_of(&made.inputs, parameter_count(graph))
    {
        return Err(Fault::Memory);
    }
    let text = generated_text(alloc, graph, &plan, 0, made, kept, BOUNDS, budget, ends)?;
    let line = generated_json(alloc, graph, &plan, 0, made, kept, BOUNDS, budget, ends)?;
    Ok((text, line))
}

// The second argument is -3.
#[test]
fn covered_and_refuted(rt: HostRuntime) -> Result<(), Fail> {
    let alloc = rt.alloc();
    let Ok(graph) = graph_of(alloc, b"c.c", TWO_CONDITIONS) else {
        return Err(Fail::from("no graph"));
    };
    let inputs = vec![in alloc; input(alloc, 11, &[])?, input(alloc, u64::MAX - 2, &[])?]?;
    let taken = vec![in alloc; Vector::new(alloc), Vector::new(alloc)]?;
    let answers = [
        Answer::Covered { input: 1 },
        Answer::Covered { input: 2 },
        Answer::Refuted,
        Answer::Covered { input: 1 },
    ];
    let Ok((text, line)) = generated(
        alloc,
        &graph,
        "cover EDGES(@CONDITIONEDGE)",
        &made(alloc, inputs, taken, answers.to_vec(alloc)?),
        &[1, 2],
        5_000_000,
        Ends::Returned,
    ) else {
        return Err(Fail::from("no text"));
    };
    assert_eq!(rt;
        text.as_slice(),
        b"goals 4 turns 4 frames 8 answers 16 budget 5000000
input 1 args 11
input 2 args -3
goal 1 covered 1 e0@c.c:2
goal 2 covered 2 e1@c.c:2
goal 3 refuted e2@c.c:2
goal 4 covered 1 e3@c.c:2
suite 1 2
covered 3 refuted 1 undecided 0 of 4
"
            .as_slice()
    );
    assert_eq!(rt;
        line.as_slice(),
        b"{\"bounds\":{\"answers\":16,\"budget\":5000000,\"frames\":8,\"turns\":4},\"covered\":3,\"goals\":[{\"answer\":\"covered\",\"input\":1,\"text\":\"e0@c.c:2\"},{\"answer\":\"covered\",\"input\":2,\"text\":\"e1@c.c:2\"},{\"answer\":\"refuted\",\"text\":\"e2@c.c:2\"},{\"answer\":\"covered\",\"input\":1,\"text\":\"e3@c.c:2\"}],\"inputs\":[{\"answers\":[],\"args\":[11]},{\"answers\":[],\"args\":[-3]}],\"refuted\":1,\"suite\":[1,2],\"undecided\":0}\n".as_slice()
    );
    Ok(())
}

#[test]
fn covered_or_undecided(rt: HostRuntime) -> Result<(), Fail> {
    let alloc = rt.alloc();
    let Ok(graph) = graph_of(alloc, b"d.c", SEVEN) else {
        return Err(Fail::from("no graph"));
    };
    let undecided = [Answer::Undecided];
    let Ok((text, line)) = generated(
        alloc,
        &graph,
        "cover @LINE(3)",
        &made(
            alloc,
            Vec::new(alloc),
            Vec::new(alloc),
            undecided.to_vec(alloc)?,
        ),
        &[],
        1,
        Ends::Any,
    ) else {
        return Err(Fail::from("no text"));
    };
    assert_eq!(rt;
        text.as_slice(),
        b"goals 1 turns 4 frames 8 answers 16 budget 1 ends any
goal 1 undecided e2@d.c:3
suite
covered 0 refuted 0 undecided 1 of 1
"
            .as_slice()
    );
    assert_eq!(rt;
        line.as_slice(),
        b"{\"bounds\":{\"answers\":16,\"budget\":1,\"frames\":8,\"turns\":4},\"covered\":0,\"ends\":\"any\",\"goals\":[{\"answer\":\"undecided\",\"text\":\"e2@d.c:3\"}],\"inputs\":[],\"refuted\":0,\"suite\":[],\"undecided\":1}\n".as_slice()
    );
    let inputs = vec![in alloc; input(alloc, 7, &[])?]?;
    let taken = vec![in alloc; Vector::new(alloc)]?;
    let covered = [Answer::Covered { input: 1 }];
    let Ok((_text, line)) = generated(
        alloc,
        &graph,
        "cover @LINE(3)",
        &made(alloc, inputs, taken, covered.to_vec(alloc)?),
        &[1],
        5_000_000,
        Ends::Returned,
    ) else {
        return Err(Fail::from("no text"));
    };
    assert_eq!(rt;
        line.as_slice(),
        b"{\"bounds\":{\"answers\":16,\"budget\":5000000,\"frames\":8,\"turns\":4},\"covered\":1,\"goals\":[{\"answer\":\"covered\",\"input\":1,\"text\":\"e2@d.c:3\"}],\"inputs\":[{\"answers\":[],\"args\":[7]}],\"refuted\":0,\"suite\":[1],\"undecided\":0}\n".as_slice()
    );
    Ok(())
}

#[test]
fn covered_with_answers(rt: HostRuntime) -> Result<(), Fail> {
    let alloc = rt.alloc();
    let Ok(graph) = graph_of(alloc, b"i.c", TWO_ANSWERS) else {
        return Err(Fail::from("no graph"));
    };
    let read = [(INT, 5), (INT, 9)];
    let inputs = vec![in alloc; input(alloc, 1, &read)?]?;
    let taken = vec![in alloc; Vector::from_vec(read.to_vec(alloc)?)]?;
    let answers = [Answer::Covered { input: 1 }];
    let Ok((text, line)) = generated(
        alloc,
        &graph,
        "cover @LINE(9)",
        &made(alloc, inputs, taken, answers.to_vec(alloc)?),
        &[1],
        5_000_000,
        Ends::Trapped,
    ) else {
        return Err(Fail::from("no text"));
    };
    assert_eq!(rt;
        text.as_slice(),
        b"goals 1 turns 4 frames 8 answers 16 budget 5000000 ends trapped
input 1 args 1 answers 5 9
goal 1 covered 1 e11@i.c:9
suite 1
covered 1 refuted 0 undecided 0 of 1
"
            .as_slice()
    );
    assert!(rt;
        line.as_slice().ends_with(
            b",\"inputs\":[{\"answers\":[5,9],\"args\":[1]}],\"refuted\":0,\"suite\":[1],\"undecided\":0}\n"
        )
    );
    Ok(())
}

// The source is the program that is made from 1. Of its edges four belong to `g1` (two guards, two returns) and five to `f`
// (the declaration, the call and its return, the assignment, the return).
#[test]
fn lines_of_one_goal(rt: HostRuntime) -> Result<(), Fail> {
    let alloc = rt.alloc();
    let source =
        "int g1(int x) { if (x > 7) { return x - 3; } return x + 5; }\nint f(int x) { int s = x; s = g1(s); return s; }\n";
    let Ok(graph) = graph_of(alloc, b"sample.c", source) else {
        return Err(Fail::from("no graph"));
    };
    let Ok(plan) = plan(alloc, &graph, "cover @CONDITIONEDGE") else {
        return Err(Fail::from("no plan"));
    };
    let answers = [Answer::Covered { input: 1 }, Answer::Covered { input: 2 }];
    assert_eq!(rt;
        sample_text(alloc, 1, &graph, &plan, &answers)?.as_slice(),
        b"sample 1 edges 9 goals 2 covered 2 refuted 0 undecided 0\n".as_slice()
    );
    let input = input(alloc, 11, &[])?;
    if input.words.len() != parameter_count(&graph) {
        return Err(Fail::from("another number of parameters"));
    }
    assert_eq!(rt;
        proved_text(alloc, &graph, 0, 1, &input, &[])?.as_slice(),
        b"goal 1 covered args 11\n".as_slice()
    );
    assert_eq!(rt;
        proved_text(alloc, &graph, 0, 1, &input, &[(INT, 5), (INT, u64::MAX)])?.as_slice(),
        b"goal 1 covered args 11 answers 5 -1\n".as_slice()
    );
    assert_eq!(rt;
        undecided_text(alloc, 1)?.as_slice(),
        b"goal 1 undecided\n".as_slice()
    );
    for (ends, text) in [
        (
            Ends::Returned,
            "goal 3 refuted turns 4 frames 8 answers 16\n",
        ),
        (
            Ends::Trapped,
            "goal 3 refuted turns 4 frames 8 answers 16 ends trapped\n",
        ),
        (
            Ends::Any,
            "goal 3 refuted turns 4 frames 8 answers 16 ends any\n",
        ),
    ] {
        assert_eq!(rt;
            refuted_text(alloc, 3, BOUNDS, ends)?.as_slice(),
            text.as_bytes()
        );
    }
    Ok(())
}
