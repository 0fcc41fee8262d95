// Expected inputs: by hand, from the conditions; expected runs: by hand, from the edges of the sources.
use c_meaning::Input;
use c_values::Kind;
use cfa::Graph;
use std::alloc::Global;
use std::test::Fail;
use suite::candidates::{Candidates, is_within};
use test_programs::graph_of;
use unwinder_reach::reached::Bounds;

// e0: i = 0; e1 into the loop; e2 and e3: the guards, true and false; e4: i is raised; e5 back; e6: return.
const LOOP: &str = "int f(int n) { int i = 0; while (i < n) { i = i + 1; } return i; }";

// e0 and e1: the guards, true and false; e2: the call; e3: its return edge; e4 and e5: the returns.
const RECURSION: &str = "int f(int n) { if (n) { return f(n - 1); } return 0; }";

// e0: an answer is read; e1: s is set; e2: an answer is read; e3: return.
const ANSWERS: &str = "int next(void); int f(int n) { int s = next(); return s + next(); }";

const ANSWERS_IN_LOOP: &str =
    "int next(void); int f(int n) { int s = 0; while (s < n) { s = s + next(); } return s; }";

// Neither a nor c is read.
const SPARE: &str = "int f(int a, int b, int c) { return b > 1800 && b % 37 == 11; }";

const TRIANGLE: &str = "int f(int a, int b, int c) {
  return a > 100 && a < b && b < c && c < 30000 && a * a + b * b == c * c;
}";

const REMAINDERS: &str = "int f(unsigned a) {
  return a % 97 == 13 && a % 89 == 5 && a % 1009 == 77;
}";

const EACH_OTHER: &str = "int f(int a, int b) { return a % b == 17 && b % a == 5; }";

const CLOCK: &str = "int f(int a) {
  return a > 0 && a % 60 == 59 && a / 60 % 60 == 59 && a / 3600 % 24 == 23;
}";

const NEAR: &str = "int f(int a, int b) { return a + b; }";

const LONE: &str = "int f(int a) { return a; }";

const ASKED: &str =
    "unsigned char rx(void); short adc(void); int f(void) { int a = rx(); return a + adc(); }";

fn automaton_of(alloc: Global, source: &str) -> Result<Graph, Fail> {
    match graph_of(alloc, b"a.c", source) {
        Ok(graph) => Ok(graph),
        Err(_) => Err(Fail::from("no automaton")),
    }
}

fn input(
    alloc: Global,
    row: &Candidates,
    parameters: usize,
    answers: u32,
    number: u64,
) -> Result<Input, Fail> {
    let kinds = [Kind::INT, Kind::INT, Kind::INT];
    Ok(row.input(alloc, &kinds[..parameters.min(3)], answers, number)?)
}

// An input has a word for each parameter, and all answers that it may have, as many as are read where there is no loop and no
// call, and none where no answer is read.
#[test]
fn each_number_has_an_input(rt: HostRuntime) -> Result<(), Fail> {
    for (source, answers) in [(ANSWERS, 2), (ANSWERS_IN_LOOP, 256), (LOOP, 0)] {
        let graph = automaton_of(rt.alloc(), source)?;
        let row = Candidates::new(rt.alloc(), &graph, 0)?;
        for number in [0, 1, 2, 7, 4_999, 50_000, u64::MAX] {
            let input = input(rt.alloc(), &row, 3, 256, number)?;
            assert_eq!(rt;
                (input.words.len(), input.answers.len()),
                (3, answers),
                "{number}"
            );
        }
    }
    Ok(())
}

// Whether an input whose number is below `most` has these words, for parameters of kind int, and these answers.
fn has_input(
    alloc: Global,
    source: &str,
    words: &[u64],
    answers: &[u64],
    most: u64,
) -> Result<bool, Fail> {
    let graph = automaton_of(alloc, source)?;
    let row = Candidates::new(alloc, &graph, 0)?;
    for number in 0..most {
        let input = input(alloc, &row, words.len(), 16, number)?;
        if input.words.as_slice() == words && input.answers.as_slice() == answers {
            return Ok(true);
        }
    }
    Ok(false)
}

// Whether one has these words and no answers.
fn is_there(alloc: Global, source: &str, words: &[u64], most: u64) -> Result<bool, Fail> {
    has_input(alloc, source, words, &[], most)
}

// What a person sees at once is among the first 5,000, or among 50,000.
#[test]
fn what_a_person_sees(rt: HostRuntime) -> Result<(), Fail> {
    assert!(rt; is_there(rt.alloc(), CLOCK, &[172_799], 5_000)?);
    assert!(rt; is_there(rt.alloc(), TRIANGLE, &[300, 400, 500], 5_000)?);
    assert!(rt; is_there(rt.alloc(), EACH_OTHER, &[17, 22], 5_000)?);
    assert!(rt; is_there(rt.alloc(), REMAINDERS, &[949_546], 50_000)?);
    Ok(())
}

// Parameters that no run reads are 0, and the one that is read goes through the grid of one place: 1,898 is 51 * 37 + 11.
#[test]
fn spare_parameters(rt: HostRuntime) -> Result<(), Fail> {
    assert!(rt; is_there(rt.alloc(), SPARE, &[0, 1_898, 0], 8_000)?);
    assert!(rt; !is_there(rt.alloc(), SPARE, &[1, 1, 1], 1_000)?);
    Ok(())
}

// Among the first 500 each place has the ends of its kind's range (6.2.5), and the numbers beside them, while the other places
// are small. A pattern is that of 64 bits in two's complement.
#[test]
fn ends_of_ranges(rt: HostRuntime) -> Result<(), Fail> {
    let near: [[u64; 2]; 6] = [
        [0x7fff_ffff, 0],
        [0xffff_ffff_8000_0000, 0],
        [0, 0x7fff_ffff],
        [1, 0x7fff_ffff],
        [0x7fff_fffe, 1],
        [1, 0x7fff_fffe],
    ];
    for words in &near {
        assert!(rt; is_there(rt.alloc(), NEAR, words, 500)?, "{words:?}");
    }
    for word in [0x7fff_fffe, 0xffff_ffff_8000_0001] {
        assert!(rt; is_there(rt.alloc(), LONE, &[word], 500)?, "{word}");
    }
    Ok(())
}

// So have the answers.
#[test]
fn ends_of_answers(rt: HostRuntime) -> Result<(), Fail> {
    let asked: [[u64; 2]; 3] = [[255, 0], [0, 0xffff_ffff_ffff_8000], [1, 32_767]];
    for answers in &asked {
        assert!(rt;
            has_input(rt.alloc(), ASKED, &[], answers, 500)?,
            "{answers:?}"
        );
    }
    Ok(())
}

fn within(alloc: Global, source: &str, edges: &[u32], bounds: Bounds) -> Result<bool, Fail> {
    let graph = automaton_of(alloc, source)?;
    let Some(function) = graph.functions().get(0) else {
        return Err(Fail::from("no function"));
    };
    if bounds.frames == 0 {
        return Err(Fail::from("no frame"));
    }
    Ok(is_within(alloc, &graph, function, edges, &bounds)?)
}

// Two turns, three frames and two answers are within bounds of so many, and not within those of one less.
#[test]
fn runs_at_the_bounds(rt: HostRuntime) -> Result<(), Fail> {
    let turns: [u32; 10] = [0, 1, 2, 4, 5, 2, 4, 5, 3, 6];
    let frames: [u32; 10] = [0, 2, 0, 2, 1, 5, 3, 4, 3, 4];
    let answers: [u32; 4] = [0, 1, 2, 3];
    for less in [0, 1] {
        let bounds = Bounds {
            turns: 2 - less,
            frames: 3 - less,
            answers: 2 - less,
        };
        let wanted = less == 0;
        assert_eq!(rt; within(rt.alloc(), LOOP, &turns, bounds)?, wanted);
        assert_eq!(rt; within(rt.alloc(), RECURSION, &frames, bounds)?, wanted);
        assert_eq!(rt; within(rt.alloc(), ANSWERS, &answers, bounds)?, wanted);
    }
    Ok(())
}
