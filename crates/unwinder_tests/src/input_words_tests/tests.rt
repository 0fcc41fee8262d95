// Words of inputs in worlds that are written by hand.
ghost use Rattle.std.specs.Prelude.{◌≤◌, ◌^◌, All, IfOk};
ghost use Rattle.circuit.specs.Wires.{IsWire};
ghost use Rattle.c_values.specs.Kind.{IsKind};
ghost use Rattle.unwinder.specs.input_words.Worlds.{world_length};

use bit_words::Word;
use c_values::Kind;
use circuit::{Circuit, Memory};
use std::alloc::Global;
use std::test::Fail;
use test_words::pattern_in;
use unwinder::input_words::{InputWords, inputs};

// The bits of an int, an unsigned char and two answers, and the patterns of 64 bits that their words are: an int has its
// sign above, the others have zeros.
const ROWS: [([u64; 4], [u64; 4]); 5] = [
    ([0, 0, 0, 0], [0, 0, 0, 0]),
    ([5, 200, 7, 9], [5, 200, 7, 9]),
    (
        [0xffff_ffff, 0xff, 0xffff_ffff, 0xff],
        [0xffff_ffff_ffff_ffff, 0xff, 0xffff_ffff, 0xff],
    ),
    (
        [0x8000_0000, 0x80, 0x8000_0000_0000_0000, 1],
        [0xffff_ffff_8000_0000, 0x80, 0x8000_0000_0000_0000, 1],
    ),
    (
        [
            0x7fff_fffe,
            0x7f,
            0x0123_4567_89ab_cdef,
            0xffff_ffff_ffff_ffff,
        ],
        [
            0x7fff_fffe,
            0x7f,
            0x0123_4567_89ab_cdef,
            0xffff_ffff_ffff_ffff,
        ],
    ),
];

// So many bits of a number, the lowest first.
fn push_bits(world: &mut Vec<bool>, value: u64, width: u32) -> Result<(), Memory>
    requires { width ≤ 64 }
{
    for i in 0..width {
        world.push(value >> i & 1 == 1)?;
    }
    Ok(())
}

// The world of a row: 32 bits of the int, 8 of the unsigned char and 64 of each answer.
fn row_world(alloc: Global, bits: [u64; 4]) -> Result<Vec<bool>, Memory> {
    let mut world = Vec::new(alloc);
    push_bits(&mut world, bits[0], 32)?;
    push_bits(&mut world, bits[1], 8)?;
    push_bits(&mut world, bits[2], 64)?;
    push_bits(&mut world, bits[3], 64)?;
    Ok(world)
}

// A circuit of the inputs alone, and the words over it.
fn made(alloc: Global, parameters: &[Kind], answers: u32) -> Result<(Circuit, InputWords), Memory>
    requires kinds { All IsKind parameters.now }
    requires room { world_length parameters.now answers ≤ 2 ^ 30 }
    ensures words { IfOk result (λ r. All (All (IsWire r.0)) r.1.words) }
    ensures answers { IfOk result (λ r. All (All (IsWire r.0)) r.1.answers) }
{
    let mut circuit = Circuit::new(alloc);
    let words = inputs(alloc, &mut circuit, parameters, answers)?;
    Ok((circuit, words))
}

// The pattern of a word of a list in a world, and none past the last word.
fn pattern_at(
    circuit: &Circuit,
    words: &[Word],
    at: usize,
    world: &[bool],
) -> Result<Option<u64>, Memory>
    requires { All (All (IsWire circuit.now)) words.now }
{
    if at >= words.len() {
        return Ok(None);
    }
    Ok(Some(pattern_in(circuit, &words[at], world)?))
}

// The patterns of the first two arguments and of the first two answers.
fn first_patterns(
    circuit: &Circuit,
    made: &InputWords,
    world: &[bool],
) -> Result<[Option<u64>; 4], Memory>
    requires words { All (All (IsWire circuit.now)) made.now.words }
    requires answers { All (All (IsWire circuit.now)) made.now.answers }
{
    Ok([
        pattern_at(circuit, &made.words, 0, world)?,
        pattern_at(circuit, &made.words, 1, world)?,
        pattern_at(circuit, &made.answers, 0, world)?,
        pattern_at(circuit, &made.answers, 1, world)?,
    ])
}

#[test]
fn arguments_and_answers(rt: HostRuntime) -> Result<(), Fail> {
    let (circuit, words) = made(rt.alloc(), &[Kind::INT, Kind::UNSIGNED_CHAR], 2)?;
    assert_eq!(rt; circuit.wires(), 168);
    for (bits, want) in ROWS {
        let world = row_world(rt.alloc(), bits)?;
        let found = first_patterns(&circuit, &words, &world)?;
        assert!(rt; found == want.map(Some), "at {bits:?}");
    }
    Ok(())
}

// The world of 64 arguments and 256 answers of 64 bits, of which the last argument and the last answer aren't 0.
fn large_world(alloc: Global, argument: u64, answer: u64) -> Result<Vec<bool>, Memory> {
    let mut world = vec![in alloc; false; 63 * 64]?;
    push_bits(&mut world, argument, 64)?;
    for _ in 0..255 {
        push_bits(&mut world, 0, 64)?;
    }
    push_bits(&mut world, answer, 64)?;
    Ok(world)
}

#[test]
fn many_inputs(rt: HostRuntime) -> Result<(), Fail> {
    let (circuit, words) = made(rt.alloc(), &[Kind::LONG; 64], 256)?;
    assert_eq!(rt; circuit.wires(), 20_480);
    let world = large_world(rt.alloc(), 0x1234_5678_9abc_def0, 0xfedc_ba98_7654_3210)?;
    assert_eq!(rt; pattern_at(&circuit, &words.words, 62, &world)?, Some(0));
    assert_eq!(rt;
        pattern_at(&circuit, &words.words, 63, &world)?,
        Some(0x1234_5678_9abc_def0)
    );
    assert_eq!(rt; pattern_at(&circuit, &words.words, 64, &world)?, None);
    assert_eq!(rt;
        pattern_at(&circuit, &words.answers, 255, &world)?,
        Some(0xfedc_ba98_7654_3210)
    );
    Ok(())
}
