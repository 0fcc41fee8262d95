// Which words name an integer type (ISO/IEC 9899:2011, 6.7.2p2, 7.20.1.1 and 7.19p2).
ghost use Rattle.std.specs.Prelude.{◌≡◌, ◌==◌};
ghost use Rattle.std.specs.List.{list_all};
ghost use Rattle.std.specs.Map.{lookup};
ghost use Rattle.c_parse.specs.Types.{times, are_same_words, kind_of};

use crate::sign::{TypeWord, type_spelling};
use c_values::Kind;

// The names of the kinds: the lists of type specifiers, and the names of `<stdint.h>` and `<stddef.h>`.
const NAMED_KINDS: [(&'static [TypeWord], Kind); 35] = [
    (&[TypeWord::Char], Kind::CHAR),
    (&[TypeWord::Signed, TypeWord::Char], Kind::CHAR),
    (&[TypeWord::Unsigned, TypeWord::Char], Kind::UNSIGNED_CHAR),
    (&[TypeWord::Short], Kind::SHORT),
    (&[TypeWord::Signed, TypeWord::Short], Kind::SHORT),
    (&[TypeWord::Short, TypeWord::Int], Kind::SHORT),
    (
        &[TypeWord::Signed, TypeWord::Short, TypeWord::Int],
        Kind::SHORT,
    ),
    (&[TypeWord::Unsigned, TypeWord::Short], Kind::UNSIGNED_SHORT),
    (
        &[TypeWord::Unsigned, TypeWord::Short, TypeWord::Int],
        Kind::UNSIGNED_SHORT,
    ),
    (&[TypeWord::Int], Kind::INT),
    (&[TypeWord::Signed], Kind::INT),
    (&[TypeWord::Signed, TypeWord::Int], Kind::INT),
    (&[TypeWord::Unsigned], Kind::UNSIGNED_INT),
    (&[TypeWord::Unsigned, TypeWord::Int], Kind::UNSIGNED_INT),
    (&[TypeWord::Long], Kind::LONG),
    (&[TypeWord::Signed, TypeWord::Long], Kind::LONG),
    (&[TypeWord::Long, TypeWord::Int], Kind::LONG),
    (
        &[TypeWord::Signed, TypeWord::Long, TypeWord::Int],
        Kind::LONG,
    ),
    (&[TypeWord::Unsigned, TypeWord::Long], Kind::UNSIGNED_LONG),
    (
        &[TypeWord::Unsigned, TypeWord::Long, TypeWord::Int],
        Kind::UNSIGNED_LONG,
    ),
    (&[TypeWord::Long, TypeWord::Long], Kind::LONG),
    (
        &[TypeWord::Signed, TypeWord::Long, TypeWord::Long],
        Kind::LONG,
    ),
    (&[TypeWord::Long, TypeWord::Long, TypeWord::Int], Kind::LONG),
    (
        &[
            TypeWord::Signed,
            TypeWord::Long,
            TypeWord::Long,
            TypeWord::Int,
        ],
        Kind::LONG,
    ),
    (
        &[TypeWord::Unsigned, TypeWord::Long, TypeWord::Long],
        Kind::UNSIGNED_LONG,
    ),
    (
        &[
            TypeWord::Unsigned,
            TypeWord::Long,
            TypeWord::Long,
            TypeWord::Int,
        ],
        Kind::UNSIGNED_LONG,
    ),
    (&[TypeWord::Int8], Kind::CHAR),
    (&[TypeWord::Int16], Kind::SHORT),
    (&[TypeWord::Int32], Kind::INT),
    (&[TypeWord::Int64], Kind::LONG),
    (&[TypeWord::Uint8], Kind::UNSIGNED_CHAR),
    (&[TypeWord::Uint16], Kind::UNSIGNED_SHORT),
    (&[TypeWord::Uint32], Kind::UNSIGNED_INT),
    (&[TypeWord::Uint64], Kind::UNSIGNED_LONG),
    (&[TypeWord::Size], Kind::UNSIGNED_LONG),
];

// How often a word is among some.
fn times(word: TypeWord, words: &[TypeWord]) -> usize
    ensures { result ≡ times word words.now }
{
    let spelled = type_spelling(word);
    words
        .iter()
        .filter(|other| type_spelling(**other) == spelled)
        .count()
}

fn is_as_often(word: TypeWord, words: &[TypeWord], others: &[TypeWord]) -> bool
    ensures { result ≡ times word words.now == times word others.now }
{
    times(word, words) == times(word, others)
}

fn are_as_often(words: &[TypeWord], others: &[TypeWord]) -> bool
    ensures { result ≡ list_all (λ w. times w words.now == times w others.now) words.now }
{
    words.iter().all(|word| is_as_often(*word, words, others))
}

// Whether two lists have the same words, in any order.
fn are_same_words(words: &[TypeWord], others: &[TypeWord]) -> bool
    ensures { result ≡ are_same_words words.now others.now }
{
    words.len() == others.len() && are_as_often(words, others)
}

// The kind of the first of these names that has the words.
fn kind_named(names: &[(&[TypeWord], Kind)], words: &[TypeWord]) -> Option<Kind>
    ensures { result ≡ lookup (λ name. are_same_words name.now words.now) names.now }
{
    for (name, kind) in names {
        if are_same_words(name, words) {
            return Some(*kind);
        }
    }
    None
}

/// The kind that words name.
#[tactic(auto, unfolding(crate::specs::Types::kind_of))]
pub fn kind_of(words: &[TypeWord]) -> Option<Kind>
    ensures { result ≡ kind_of words.now }
{
    kind_named(&NAMED_KINDS, words)
}
