// How words and marks are written.
ghost use Rattle.std.specs.Prelude.{◌≡◌, find};
ghost use Rattle.fql_tokens.specs.Spelling.{is_written, spelling, filter_spelling, keyword_of, filter_of, single_mark, double_mark};

use crate::token::{FilterName, Keyword, Mark};

const KEYWORDS: [Keyword; 14] = [
    Keyword::In,
    Keyword::Cover,
    Keyword::Passing,
    Keyword::Nodes,
    Keyword::Edges,
    Keyword::Paths,
    Keyword::Pred,
    Keyword::Id,
    Keyword::Not,
    Keyword::Complement,
    Keyword::Union,
    Keyword::Intersect,
    Keyword::SetMinus,
    Keyword::Compose,
];

const FILTERS: [FilterName; 14] = [
    FilterName::File,
    FilterName::Line,
    FilterName::Func,
    FilterName::Label,
    FilterName::Call,
    FilterName::Entry,
    FilterName::Exit,
    FilterName::BasicBlockEntry,
    FilterName::ConditionEdge,
    FilterName::ConditionGraph,
    FilterName::DecisionEdge,
    FilterName::StatementType,
    FilterName::Definition,
    FilterName::Use,
];

fn spelling(keyword: Keyword) -> &'static [u8]
    ensures { result.now ≡ spelling keyword }
{
    match keyword {
        Keyword::In => b"in",
        Keyword::Cover => b"cover",
        Keyword::Passing => b"passing",
        Keyword::Nodes => b"NODES",
        Keyword::Edges => b"EDGES",
        Keyword::Paths => b"PATHS",
        Keyword::Pred => b"PRED",
        Keyword::Id => b"ID",
        Keyword::Not => b"NOT",
        Keyword::Complement => b"COMPLEMENT",
        Keyword::Union => b"UNION",
        Keyword::Intersect => b"INTERSECT",
        Keyword::SetMinus => b"SETMINUS",
        Keyword::Compose => b"COMPOSE",
    }
}

fn filter_spelling(filter: FilterName) -> &'static [u8]
    ensures { result.now ≡ filter_spelling filter }
{
    match filter {
        FilterName::File => b"FILE",
        FilterName::Line => b"LINE",
        FilterName::Func => b"FUNC",
        FilterName::Label => b"LABEL",
        FilterName::Call => b"CALL",
        FilterName::Entry => b"ENTRY",
        FilterName::Exit => b"EXIT",
        FilterName::BasicBlockEntry => b"BASICBLOCKENTRY",
        FilterName::ConditionEdge => b"CONDITIONEDGE",
        FilterName::ConditionGraph => b"CONDITIONGRAPH",
        FilterName::DecisionEdge => b"DECISIONEDGE",
        FilterName::StatementType => b"STMTTYPE",
        FilterName::Definition => b"DEF",
        FilterName::Use => b"USE",
    }
}

/// Whether a text is this word, in any ASCII case.
#[tactic(auto, using(crate::proofs::Written::same_written))]
pub fn is_written(word: &[u8], text: &[u8]) -> bool
    ensures { result ≡ is_written word.now text.now }
{
    word.eq_ignore_ascii_case(text)
}

fn keyword_among(keywords: &[Keyword], text: &[u8]) -> Option<Keyword>
    ensures { result ≡ find (λ k. is_written (spelling k) text.now) keywords.now }
{
    for keyword in keywords {
        if is_written(spelling(*keyword), text) {
            return Some(*keyword);
        }
    }
    None
}

fn filter_among(filters: &[FilterName], text: &[u8]) -> Option<FilterName>
    ensures { result ≡ find (λ f. is_written (filter_spelling f) text.now) filters.now }
{
    for filter in filters {
        if is_written(filter_spelling(*filter), text) {
            return Some(*filter);
        }
    }
    None
}

/// The word of the query language that a text is.
#[tactic(auto, unfolding(crate::specs::Spelling::keyword_of))]
pub fn keyword_of(text: &[u8]) -> Option<Keyword>
    ensures { result ≡ keyword_of text.now }
{
    keyword_among(&KEYWORDS, text)
}

/// The filter of which a text is the name.
#[tactic(auto, unfolding(crate::specs::Spelling::filter_of))]
pub fn filter_of(text: &[u8]) -> Option<FilterName>
    ensures { result ≡ filter_of text.now }
{
    filter_among(&FILTERS, text)
}

/// The mark that is one byte.
pub fn single_mark(byte: u8) -> Option<Mark>
    ensures { result ≡ single_mark byte }
{
    match byte {
        b'^' => Some(Mark::Start),
        b'$' => Some(Mark::End),
        b'+' => Some(Mark::Plus),
        b'.' => Some(Mark::Dot),
        b'*' => Some(Mark::Star),
        b'(' => Some(Mark::Open),
        b')' => Some(Mark::Close),
        b',' => Some(Mark::Comma),
        b'"' => Some(Mark::Quote),
        _ => None,
    }
}

/// The mark that is two bytes.
pub fn double_mark(first: u8, second: u8) -> Option<Mark>
    ensures { result ≡ double_mark first second }
{
    if first == b'-' && second == b'>' {
        Some(Mark::Arrow)
    } else if first == b'=' && second == b'=' {
        Some(Mark::Exactly)
    } else if first == b'<' && second == b'=' {
        Some(Mark::AtMost)
    } else if first == b'>' && second == b'=' {
        Some(Mark::AtLeast)
    } else {
        None
    }
}
