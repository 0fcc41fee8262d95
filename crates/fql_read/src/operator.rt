// What tokens begin, and what joins.
ghost use Rattle.std.specs.Prelude.{◌≡◌};
ghost use Rattle.fql_read.specs.Tables.{head_of_keyword, head_of_filter, head_of, atom_of_keyword, atom_of_mark, atom_of, operator_of_mark, operator_of, level};

use fql_tokens::{FilterName, Keyword, Mark, Sign};

/// A filter that is a word alone.
#[derive(Clone, Copy, Debug, PartialEq, Eq)]
pub enum BareFilter {
    Id,
    BasicBlockEntry,
    ConditionEdge,
    ConditionGraph,
    DecisionEdge,
}

/// A filter by a name.
#[derive(Clone, Copy, Debug, PartialEq, Eq)]
pub enum NamedFilter {
    Func,
    Label,
    Call,
    Entry,
    Exit,
    Definition,
    Use,
}

/// A filter over one filter.
#[derive(Clone, Copy, Debug, PartialEq, Eq)]
pub enum SingleFilter {
    Not,
    Complement,
}

/// A filter over two filters.
#[derive(Clone, Copy, Debug, PartialEq, Eq)]
pub enum DoubleFilter {
    Union,
    Intersect,
    SetMinus,
    Compose,
}

/// What filter a token begins.
#[derive(Clone, Copy, PartialEq, Eq)]
pub enum Head {
    Bare(BareFilter),
    Named(NamedFilter),
    File,
    Line,
    Kinds,
    Single(SingleFilter),
    Double(DoubleFilter),
    Nothing,
}

/// What a token begins in a clause.
#[derive(Clone, Copy, Debug, PartialEq, Eq)]
pub enum Atom {
    Nodes,
    Edges,
    Paths,
    Predicate,
    Group,
    Quote,
    /// A filter, `PRED` of one, or nothing.
    Filter,
}

/// What stands between two expressions.
#[derive(Clone, Copy, Debug, PartialEq, Eq)]
pub enum Join {
    Plus,
    Arrow,
    Dot,
}

/// How often an expression occurs, by a number.
#[derive(Clone, Copy, Debug, PartialEq, Eq)]
pub enum Count {
    Exactly,
    AtMost,
    AtLeast,
}

/// What goes on an expression.
#[derive(Clone, Copy, PartialEq, Eq)]
pub enum Operator {
    Join(Join),
    Star,
    Count(Count),
}

/// Where an expression stands.
#[derive(Clone, Copy, Debug, PartialEq, Eq)]
pub enum Part {
    /// In the cover clause, outside quotation marks.
    Cover,
    /// In the passing clause, outside quotation marks.
    Passing,
    /// Within quotation marks.
    Quoted,
}

fn keyword_head(keyword: Keyword) -> Head
    ensures { result ≡ head_of_keyword keyword }
{
    match keyword {
        Keyword::Id => Head::Bare(BareFilter::Id),
        Keyword::Not => Head::Single(SingleFilter::Not),
        Keyword::Complement => Head::Single(SingleFilter::Complement),
        Keyword::Union => Head::Double(DoubleFilter::Union),
        Keyword::Intersect => Head::Double(DoubleFilter::Intersect),
        Keyword::SetMinus => Head::Double(DoubleFilter::SetMinus),
        Keyword::Compose => Head::Double(DoubleFilter::Compose),
        _ => Head::Nothing,
    }
}

fn filter_head(filter: FilterName) -> Head
    ensures { result ≡ head_of_filter filter }
{
    match filter {
        FilterName::File => Head::File,
        FilterName::Line => Head::Line,
        FilterName::Func => Head::Named(NamedFilter::Func),
        FilterName::Label => Head::Named(NamedFilter::Label),
        FilterName::Call => Head::Named(NamedFilter::Call),
        FilterName::Entry => Head::Named(NamedFilter::Entry),
        FilterName::Exit => Head::Named(NamedFilter::Exit),
        FilterName::BasicBlockEntry => Head::Bare(BareFilter::BasicBlockEntry),
        FilterName::ConditionEdge => Head::Bare(BareFilter::ConditionEdge),
        FilterName::ConditionGraph => Head::Bare(BareFilter::ConditionGraph),
        FilterName::DecisionEdge => Head::Bare(BareFilter::DecisionEdge),
        FilterName::StatementType => Head::Kinds,
        FilterName::Definition => Head::Named(NamedFilter::Definition),
        FilterName::Use => Head::Named(NamedFilter::Use),
    }
}

/// What filter a token begins.
pub fn head_of(sign: &Sign) -> Head
    ensures { result ≡ head_of sign.now }
{
    match sign {
        Sign::Word(Some(keyword), _) => keyword_head(*keyword),
        Sign::Filter(filter) => filter_head(*filter),
        _ => Head::Nothing,
    }
}

fn keyword_atom(keyword: Keyword) -> Atom
    ensures { result ≡ atom_of_keyword keyword }
{
    match keyword {
        Keyword::Nodes => Atom::Nodes,
        Keyword::Edges => Atom::Edges,
        Keyword::Paths => Atom::Paths,
        _ => Atom::Filter,
    }
}

fn mark_atom(mark: Mark) -> Atom
    ensures { result ≡ atom_of_mark mark }
{
    match mark {
        Mark::Open => Atom::Group,
        Mark::Quote => Atom::Quote,
        _ => Atom::Filter,
    }
}

/// What a token begins in a clause.
pub fn atom_of(sign: &Sign) -> Atom
    ensures { result ≡ atom_of sign.now }
{
    match sign {
        Sign::Word(Some(keyword), _) => keyword_atom(*keyword),
        Sign::Mark(mark) => mark_atom(*mark),
        Sign::Predicate(_) => Atom::Predicate,
        _ => Atom::Filter,
    }
}

fn mark_operator(mark: Mark) -> Option<Operator>
    ensures { result ≡ operator_of_mark mark }
{
    match mark {
        Mark::Plus => Some(Operator::Join(Join::Plus)),
        Mark::Arrow => Some(Operator::Join(Join::Arrow)),
        Mark::Dot => Some(Operator::Join(Join::Dot)),
        Mark::Star => Some(Operator::Star),
        Mark::Exactly => Some(Operator::Count(Count::Exactly)),
        Mark::AtMost => Some(Operator::Count(Count::AtMost)),
        Mark::AtLeast => Some(Operator::Count(Count::AtLeast)),
        _ => None,
    }
}

/// What goes on an expression.
pub fn operator_of(sign: &Sign) -> Option<Operator>
    ensures { result ≡ operator_of sign.now }
{
    match sign {
        Sign::Mark(mark) => mark_operator(*mark),
        _ => None,
    }
}

/// How tightly it binds, from 1 to 4.
pub fn level_of(operator: Operator) -> u8
    ensures { result ≡ level operator }
{
    match operator {
        Operator::Join(Join::Plus) => 1,
        Operator::Join(Join::Arrow) => 2,
        Operator::Join(Join::Dot) => 3,
        Operator::Star | Operator::Count(_) => 4,
    }
}
