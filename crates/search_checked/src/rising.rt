// Clauses, whose literals rise.
ghost use Rattle.std.specs.Prelude.{All};
ghost use Rattle.cnf.specs.Clauses.{IsClause};
ghost use Rattle.search_checked.specs.Laws.{HasClause};

use cnf::{Clause, DerivationLine};

/// The literals of each clause rise.
pub(crate) fn clauses_rise(clauses: &[Clause])
    ensures { All IsClause clauses.now }
{
    for clause in clauses {
        clause.literals();
    }
}

/// The literals of each line's clause rise.
pub(crate) fn lines_rise(lines: &[DerivationLine])
    ensures { All HasClause lines.now }
{
    for line in lines {
        line.clause.literals();
    }
}
