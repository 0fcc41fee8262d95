// The call of the crate.
ghost use Rattle.std.specs.Prelude.{◌≡◌, ℕ, Ok, Err, IfOk, IsErrOf};
ghost use Rattle.fq_core.specs.declared.refusal.Place.{Place};
ghost use Rattle.fq_core.specs.Refusals.{IsUnlessMemory, refusal};
ghost use Rattle.fql_read.specs.declared.query.Query.{Query};
ghost use Rattle.fql_read.specs.Asks.{Asks, IsRefusedQuery};
ghost use Rattle.fql_read.specs.ReadingQueries.{query_outcome};
ghost use Rattle.fql_read.specs.Usable.{IsUsable};

use crate::queries::limited_query;
use crate::query::Query as QueryTree;
use fq_core::Fault;
use fql_tokens::query_tokens;
use std::alloc::Global;

fn read(alloc: Global, text: &[u8]) -> Result<QueryTree, Fault>
    ensures { IsUnlessMemory result (query_outcome text.now) }
{
    match query_tokens(alloc, text) {
        Ok(tokens) => limited_query(alloc, text, &tokens),
        Err(fault) => Err(fault),
    }
}

/// Reads a query: `in` a filter `cover` a clause `passing` a clause, of which the first and the last part may be absent.
///
/// Refused are, in this order, a query of more than 4,096 bytes (code 63), the first byte at which no token begins (60),
/// more than 60 open `(` (63), tokens that are no query (61), the first mark of the cover clause outside quotation marks
/// that says how often an expression occurs (62), a number outside its bounds (64), and more than 200 letters (63). Codes
/// 60, 62 and 64 have the column, 63 has the limit, and 61 has no place within the query.
pub fn read_query(alloc: Global, text: &[u8]) -> Result<QueryTree, Fault>
    // What is answered is the query that the bytes ask for.
    ensures accepted { IfOk result (λ query. Asks text.now query) }
    // Its numbers are in their ranges, its predicates listed once each, and its quotation marks don't nest.
    ensures usable { IfOk result (λ query. IsUsable query) }
    // The query that the bytes ask for is answered, where there is one.
    ensures accepts { (query : Query) → Asks text.now query → IsUnlessMemory result (Ok query) }
    // A refusal has its cause.
    ensures refused { (code : ℕ) (p : Place) → IsErrOf result (refusal code p) → IsRefusedQuery text.now code p }
    // Where there is a cause, it is refused.
    ensures refuses { (code : ℕ) (p : Place) → IsRefusedQuery text.now code p → IsUnlessMemory result (Err (refusal code p)) }
{
    read(alloc, text)
}
