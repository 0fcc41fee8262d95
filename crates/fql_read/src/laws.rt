// What follows from the definitions alone.
ghost use Rattle.std.specs.Prelude.{◌≡◌, ℕ, List};
ghost use Rattle.fql_read.specs.declared.query.Query.{Query};
ghost use Rattle.fql_read.specs.Asks.{Asks};

/// Bytes ask for at most one query.
pub fn one_query()
    ensures { (text : List ℕ) (q r : Query) → Asks text q → Asks text r → q ≡ r }
{}
