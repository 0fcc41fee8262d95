// What follows from the definitions alone.
ghost use Rattle.std.specs.Prelude.{◌≡◌, ℕ, List};
ghost use Rattle.fql_tokens.specs.declared.token.Token.{Token};
ghost use Rattle.fql_tokens.specs.Accepted.{AreTokens};

/// A query has at most one list of tokens.
pub fn one_cutting()
    ensures { (text : List ℕ) (ts us : List Token) → AreTokens text ts → AreTokens text us → ts ≡ us }
{}
