// Literals, which are numbers as in DIMACS.
ghost use Rattle.std.specs.Prelude.{◌≡◌, ◌↔◌, ◌+◌, ◌<◌, ◌≤◌, ◌^◌, neg_ℤ, All, IsTrue};
ghost use Rattle.cnf.specs.Clauses as clauses;

/// Where a literal stands in the order of literals: by its variable, the positive one first. It is twice the
/// variable, and one more for a negation.
pub fn literal_key(literal: i32) -> usize
    ensures value { result ≡ clauses.literal_key literal }
    ensures bound { result ≤ 2 ^ 32 + 1 }
{
    if literal < 0 {
        literal.unsigned_abs() as usize * 2 + 1
    } else {
        literal as usize * 2
    }
}

/// Whether a number is a literal: it is neither 0 nor the least number of its type.
pub fn is_literal(number: i32) -> bool
    ensures { IsTrue result ↔ clauses.IsLiteral number }
{
    let key = literal_key(number);
    0 < key && key < 0x1_0000_0000
}

/// Whether all of these numbers are literals.
pub fn are_literals(numbers: &[i32]) -> bool
    ensures { IsTrue result ↔ All clauses.IsLiteral numbers.now }
{
    numbers.iter().all(|number| is_literal(*number))
}

/// The literal with a key.
pub(crate) fn literal_of_key(key: usize) -> i32
    requires low { 2 ≤ key }
    requires high { key < 2 ^ 32 }
    ensures { clauses.literal_key result ≡ key }
{
    let variable = (key / 2) as i32;
    if key % 2 == 1 { -variable } else { variable }
}

/// The literal of the same variable that holds exactly where this one doesn't.
pub fn negation(literal: i32) -> i32
    requires { clauses.IsLiteral literal }
    ensures value { result ≡ neg_ℤ literal }
    ensures literal { clauses.IsLiteral result }
{
    -literal
}
