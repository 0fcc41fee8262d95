//! What follows from the definitions alone.
ghost use Rattle.std.specs.Prelude.{◌≡◌, ℕ, ℤ, Bool, List};
ghost use Rattle.cnf.specs.Checks.{Checks};
ghost use Rattle.cnf.specs.Clauses.{IsClause, has_literal};
ghost use Rattle.cnf.specs.Formulas.{Satisfies};
ghost use Rattle.cnf.specs.declared.derivation.Derivation.{Derivation};
ghost use Rattle.cnf.specs.declared.formula.Formula.{Formula};

/// No assignment satisfies a formula over which a derivation checks.
pub fn checked_formulas_have_no_model()
    ensures { (formula : Formula) (derivation : Derivation) (value : ℕ → Bool) → Checks formula derivation → Satisfies value formula → ⊥ }
{}

/// Two clauses with the same literals are one.
pub fn one_clause_per_set()
    ensures { (c d : List ℤ) → IsClause c → IsClause d → ((x : ℤ) → has_literal c x ≡ has_literal d x) → c ≡ d }
{}
