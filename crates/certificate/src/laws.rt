//! What follows from the definitions alone.
ghost use Rattle.std.specs.Prelude.{◌≡◌, ℕ, List};
ghost use Rattle.cnf.specs.declared.derivation.Derivation.{Derivation};
ghost use Rattle.cnf.specs.declared.formula.Formula.{Formula};
ghost use Rattle.certificate.specs.Certificates.{IsCertificate, IsFirstBadLine};

/// Bytes are the certificate of at most one pair of a formula and a derivation.
pub fn one_pair_per_text()
    ensures { (bytes : List ℕ) (f g : Formula) (d e : Derivation) → IsCertificate bytes f d → IsCertificate bytes g e → (f ≡ g) × (d ≡ e) }
{}

/// Bytes with a first line that isn't allowed are no certificate.
pub fn bad_lines_are_no_certificate()
    ensures { (bytes : List ℕ) (line : ℕ) → IsFirstBadLine bytes line → (f : Formula) (d : Derivation) → IsCertificate bytes f d → ⊥ }
{}
