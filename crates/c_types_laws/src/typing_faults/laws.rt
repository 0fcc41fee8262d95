//! Laws of the faults of typing. Each function does nothing: its contract is the law.
ghost use Rattle.c_types_laws.specs.typing_faults.Laws.{FaultsLieInTheUnit, FaultsOfTexts, OneRefusal};

/// Each fault of a unit has one of the codes of typing, and whatever holds of the places in its trees holds of the place
/// of the fault.
pub fn faults_lie_in_the_unit()
    ensures { FaultsLieInTheUnit }
{}

/// Each fault of a unit of texts has one of the codes of typing, and its line is that of its first byte in its text.
pub fn faults_of_texts()
    ensures { FaultsOfTexts }
{}

/// A unit of texts is refused by its types with one code at one place.
pub fn one_refusal_of_types()
    ensures { OneRefusal }
{}
