//! What follows from the definitions alone.
ghost use Rattle.c_type_rules.specs.Faults.{FirstOfFaults};

/// The first fault of a list is one that no other is before, and there is none where the list is empty.
pub fn first_of_faults()
    ensures { FirstOfFaults }
{}
