//! Laws of the definitions in specs/. Each function does nothing: its contract is the law.
ghost use Rattle.measurer_laws.specs.path_events.Laws.{RecordsTell, UnitRecordsTell};

/// What the edges of a recorded run tell is what happens by the trees: all of it where the run ends within the limit, and else a
/// beginning.
pub fn records_tell()
    ensures { RecordsTell }
{}

/// So it is of each unit of texts in which nothing is wrong.
pub fn unit_records_tell()
    ensures { UnitRecordsTell }
{}
