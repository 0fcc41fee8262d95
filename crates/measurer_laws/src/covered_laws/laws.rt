//! Laws of the definitions in specs/. Each function does nothing: its contract is the law.
ghost use Rattle.measurer_laws.specs.covered_laws.Conditions.{ConditionCovered, GuardCovered};
ghost use Rattle.measurer_laws.specs.covered_laws.Covered.{CoveredWhereHappens};
ghost use Rattle.measurer_laws.specs.covered_laws.Edges.{
  AlikeCovered,
  CoveredHappens,
  EdgeCovered,
  FilterSomeCovered,
  SameEvents,
  SomeCovered,
};
ghost use Rattle.measurer_laws.specs.covered_laws.Names.{DefinitionsSelect, LabelsSelect};
ghost use Rattle.measurer_laws.specs.covered_laws.Queries.{FilterAsks, QuotedFilterAsks};
ghost use Rattle.measurer_laws.specs.covered_laws.Units.{UnitsAreMade};
ghost use Rattle.measurer_laws.specs.covered_laws.Filters.{
  CallsSelect,
  ConditionsSelect,
  DecisionsSelect,
  FilesSelect,
  FilterCovered,
  IntersectionsSelect,
  KindsSelect,
  LinesSelect,
  UnionsSelect,
};

/// A goal that asks for exactly the edges that tell an event which passes a test is hit exactly where such an event happens
/// by the trees.
pub fn covered_where_happens()
    ensures { CoveredWhereHappens }
{}

/// A goal that asks for the guards of a place that have a truth is hit exactly where the condition of this place is decided so.
pub fn condition_covered()
    ensures { ConditionCovered }
{}

/// So it is of one guard, where no other of its place has its truth.
pub fn guard_covered()
    ensures { GuardCovered }
{}

/// A goal that asks for the edges that a filter keeps is hit exactly where an event happens that passes the filter's test.
pub fn filter_covered()
    ensures { FilterCovered }
{}

/// `@LINE` keeps the edges that tell an event of its line.
pub fn lines_select()
    ensures { LinesSelect }
{}

/// `@FILE` keeps the edges that tell an event of its file.
pub fn files_select()
    ensures { FilesSelect }
{}

/// `@STMTTYPE` keeps the edges that tell an event of a statement of its kinds.
pub fn kinds_select()
    ensures { KindsSelect }
{}

/// `@CONDITIONEDGE` keeps the edges that tell that a condition is decided.
pub fn conditions_select()
    ensures { ConditionsSelect }
{}

/// `@DECISIONEDGE` keeps the edges that tell that a condition is decided which settles its decision.
pub fn decisions_select()
    ensures { DecisionsSelect }
{}

/// `@CALL` keeps the edges that tell that its function is entered or answers.
pub fn calls_select()
    ensures { CallsSelect }
{}

/// `UNION` of two filters that have tests has the test of either.
pub fn unions_select()
    ensures { UnionsSelect }
{}

/// `INTERSECT` of two filters that have tests, the first one of places and kinds alone, has the test of both.
pub fn intersections_select()
    ensures { IntersectionsSelect }
{}

/// `@DEF` keeps the edges that tell that a variable of its name is changed.
pub fn definitions_select()
    ensures { DefinitionsSelect }
{}

/// `@LABEL` keeps the edges that tell that control comes to its label.
pub fn labels_select()
    ensures { LabelsSelect }
{}

/// Each unit of texts in which nothing is wrong is one that the laws speak of.
pub fn units_are_made()
    ensures { UnitsAreMade }
{}

/// A query that covers a filter in quotation marks has one goal, which asks for the edges that the filter keeps.
pub fn quoted_filter_asks()
    ensures { QuotedFilterAsks }
{}

/// One that covers a filter without quotation marks has a goal for each edge that the filter keeps, which asks for it alone.
pub fn filter_asks()
    ensures { FilterAsks }
{}

/// The test of one event passes it alone.
pub fn same_events()
    ensures { SameEvents }
{}

/// Of goals that ask for one edge each, of exactly the edges that tell an event which passes a test, some one is hit exactly where
/// such an event happens by the trees.
pub fn some_covered()
    ensures { SomeCovered }
{}

/// So it is of the goals of the edges that a filter keeps, where the filter has a test.
pub fn filter_some_covered()
    ensures { FilterSomeCovered }
{}

/// Of the goals of all edges that tell an event some one is hit exactly where the event happens.
pub fn alike_covered()
    ensures { AlikeCovered }
{}

/// Where no other edge tells its event, the goal of an edge is hit exactly where this event happens.
pub fn edge_covered()
    ensures { EdgeCovered }
{}

/// Where the goal of an edge is hit, its event happens.
pub fn covered_happens()
    ensures { CoveredHappens }
{}
