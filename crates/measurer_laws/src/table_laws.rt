//! What the table of the automaton says of the marks of each edge: only guards are outcomes, what writes a variable is an
//! assignment and writes one, and labels stand at the edges of label statements alone.
//!
//! It has no code; `specs/table_laws/Marks` has the laws. It stands on `graph_of`, whose rows they are read off, one lemma for each.

ghost use Rattle.measurer_laws.specs.table_laws.Marks.{GraphsMarkGuards, NamesStandInGraphs};

/// In the automaton of each typed unit no edge but guards has the mark `outcome`.
pub fn graphs_mark_guards()
    ensures { GraphsMarkGuards }
{}

/// And each edge that writes a variable is an Assign or a Clear and writes one; each edge of a label statement, and no other,
/// has a label, and is a Skip that neither enters a loop nor leads back.
pub fn names_stand_in_graphs()
    ensures { NamesStandInGraphs }
{}
