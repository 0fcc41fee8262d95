//! Laws of the definitions in specs/. Each function does nothing: its contract is the law.
ghost use Rattle.filters_paths.specs.Laws.{PathsRise, OneList};

/// The list of paths rises strictly, and holds exactly the paths.
pub fn paths_rise()
    ensures { PathsRise }
{}

/// There is no other list that does.
pub fn one_list()
    ensures { OneList }
{}
