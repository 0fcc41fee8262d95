//! Laws of the definitions of typing. Each function does nothing: its contract is the law.
ghost use Rattle.tree_meaning_laws.specs.temporaries_apart.Laws.{TemporariesAreApart};
ghost use Rattle.tree_meaning_laws.specs.temporaries_apart.Reads.{ReadsOwnCells};

/// The temporaries of a typed function stand behind its variables, within its frame, and no two are the same.
pub fn temporaries_are_apart()
    ensures { TemporariesAreApart }
{}

/// An expression that fits depends on the cells of variables, and on those of its outermost temporaries, alone.
pub fn own_cells_are_read()
    ensures { ReadsOwnCells }
{}
