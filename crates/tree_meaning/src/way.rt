// Where statements leave off.
ghost use Rattle.std.specs.Prelude.{◌≡◌};
ghost use Rattle.tree_meaning.specs.Running.{is_on};

/// Where a statement leaves off (ISO/IEC 9899:2011, 6.8.6).
#[derive(Clone, Copy, Debug, PartialEq, Eq)]
pub enum Way {
    /// It goes on to the next.
    GoesOn,
    /// It breaks a loop or a `switch`.
    Breaks,
    /// It continues a loop.
    Continues,
    /// It returns from the function.
    Returns,
}

/// Whether a statement goes on to the next.
pub(crate) fn is_on(way: Way) -> bool
    ensures { result ≡ is_on way }
{
    match way {
        Way::GoesOn => true,
        Way::Breaks => false,
        Way::Continues => false,
        Way::Returns => false,
    }
}
