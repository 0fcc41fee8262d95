// Which variables are decided first.

/// Which variables a search decides first of those that were never active in a conflict.
#[derive(Clone, Copy, Debug)]
pub enum FirstVariables {
    /// Those with the lowest numbers: of a goal's formula the bits of its inputs.
    Lowest,
    /// Those with the highest numbers: of a goal's formula the gates next to what is asked for.
    Highest,
}
