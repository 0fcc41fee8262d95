// Who hits a goal first.

/// Which input of a list hits a goal first.
#[derive(Clone, Copy, Debug, PartialEq, Eq)]
pub enum FirstHit {
    /// The one with this number, from 1.
    By { input: u32 },
    /// None hits it.
    Never,
}
