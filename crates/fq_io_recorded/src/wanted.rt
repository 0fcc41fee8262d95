// A file that is wanted.

/// The name of a file, and how many bytes it may have.
#[derive(Clone, Copy, Debug)]
pub struct Wanted<'a> {
    pub name: &'a str,
    pub most: u64,
}
