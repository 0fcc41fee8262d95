// What surrounds a statement.
use c_values::Kind;

/// What the function gives, and whether `break` and `continue` may stand here.
#[derive(Clone, Copy, Debug)]
pub struct Around {
    /// None for `void`.
    pub result: Option<Kind>,
    pub breaks: bool,
    pub continues: bool,
}
