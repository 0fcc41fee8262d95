// The ways into the places of an unwinding.
use circuit::Lit;
use sym_expr::sym_steps::SymState;

/// A way into a place: that of the start, or along an edge.
#[derive(Drop)]
pub(crate) struct Arrival {
    /// The edge along which runs come here, none for the start.
    pub(crate) edge: Option<u32>,
    /// Holds in the world of an input whose run comes this way.
    pub(crate) guard: Lit,
    /// The state in which runs come here, none where the guard is known to hold in no world.
    pub(crate) state: Option<SymState>,
}
