//! The members of a block.
use py_imports::Binding;

/// A member of a block: an import line.
#[derive(Drop)]
pub(crate) struct Member {
    /// What it binds, in the order written.
    pub(crate) bindings: Vec<Binding>,
    /// Its own comments, without `#` and the space round them, and without the empty ones.
    pub(crate) comments: Vec<String>,
    /// The comments between it and the member before it, as they are written.
    pub(crate) above: Vec<String>,
}
