//! What a logical line is to sorting.

/// Whether a logical line can be put in order with others: what [`shape`](crate::shape) answers.
#[derive(Clone, Copy, Debug, PartialEq, Eq)]
pub enum Shape {
    /// It can: it is one import statement, and nothing of it is lost where it is written anew.
    Sortable,
    /// It begins with `import` or `from`, and stays as it is written.
    Pinned,
    /// It doesn't begin with `import` or `from`.
    Other,
}
