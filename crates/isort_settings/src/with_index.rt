//! A list with its index.
ghost use Rattle.std.specs.Prelude.{◌≡◌};

/// A list, and the index of the modules in it.
#[derive(Debug, Drop)]
pub struct WithIndex<T, I> {
    pub list: Vec<T>,
    pub index: I,
}

impl<T: Drop, I: Drop> WithIndex<T, I> {
    /// The list.
    pub fn as_slice(&self) -> &[T]
        ensures { result.now ≡ self.now.list.items }
    {
        self.list.as_slice()
    }

    /// The list, without the index. This takes no memory.
    pub fn into_list(self) -> Vec<T>
        ensures { result ≡ self.list }
    {
        self.list
    }
}
