//! An array whose first elements can be borrowed.

ghost use Rattle.std.specs.Prelude.{◌≡◌, ◌≤◌, take};
ghost use Rattle.std.specs.Borrow.{sem};

/// An array in a struct of its own, so that a contract can say what a borrow of its first elements writes back.
#[derive(Clone, Copy, Drop)]
pub(crate) struct Cells<T, const N: usize> {
    pub(crate) xs: [T; N],
}

impl<T, const N: usize> Cells<T, N> {
    ghost use Rattle.balise_bits.specs.Cells.{lends_front};

    /// The first `len` elements, for writing.
    #[inline]
    pub(crate) fn front_mut(&mut self, len: usize) -> &mut [T]
        requires { len ≤ N }
        ensures* writes_back { sem 𝓛 (lends_front T.row N.row self.entry result) }
        ensures value { result.now ≡ take len self.old.xs }
    {
        &mut self.xs[..len]
    }
}
