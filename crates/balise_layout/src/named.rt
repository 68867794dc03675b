//! What a packet names, as it was seen while it was checked.

use crate::few::FewIdentities;

/// The identities that the elements of a packet name.
#[derive(Drop)]
pub enum Named {
    /// None: it has no elements.
    Nothing,
    /// Those of at most four elements, one each, in order.
    Few(FewIdentities),
    /// Those of more elements, which weren't kept.
    Many,
}
