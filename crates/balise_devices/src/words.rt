//! Words for a test, handed over as the system does.

ghost use Rattle.std.specs.Prelude.{◌≡◌, IfOk, map, string_bytes};
ghost use Rattle.std.specs.Vec.Iter.{into_iter_items};

use std::alloc::{AllocError, Global};
use std::env::Args;

/// The words of a command line, as the system hands them over.
pub fn arguments(alloc: Global, words: &[&str]) -> Result<Args, AllocError>
    ensures { IfOk result (λ args. map string_bytes (into_iter_items args) ≡ map (λ w. w.now) words.now) }
{
    let mut owned = Vec::new(alloc);
    for word in words {
        owned.push(word.to_string(alloc)?)?;
    }
    Ok(owned.into_iter())
}
