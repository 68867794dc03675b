//! Where the codes of tags are held in a map.

ghost use Rattle.std.specs.Prelude.{◌≡◌};
ghost use Rattle.balise_index.specs.TagHashes as hashes;

use indexmap::IndexMap;
use std::hash::{BuildHasherDefault, Hasher};

/// Values under the codes of tags.
pub(crate) type TagMap<V> = IndexMap<u32, V, BuildHasherDefault<TagHasher>>;

/// What a code is multiplied by for the highest byte of its hash.
const FACTOR: u64 = 0x9e37_79b1;

/// Hashes a code to itself but for the highest byte, which differs for codes at one place. So a plan's tags, which are
/// read one after another, are noted in a map one after another. Whoever picks the tags can make codes collide; so can
/// they with a map's usual hasher, whose seed is known.
#[derive(Clone, Copy)]
pub(crate) struct TagHasher {
    state: u64,
}

impl Default for TagHasher {
    ghost is_default = { λ hasher. hasher ≡ hashes.first };

    fn default() -> TagHasher {
        TagHasher { state: 0 }
    }
}

// The number that four bytes are, the lowest first; of others the first byte.
fn number_in(bytes: &[u8]) -> u64
    ensures { result ≡ hashes.number_in bytes.now }
{
    if bytes.len() == 4 {
        u32::from_le_bytes([bytes[0], bytes[1], bytes[2], bytes[3]]) as u64
    } else if bytes.len() > 0 {
        bytes[0] as u64
    } else {
        0
    }
}

impl Hasher for TagHasher {
    ghost write = { hashes.write };

    ghost finish = { hashes.finish };

    fn finish(&self) -> u64 {
        self.state & 0xff_ffff | self.state.wrapping_mul(FACTOR) & 0xff00_0000
    }

    fn write(&mut self, bytes: &[u8]) {
        self.state = self
            .state
            .wrapping_mul(FACTOR)
            .wrapping_add(number_in(bytes));
    }
}
