//! When bits are the same.

ghost use Rattle.std.specs.Prelude.{◌≡◌, ◌↔◌, IsTrue};
ghost use Rattle.std.specs.Cmp.{partial_equiv_from_equiv};
ghost use Rattle.balise_bits.specs.Bytes.{flat};
ghost use Rattle.balise_bits.specs.Equal.{bits_eq, bits_eq_laws};

use crate::bits::Bits;

impl PartialEq for Bits {
    ghost eq = { bits_eq };

    ghost laws = { partial_equiv_from_equiv bits_eq_laws };

    fn eq(&self, other: &Bits) -> bool
        ensures eq { result ≡ bits_eq self.now other.now }
        ensures same { IsTrue result ↔ (self.now ≡ other.now) }
    {
        if self.bytes.len() != other.bytes.len() {
            return false;
        }
        same_bytes(self.bytes.as_slice(), other.bytes.as_slice())
    }
}

impl Eq for Bits {
    ghost laws = { bits_eq_laws };
}

// Whether bytes are the same. The comparison borrows copies, so that the prover still knows that `a` and `b` hold bytes.
fn same_bytes(a: &[u8], b: &[u8]) -> bool
    ensures { IsTrue result ↔ (flat a.now ≡ flat b.now) }
{
    let (left, right) = (a, b);
    left == right
}
