//! Digits of groups, and their tags.

use balise_plan::GroupTag;

/// The tags of the first and the second group that are read.
pub(crate) const FIRST: GroupTag = GroupTag::Base(0);

pub(crate) const SECOND: GroupTag = GroupTag::Base(1);

/// 5.100, without packets.
pub(crate) const EMPTY: &str = "a1007f80a0327fffffffffffffffffffffffffffffffffffffffc0";

/// 5.100, without packets, in 830 bits.
pub(crate) const LONG: &str =
    "a1007f80a0327ffffffffffffffffffffffffffffffffffffffffffffffffffffffffffffffffffffffffffffffffffffffffffffffffffffffffffffffffffffffffffffffffffffffffffffffffffffffffffffffffffffffffffffffffffffffffffffffffffc";

/// 5.100, with a packet 66, which takes back restriction 5.
pub(crate) const REVOCATION: &str = "a1007f80a03250900f82ffffffffffffffffffffffffffffffffc0";

/// 5.100, with two packets 66, which take back restrictions 5 and 7.
pub(crate) const REVOCATIONS: &str = "a1007f80a03250900f82a1201f07ffffffffffffffffffffffffc0";

/// 5.100 of three telegrams: packet 65 and M_DUP 1, an unknown packet and M_DUP 2, no packet.
pub(crate) const THREE: &str =
    "a104ff80a032505023a0a0320096047fffffffffffffffffffffc0 a1157f80a0324b0010697fffffffffffffffffffffffffffffffc0 a1247f80a0327fffffffffffffffffffffffffffffffffffffffc0";

/// 5.101, whose packet 5 names 5.100.
pub(crate) const LINKING: &str = "a1007f80a032c15022a07d00326301ffffffffffffffffffffffc0";

/// 5.102, whose packet 5 names 6.100 twice: a further element keeps the country.
pub(crate) const ABROAD: &str = "a1007f80a03341503b204b20300c88c0819000c98cffffffffffc0";

/// 5.103, whose packet 136 names 5.100.
pub(crate) const INFILL: &str = "a1007f80a033e210130064ffffffffffffffffffffffffffffffc0";
