//! What turning and renumbering change, with digits made by hand.

use crate::tests::telegrams::{check_shown, telegram_of};
use balise_telegram::{Id, PacketTag, Telegram};
use std::process::Abort;

/// One packet 5 with one element.
pub(crate) const LINKING: &str = "a1007f80a032c15022a07d00326301ffffffffffffffffffffffc0";

/// What the element names.
pub(crate) const NAMED: Id = Id {
    country: 5,
    number: 100,
};

/// `LINKING`, with the element's orientation flipped.
pub(crate) const FLIPPED: &str = "a1007f80a032c15022a07d00322301ffffffffffffffffffffffc0";

/// `LINKING`, with an element that names 777.
pub(crate) const RENAMED: &str = "a1007f80a032c15022a07d0184e301ffffffffffffffffffffffc0";

/// The two packets, the first one turned.
pub(crate) const TURNED: &str = "a1007f80a03250800f82a1201f07ffffffffffffffffffffffffc0";

/// The two packets, both turned.
pub(crate) const BOTH_TURNED: &str = "a1007f80a03250800f82a1001f07ffffffffffffffffffffffffc0";

/// The two packets under a header with N_PIG 3 and NID_BG 777.
pub(crate) const HEADER_PUT: &str = "a1307f80a184d0900f82a1201f07ffffffffffffffffffffffffc0";

/// Whether the packet with this tag has these elements.
pub(crate) fn has_links(telegram: &Telegram, tag: PacketTag, links: &[Id]) -> bool {
    match telegram.packet(tag) {
        Some(packet) => packet.elements(telegram.identity().country).as_slice() == links,
        None => links.is_empty(),
    }
}

/// That changes of an element or a packet that isn't there change nothing.
fn change_lacking(rt: &impl Abort, telegram: &mut Telegram) {
    let (first, lacking) = (PacketTag::Base(0), PacketTag::Base(1));
    assert!(rt; has_links(telegram, lacking, &[]));
    telegram.flip_link(first, 1);
    telegram.flip_link(lacking, 0);
    telegram.name_link(first, 1, 777);
    telegram.name_link(lacking, 0, 777);
    check_shown(rt, telegram, LINKING);
}

#[test]
fn changes_no_element_that_is_lacking(rt: HostRuntime) {
    change_lacking(&rt, &mut telegram_of(&rt, rt.alloc(), LINKING));
}
