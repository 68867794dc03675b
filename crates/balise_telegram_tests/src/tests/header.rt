//! Headers of a short and a long telegram.

use crate::tests::telegrams::{TWO_PACKETS, telegram_of};
use balise_telegram::{Header, Telegram};
use std::process::Abort;

/// 210 bits without packets.
const ODD: &str = "a13b40c030013fffffffffffffffffffffffffffffffffffffffc0";

const ODD_HEADER: Header = Header {
    q_updown: 1,
    m_version: 33,
    q_media: 0,
    n_pig: 3,
    n_total: 5,
    m_dup: 2,
    m_mcount: 129,
    nid_c: 513,
    nid_bg: 8194,
    q_link: 0,
};

/// 830 bits without packets.
const GREATEST: &str =
    "ff7ffffffffffffffffffffffffffffffffffffffffffffffffffffffffffffffffffffffffffffffffffffffffffffffffffffffffffffffffffffffffffffffffffffffffffffffffffffffffffffffffffffffffffffffffffffffffffffffffffffffffffffc";

const GREATEST_HEADER: Header = Header {
    q_updown: 1,
    m_version: 127,
    q_media: 0,
    n_pig: 7,
    n_total: 7,
    m_dup: 3,
    m_mcount: 255,
    nid_c: 1023,
    nid_bg: 16383,
    q_link: 1,
};

const TWO_PACKETS_HEADER: Header = Header {
    q_updown: 1,
    m_version: 33,
    q_media: 0,
    n_pig: 0,
    n_total: 0,
    m_dup: 0,
    m_mcount: 255,
    nid_c: 5,
    nid_bg: 100,
    q_link: 1,
};

fn check_header(rt: &impl Abort, telegram: &Telegram, header: Header) {
    assert!(rt; telegram.header() == header);
    let bits = telegram.bits();
    assert!(rt; bits.len() >= 50);
    assert!(rt; Header::read(bits) == header);
    assert!(rt; telegram.version() == header.m_version);
    assert!(rt; telegram.identity().country == header.nid_c);
    assert!(rt; telegram.identity().number == header.nid_bg);
    assert!(rt; telegram.place_in_group() == (header.n_pig, header.n_total));
}

#[test]
fn reads_the_ten_numbers(rt: HostRuntime) {
    check_header(&rt, &telegram_of(&rt, rt.alloc(), ODD), ODD_HEADER);
    check_header(
        &rt,
        &telegram_of(&rt, rt.alloc(), GREATEST),
        GREATEST_HEADER,
    );
    check_header(
        &rt,
        &telegram_of(&rt, rt.alloc(), TWO_PACKETS),
        TWO_PACKETS_HEADER,
    );
}
