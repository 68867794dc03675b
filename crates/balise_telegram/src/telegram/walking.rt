//! Walks over the packets of a telegram's bits.

ghost use Rattle.std.specs.Prelude.{◌≡◌, ◌≤◌, ◌<◌, ◌+◌, IfNone, IfSome, length};
ghost use Rattle.balise_rules.specs.Bits.{num, part};
ghost use Rattle.balise_rules.specs.Telegram.{used, Telegram};
ghost use Rattle.balise_telegram.specs.Linking.{Reaches};
ghost use Rattle.balise_telegram.specs.Shown.{IsPlace, IsShown, Passes};

use balise_layout::{Bits, may_have_elements};

/// A place before a packet, or before packet 255: the number of packets before it, and its bit.
#[derive(Clone, Copy)]
pub(crate) struct Place {
    pub(crate) index: usize,
    pub(crate) at: usize,
}

/// The place before the first packet.
pub(crate) fn first() -> Place
    ensures index { result.index ≡ 0 }
    ensures at { result.at ≡ 50 }
{
    Place { index: 0, at: 50 }
}

/// The place after `most` packets, or after the last one if there are fewer.
pub(crate) fn walk(bits: &Bits, most: usize) -> Place
    requires { (y : Telegram) × IsShown bits.now y }
    ensures { (y : Telegram) → IsShown bits.now y → Passes y.packets most result.index result.at }
{
    let mut at = 50;
    let mut count = 0;
    'packets: loop {
        if count == most {
            return Place { index: count, at };
        }
        let Some(head) = head_at(bits, Place { index: count, at }) else {
            return Place { index: count, at };
        };
        // L_PACKET
        at += (head % 8192) as usize;
        count += 1;
    }
}

/// The first 23 bits of the packet at a place: NID_PACKET, Q_DIR and L_PACKET. `None` where packet 255 stands there.
#[inline(always)]
pub(crate) fn head_at(bits: &Bits, place: Place) -> Option<u32>
    requires { (y : Telegram) × IsShown bits.now y × IsPlace y place }
    ensures none { IfNone result ((y : Telegram) → IsShown bits.now y → IsPlace y place → length y.packets ≤ place.index) }
    ensures within { IfSome result (λ _. place.at + 23 ≤ length bits.now) }
    ensures head { IfSome result (λ head. head ≡ num (part place.at 23 bits.now)) }
    ensures stands { IfSome result (λ _. (y : Telegram) → IsShown bits.now y → IsPlace y place → place.index < length y.packets) }
{
    // Packet 255 may be the last 8 bits. Each other one has 23 at least.
    if place.at + 23 > bits.len() {
        return None;
    }
    let head = bits.number(place.at, 23);
    if head >> 15 == 255 {
        return None;
    }
    Some(head)
}

/// The first place, from a place on, before a packet that may have elements, with the first 23 bits of that; or the place
/// after the last packet.
#[inline(always)]
pub(crate) fn to_linking(bits: &Bits, from: Place) -> (Place, Option<u32>)
    requires { (y : Telegram) × IsShown bits.now y × IsPlace y from }
    ensures reaches { (y : Telegram) → IsShown bits.now y → IsPlace y from → Reaches y from result.0 }
    ensures none { IfNone result.1 ((y : Telegram) → IsShown bits.now y → IsPlace y from → length y.packets ≤ result.0.index) }
    ensures head { IfSome result.1 (λ head. head ≡ num (part result.0.at 23 bits.now)) }
    ensures stands { IfSome result.1 (λ _. (y : Telegram) → IsShown bits.now y → IsPlace y from → result.0.index < length y.packets) }
{
    let mut place = from;
    'packets: loop {
        let Some(head) = head_at(bits, place) else {
            return (place, None);
        };
        // NID_PACKET
        if may_have_elements(head >> 15) {
            return (place, Some(head));
        }
        place = after_head(bits, place, head);
    }
}

/// The place after the last packet.
pub(crate) fn ends(bits: &Bits) -> Place
    requires { (y : Telegram) × IsShown bits.now y }
    ensures ends { (y : Telegram) → IsShown bits.now y → (result.index ≡ length y.packets) × (result.at + 8 ≡ used y.packets) }
    ensures few { result.index ≤ 33 }
    ensures most { result.at + 8 ≤ length bits.now }
{
    walk(bits, usize::MAX)
}

/// The place after the packet at a place.
pub(crate) fn after(bits: &Bits, place: Place) -> Place
    requires { (y : Telegram) × IsShown bits.now y × IsPlace y place × (place.index < length y.packets) }
    ensures index { result.index ≡ place.index + 1 }
    ensures place { (y : Telegram) → IsShown bits.now y → IsPlace y place → place.index < length y.packets → IsPlace y result }
{
    let head = bits.number(place.at, 23);
    after_head(bits, place, head)
}

/// The place after the packet at a place, by its first 23 bits.
#[inline(always)]
pub(crate) fn after_head(bits: &Bits, place: Place, head: u32) -> Place
    requires stands { (y : Telegram) × IsShown bits.now y × IsPlace y place × (place.index < length y.packets) }
    requires head { head ≡ num (part place.at 23 bits.now) }
    ensures index { result.index ≡ place.index + 1 }
    ensures place { (y : Telegram) → IsShown bits.now y → IsPlace y place → place.index < length y.packets → IsPlace y result }
{
    // The length bounds the place below.
    let _len = bits.len();
    // L_PACKET
    let width = head % 8192;
    Place {
        index: place.index + 1,
        at: place.at + width as usize,
    }
}
