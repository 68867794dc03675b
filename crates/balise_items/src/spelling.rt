//! What an item is turned into.

ghost use Rattle.std.specs.Prelude.{◌≡◌, IfOk};
ghost use Rattle.balise_items.specs.Spellings.{first_bad, is_alone, packet_spelling, sound_spelling, spelling_of, telegram_spelling};

use crate::item::Item;
use crate::packets::add_packet;
use crate::place::Place;
use crate::reason::{Bad, Reason, Stop};
use crate::telegram::spell_telegram;
use balise_bits::Bits;
use balise_fields::FieldsFault;
use std::alloc::Global;

/// What an item is turned into.
#[derive(Drop)]
pub enum Spelling {
    /// The bits of a telegram.
    Telegram(Bits),
    /// The bits of a packet by itself, with its M_VERSION.
    Packet(u32, Bits),
    /// Where the item is refused, and why.
    Bad(Bad),
}

impl Spelling {
    ghost use Rattle.balise_items.specs.Spellings.{is_bad};

    /// Whether the item is refused.
    pub fn is_bad(&self) -> bool
        ensures { result ≡ is_bad self.now }
    {
        match self {
            Spelling::Bad(_) => true,
            _ => false,
        }
    }
}

// The line that makes an item bad by its words.
fn first_bad(item: &Item) -> Option<Bad>
    ensures { result ≡ first_bad item.now }
{
    if let Place::Bad(line) = item.place {
        return Some(Bad {
            line: u64::from(line),
            reason: Reason::BadLine,
        });
    }
    if let Some(line) = item.bad_digits {
        return Some(Bad {
            line: u64::from(line),
            reason: Reason::BadHex,
        });
    }
    if let Some(line) = item.unknown {
        return Some(Bad {
            line: u64::from(line),
            reason: Reason::UnknownName,
        });
    }
    None
}

// Whether it is a packet by itself.
fn is_alone(place: Place) -> bool
    ensures { result ≡ is_alone place }
{
    match place {
        Place::Alone | Place::AloneRest => true,
        _ => false,
    }
}

// A packet by itself.
fn spell_packet(alloc: Global, item: &Item) -> Result<Spelling, FieldsFault>
    ensures { IfOk result (λ s. s ≡ packet_spelling item.now) }
{
    let mut bits = Bits::new(alloc);
    match add_packet(&mut bits, item.number, &item.last) {
        Ok(()) => Ok(Spelling::Packet(item.number, bits)),
        Err(Stop::Bad(bad)) => Ok(Spelling::Bad(bad)),
        Err(Stop::OutOfMemory) => Err(FieldsFault::OutOfMemory),
    }
}

// A telegram.
fn spell_whole(alloc: Global, item: &Item, end: u32) -> Result<Spelling, FieldsFault>
    ensures { IfOk result (λ s. s ≡ telegram_spelling end item.now) }
{
    match spell_telegram(alloc, item, end) {
        Ok(bits) => Ok(Spelling::Telegram(bits)),
        Err(Stop::Bad(bad)) => Ok(Spelling::Bad(bad)),
        Err(Stop::OutOfMemory) => Err(FieldsFault::OutOfMemory),
    }
}

/// What an item is turned into whose lines end before the line of this number.
pub fn spell_item(alloc: Global, item: &Item, end: u32) -> Result<Spelling, FieldsFault>
    ensures { IfOk result (λ s. s ≡ spelling_of end item.now) }
{
    if let Some(bad) = first_bad(item) {
        return Ok(Spelling::Bad(bad));
    }
    if is_alone(item.place) {
        return spell_packet(alloc, item);
    }
    spell_whole(alloc, item, end)
}
