//! What the lines of an item give.

ghost use Rattle.std.specs.Prelude.{◌≡◌, OnOk};
ghost use Rattle.balise_items.specs.Items.{begun, noted, number_in, with_content, with_line};

use crate::place::{Place, after, begins_at};
use crate::section::Section;
use balise_bits::Bits;
use balise_fields::{FieldLine, FieldsFault};
use std::alloc::Global;
use std::marker::Model;
use std::mem;

/// What the lines of an item give, as far as they have come.
#[derive(Drop)]
pub struct Item {
    pub(crate) place: Place,
    /// BITS of a telegram, or VERSION of a packet by itself.
    pub(crate) number: u32,
    /// The header and the packets before the last.
    pub(crate) before: Vec<Section>,
    /// The header or the packet that the lines have reached.
    pub(crate) last: Section,
    /// The bits after packet 255, or none.
    pub(crate) padding: Bits,
    /// The first line whose digits aren't those of its BITS.
    pub(crate) bad_digits: Option<u32>,
    /// The first line with a name that no variable has.
    pub(crate) unknown: Option<u32>,
}

impl Model for Item {
    ghost use Rattle.balise_items.specs.Items.{GivenItem};

    ghost Value = { GivenItem };

    ghost view = { λ i. record { place = i.place; number = i.number; before = i.before.items; last = i.last; padding = i.padding; bad_digits = i.bad_digits; unknown = i.unknown } };
}

// The first of the lines that were noted, and this one.
fn noted(first: Option<u32>, number: u32) -> Option<u32>
    ensures { result ≡ noted first number }
{
    match first {
        Some(first) => Some(first),
        None => Some(number),
    }
}

// BITS or VERSION.
fn number_in(line: &FieldLine) -> u32
    ensures { result ≡ number_in line.now }
{
    match line {
        FieldLine::Telegram(Some(bits)) => *bits,
        FieldLine::Alone(Some(version)) => *version,
        _ => 0,
    }
}

impl Item {
    /// The item that begins at this line, which has this number.
    pub fn new(alloc: Global, number: u32, line: &FieldLine) -> Item
        ensures { result ≡ begun number line.now }
    {
        Item {
            place: begins_at(line, number),
            number: number_in(line),
            before: Vec::new(alloc),
            last: Section::new(alloc, number),
            padding: Bits::new(alloc),
            bad_digits: None,
            unknown: None,
        }
    }

    /// One line more, which has this number.
    pub fn add(&mut self, alloc: Global, number: u32, line: FieldLine) -> Result<(), FieldsFault>
        ensures { OnOk result (self.new ≡ with_line number line self.old) }
    {
        self.place = after(self.place, &line, number);
        if let Place::Bad(_) = self.place {
            return Ok(());
        }
        self.take(alloc, number, line)
    }

    // What the line gives, where it may stand.
    fn take(&mut self, alloc: Global, number: u32, line: FieldLine) -> Result<(), FieldsFault>
        ensures { OnOk result (self.new ≡ with_content number line self.old) }
    {
        match line {
            FieldLine::Field(Some(var), value) => self.last.push(var, value)?,
            FieldLine::Field(None, _) => self.unknown = noted(self.unknown, number),
            FieldLine::Rest(Some(bits)) => self.last.set_rest(bits),
            FieldLine::Padding(Some(bits)) => self.padding = bits,
            FieldLine::Rest(None) | FieldLine::Padding(None) => {
                self.bad_digits = noted(self.bad_digits, number);
            }
            FieldLine::Packet => {
                let last = mem::replace(&mut self.last, Section::new(alloc, number));
                self.before.push(last)?;
            }
            _ => {}
        }
        Ok(())
    }
}
