//! Writes the lines of places. No memory is taken.

ghost use Rattle.std.specs.Prelude.{◌∷◌, ◌++◌, codes, map};
ghost use Rattle.balise_edits.specs.Places.{in_group, in_packet, in_telegram, path_of};
ghost use Rattle.balise_facts.specs.FactTexts.{place_line};
ghost use Rattle.balise_facts.specs.PlaceTexts.{place_text};
ghost use Rattle.balise_lines.specs.Writing.{Writes};
ghost use Rattle.balise_rules.specs.Paths.{At, Nth};
ghost use Rattle.balise_text.specs.Texts.{text_of};

use crate::tag_text::TagText;
use balise_edits::{InGroup, InPacket, InTelegram, Path, Tag};
use balise_lines::{Counted, WriteFault, put};
use balise_text::put_texts;
use itoa::Buffer;
use std::io::Write;

/// Writes the lines of a name and places.
pub(crate) fn put_places<W: Write>(
    writer: &mut Counted<W>,
    name: &'static [u8],
    places: &[Path],
) -> Result<(), WriteFault>
    ensures { Writes W.contents writer.old writer.new result (text_of (map (place_line name.now) (map path_of places.now))) }
{
    for place in places {
        if let Err(fault) = put_place(writer, name, place) {
            return Err(fault);
        }
    }
    Ok(())
}

// Writes the line of a name and a place.
fn put_place<W: Write>(
    writer: &mut Counted<W>,
    name: &'static [u8],
    place: &Path,
) -> Result<(), WriteFault>
    ensures { Writes W.contents writer.old writer.new result (place_line name.now (path_of place.now)) }
{
    if let Err(fault) = put_texts(writer, &[name, b" "]) {
        return Err(fault);
    }
    put_path(writer, place)
}

// Writes a place and the end of its line.
fn put_path<W: Write>(writer: &mut Counted<W>, place: &Path) -> Result<(), WriteFault>
    ensures { Writes W.contents writer.old writer.new result (place_text (path_of place.now) ++ codes "\n") }
{
    let mut country = Buffer::new();
    let mut number = Buffer::new();
    match place {
        Path::Group(g, part) => put_group(writer, *g, part),
        Path::First => put(writer, b"^.after\n"),
        Path::Last => put(writer, b"$.front\n"),
        Path::Identity(id) => put_texts(
            writer,
            &[
                b"#",
                country.format(id.country).as_bytes(),
                b".",
                number.format(id.number).as_bytes(),
                b"\n",
            ],
        ),
    }
}

// Writes a group or a part of it, and the end of its line.
fn put_group<W: Write>(writer: &mut Counted<W>, g: Tag, part: &InGroup) -> Result<(), WriteFault>
    ensures { Writes W.contents writer.old writer.new result (place_text (At g ∷ in_group part.now) ++ codes "\n") }
{
    let mut group = TagText::new();
    let group = group.format(g);
    match part {
        InGroup::Whole => put_texts(writer, &[group, b"\n"]),
        InGroup::After => put_texts(writer, &[group, b".after\n"]),
        InGroup::Front => put_texts(writer, &[group, b".front\n"]),
        InGroup::Turn => put_texts(writer, &[group, b".turn\n"]),
        InGroup::Name => put_texts(writer, &[group, b".name\n"]),
        InGroup::Telegram(t, part) => {
            if let Err(fault) = put_texts(writer, &[group, b"/"]) {
                return Err(fault);
            }
            put_telegram(writer, *t, part)
        }
    }
}

// Writes a part of a telegram, after its group, and the end of its line.
fn put_telegram<W: Write>(
    writer: &mut Counted<W>,
    t: u32,
    part: &InTelegram,
) -> Result<(), WriteFault>
    ensures { Writes W.contents writer.old writer.new result (place_text (Nth t ∷ in_telegram part.now) ++ codes "\n") }
{
    let mut telegram = Buffer::new();
    let telegram = telegram.format(t).as_bytes();
    match part {
        InTelegram::First => put_texts(writer, &[telegram, b"/^.after\n"]),
        InTelegram::Last => put_texts(writer, &[telegram, b"/$.front\n"]),
        InTelegram::Head(var) => put_texts(
            writer,
            &[telegram, b"/head.", var.name().as_bytes(), b"\n"],
        ),
        InTelegram::Packet(p, part) => {
            if let Err(fault) = put_texts(writer, &[telegram, b"/"]) {
                return Err(fault);
            }
            put_packet(writer, *p, part)
        }
    }
}

// Writes a packet or a part of it, after its telegram, and the end of its line.
fn put_packet<W: Write>(writer: &mut Counted<W>, p: Tag, part: &InPacket) -> Result<(), WriteFault>
    ensures { Writes W.contents writer.old writer.new result (place_text (At p ∷ in_packet part.now) ++ codes "\n") }
{
    let mut packet = TagText::new();
    let packet = packet.format(p);
    let mut occurrence = Buffer::new();
    match part {
        InPacket::Whole => put_texts(writer, &[packet, b"\n"]),
        InPacket::After => put_texts(writer, &[packet, b".after\n"]),
        InPacket::Front => put_texts(writer, &[packet, b".front\n"]),
        InPacket::Field(var, k) => put_texts(
            writer,
            &[
                packet,
                b".",
                var.name().as_bytes(),
                b".",
                occurrence.format(*k).as_bytes(),
                b"\n",
            ],
        ),
    }
}
