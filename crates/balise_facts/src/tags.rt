//! Writes the tags of a plan. No memory is taken.

ghost use Rattle.std.specs.Prelude.{◌++◌, ◌∷◌, codes, map};
ghost use Rattle.balise_facts.specs.TagTexts.{group_line, group_lines, packet_line, packet_lines, tags_text, telegram_line, telegram_lines};
ghost use Rattle.balise_lines.specs.Writing.{Writes};
ghost use Rattle.balise_text.specs.Reviews.{id_text};
ghost use Rattle.balise_text.specs.Texts.{text_of};

use crate::tag_text::TagText;
use balise_history::{Group, Id, Plan, Tag, Telegram};
use balise_lines::{Counted, WriteFault};
use balise_text::put_texts;
use itoa::Buffer;
use std::io::Write;

// Writes a line: a kind of thing, the identity of its group, and these texts after them.
fn put_line<W: Write>(
    writer: &mut Counted<W>,
    kind: &[u8],
    id: Id,
    end: &[&[u8]],
) -> Result<(), WriteFault>
    ensures { Writes W.contents writer.old writer.new result (text_of (kind.now ∷ codes " " ∷ id_text id ∷ map (λ t. t.now) end.now)) }
{
    let mut country = Buffer::new();
    let mut number = Buffer::new();
    let country = country.format(id.country).as_bytes();
    let number = number.format(id.number).as_bytes();
    if let Err(fault) = put_texts(writer, &[kind, b" ", country, b".", number]) {
        return Err(fault);
    }
    put_texts(writer, end)
}

// Writes the line of a packet, by its place.
fn put_packet<W: Write>(
    writer: &mut Counted<W>,
    id: Id,
    pig: usize,
    pkt: usize,
    p: Tag,
) -> Result<(), WriteFault>
    ensures { Writes W.contents writer.old writer.new result (packet_line id pig pkt p) }
{
    let mut telegram = Buffer::new();
    let mut packet = Buffer::new();
    let mut tag = TagText::new();
    let telegram = telegram.format(pig).as_bytes();
    let packet = packet.format(pkt).as_bytes();
    let end = [b" ", telegram, b" ", packet, b" ", tag.format(p), b"\n"];
    put_line(writer, b"packet", id, &end)
}

// Writes the lines of the packets of a telegram.
fn put_packets<W: Write>(
    writer: &mut Counted<W>,
    id: Id,
    pig: usize,
    telegram: &Telegram,
) -> Result<(), WriteFault>
    ensures { Writes W.contents writer.old writer.new result (packet_lines id pig 0 telegram.now.packets) }
{
    // The number of packets is a `usize`, so counting them doesn't overflow.
    let _count = telegram.count();
    let mut pkt = 0;
    for (tag, _) in telegram.packets() {
        if let Err(fault) = put_packet(writer, id, pig, pkt, tag) {
            return Err(fault);
        }
        pkt += 1;
    }
    Ok(())
}

// Writes the line of a telegram and its tag, by its place.
fn put_telegram<W: Write>(
    writer: &mut Counted<W>,
    id: Id,
    pig: usize,
    t: u32,
) -> Result<(), WriteFault>
    ensures { Writes W.contents writer.old writer.new result (telegram_line id pig t) }
{
    let mut telegram = Buffer::new();
    let mut tag = Buffer::new();
    let telegram = telegram.format(pig).as_bytes();
    let tag = tag.format(t).as_bytes();
    put_line(writer, b"telegram", id, &[b" ", telegram, b" ", tag, b"\n"])
}

// Writes the lines of a telegram.
fn put_telegram_lines<W: Write>(
    writer: &mut Counted<W>,
    id: Id,
    pig: usize,
    t: u32,
    telegram: &Telegram,
) -> Result<(), WriteFault>
    ensures { Writes W.contents writer.old writer.new result (telegram_line id pig t ++ packet_lines id pig 0 telegram.now.packets) }
{
    if let Err(fault) = put_telegram(writer, id, pig, t) {
        return Err(fault);
    }
    put_packets(writer, id, pig, telegram)
}

// Writes the line of a group and its tag.
fn put_group<W: Write>(writer: &mut Counted<W>, id: Id, g: Tag) -> Result<(), WriteFault>
    ensures { Writes W.contents writer.old writer.new result (group_line id g) }
{
    let mut tag = TagText::new();
    put_line(writer, b"group", id, &[b" ", tag.format(g), b"\n"])
}

// Writes the lines of the telegrams of a group.
fn put_telegrams<W: Write>(writer: &mut Counted<W>, id: Id, group: &Group) -> Result<(), WriteFault>
    ensures { Writes W.contents writer.old writer.new result (telegram_lines id 0 group.now) }
{
    for pig in 0..group.count() {
        let Some((t, telegram)) = group.at(pig) else {
            break;
        };
        if let Err(fault) = put_telegram_lines(writer, id, pig, t, telegram) {
            return Err(fault);
        }
    }
    Ok(())
}

// Writes the lines of a group.
fn put_group_lines<W: Write>(
    writer: &mut Counted<W>,
    g: Tag,
    group: &Group,
) -> Result<(), WriteFault>
    ensures { Writes W.contents writer.old writer.new result (group_lines (g, group.now)) }
{
    let id = group.identity();
    if let Err(fault) = put_group(writer, id, g) {
        return Err(fault);
    }
    put_telegrams(writer, id, group)
}

/// Writes the tags of a plan: a line for each group, telegram and packet.
pub(crate) fn put_tags<W: Write>(writer: &mut Counted<W>, plan: &Plan) -> Result<(), WriteFault>
    ensures { Writes W.contents writer.old writer.new result (tags_text plan.now.groups) }
{
    for place in 0..plan.count() {
        let Some((tag, group)) = plan.at(place) else {
            break;
        };
        if let Err(fault) = put_group_lines(writer, tag, group) {
            return Err(fault);
        }
    }
    Ok(())
}
