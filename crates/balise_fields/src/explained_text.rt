//! Prints what digits are explained as. No memory is taken.

ghost use Rattle.std.specs.Prelude.{◌≡◌, ◌++◌, ◌∷◌, [], codes, decimal};
ghost use Rattle.balise_lines.specs.Writing.{Writes};
ghost use Rattle.balise_text.specs.Texts.{text_of, whole_line};
ghost use Rattle.balise_fields.specs.ExplainedTexts.{alone_line, begun_text, bits_text, due_text, explained_text, fault_text, field_text, fields_text, front_text, in_packet, last_text, packets_text, telegram_text};

use crate::explained::{Begun, DigitFault, Explained, FaultDue};
use balise_bits::Bits;
use balise_codec::{PacketFields, Placed, TelegramFields};
use balise_lines::{Counted, WriteFault, put};
use balise_text::{put_fours, put_texts};
use itoa::Buffer;
use std::io::Write;

/// Writes what a line of digits is explained as.
pub fn put_explained<W: Write>(
    writer: &mut Counted<W>,
    explained: &Explained,
) -> Result<(), WriteFault>
    ensures { Writes W.contents writer.old writer.new result (explained_text explained.now) }
{
    match explained {
        Explained::Plan => put(writer, b"plan 1\n"),
        Explained::Group => put(writer, b"group\n"),
        Explained::Telegram(len, telegram) => put_telegram(writer, *len, telegram),
        Explained::Begun(begun) => put_begun(writer, begun),
        Explained::Packet(version, packet) => put_alone(writer, *version, packet),
        Explained::PacketBegun(version, fields, fault) => {
            put_alone_begun(writer, *version, fields, fault)
        }
        Explained::Digits(fault) => put_fault(writer, fault),
    }
}

// Writes the line of a name and a number.
fn put_number_line<W: Write>(
    writer: &mut Counted<W>,
    name: &[u8],
    number: u64,
) -> Result<(), WriteFault>
    ensures { Writes W.contents writer.old writer.new result (whole_line (name.now ∷ decimal number ∷ [])) }
{
    let mut digits = Buffer::new();
    put_texts(
        writer,
        &[name, b" ", digits.format(number).as_bytes(), b"\n"],
    )
}

/// Writes the line of a field.
pub fn put_field<W: Write>(writer: &mut Counted<W>, field: &Placed) -> Result<(), WriteFault>
    ensures { Writes W.contents writer.old writer.new result (field_text field.now) }
{
    let mut at = Buffer::new();
    let mut width = Buffer::new();
    let mut occurrence = Buffer::new();
    let mut value = Buffer::new();
    put_texts(
        writer,
        &[
            at.format(field.at).as_bytes(),
            b" ",
            width.format(field.width()).as_bytes(),
            b" ",
            field.var.name().as_bytes(),
            b" ",
            occurrence.format(field.occurrence).as_bytes(),
            b" ",
            value.format(field.value).as_bytes(),
            b"\n",
        ],
    )
}

// Writes the lines of fields.
fn put_fields<W: Write>(writer: &mut Counted<W>, fields: &[Placed]) -> Result<(), WriteFault>
    ensures { Writes W.contents writer.old writer.new result (fields_text fields.now) }
{
    for field in fields {
        if let Err(fault) = put_field(writer, field) {
            return Err(fault);
        }
    }
    Ok(())
}

// Writes a name and a number with a space after each.
fn put_count<W: Write>(writer: &mut Counted<W>, name: &[u8], count: usize) -> Result<(), WriteFault>
    ensures { Writes W.contents writer.old writer.new result (text_of (name.now ∷ codes " " ∷ decimal count ∷ codes " " ∷ [])) }
{
    let mut digits = Buffer::new();
    put_texts(writer, &[name, b" ", digits.format(count).as_bytes(), b" "])
}

// Writes the line of bits, if there are any.
fn put_bits<W: Write>(writer: &mut Counted<W>, name: &[u8], bits: &Bits) -> Result<(), WriteFault>
    ensures { Writes W.contents writer.old writer.new result (bits_text name.now bits.now) }
{
    if bits.is_empty() {
        return Ok(());
    }
    if let Err(fault) = put_count(writer, name, bits.len()) {
        return Err(fault);
    }
    if let Err(fault) = put_fours(writer, bits) {
        return Err(fault);
    }
    put(writer, b"\n")
}

// Writes the fields of a packet, and the bits after them.
fn put_packet_fields<W: Write>(
    writer: &mut Counted<W>,
    packet: &PacketFields,
) -> Result<(), WriteFault>
    ensures { Writes W.contents writer.old writer.new result (in_packet packet.now) }
{
    if let Err(fault) = put_fields(writer, &packet.fields) {
        return Err(fault);
    }
    put_bits(writer, b"rest", &packet.rest)
}

// Writes the packets of a telegram.
fn put_packets<W: Write>(
    writer: &mut Counted<W>,
    packets: &[PacketFields],
) -> Result<(), WriteFault>
    ensures { Writes W.contents writer.old writer.new result (packets_text packets.now) }
{
    for packet in packets {
        if let Err(fault) = put(writer, b"packet\n") {
            return Err(fault);
        }
        if let Err(fault) = put_packet_fields(writer, packet) {
            return Err(fault);
        }
    }
    Ok(())
}

// Writes a telegram up to the end of its packets.
fn put_front<W: Write>(
    writer: &mut Counted<W>,
    len: usize,
    header: &[Placed],
    packets: &[PacketFields],
) -> Result<(), WriteFault>
    ensures { Writes W.contents writer.old writer.new result (front_text len header.now packets.now) }
{
    if let Err(fault) = put_number_line(writer, b"telegram", len as u64) {
        return Err(fault);
    }
    if let Err(fault) = put_fields(writer, header) {
        return Err(fault);
    }
    put_packets(writer, packets)
}

// Writes a telegram.
fn put_telegram<W: Write>(
    writer: &mut Counted<W>,
    len: usize,
    telegram: &TelegramFields,
) -> Result<(), WriteFault>
    ensures { Writes W.contents writer.old writer.new result (telegram_text len telegram.now) }
{
    let header = telegram.header.as_slice();
    let packets = telegram.packets.as_slice();
    if let Err(fault) = put_front(writer, len, header, packets) {
        return Err(fault);
    }
    if let Err(fault) = put(writer, b"end\n") {
        return Err(fault);
    }
    put_bits(writer, b"padding", &telegram.padding)
}

// Writes the packet that a fault is in, up to it.
fn put_last<W: Write>(writer: &mut Counted<W>, fields: &[Placed]) -> Result<(), WriteFault>
    ensures { Writes W.contents writer.old writer.new result (last_text fields.now) }
{
    if fields.is_empty() {
        return Ok(());
    }
    if let Err(fault) = put(writer, b"packet\n") {
        return Err(fault);
    }
    put_fields(writer, fields)
}

// Writes a telegram up to its fault.
fn put_begun<W: Write>(writer: &mut Counted<W>, begun: &Begun) -> Result<(), WriteFault>
    ensures { Writes W.contents writer.old writer.new result (begun_text begun.now) }
{
    let header = begun.header.as_slice();
    let packets = begun.packets.as_slice();
    let last = begun.last.as_slice();
    if let Err(fault) = put_front(writer, begun.len, header, packets) {
        return Err(fault);
    }
    if let Err(fault) = put_last(writer, last) {
        return Err(fault);
    }
    put_fault(writer, &begun.fault)
}

// Writes a packet by itself.
fn put_alone<W: Write>(
    writer: &mut Counted<W>,
    version: u32,
    packet: &PacketFields,
) -> Result<(), WriteFault>
    ensures { Writes W.contents writer.old writer.new result (alone_line version ++ in_packet packet.now) }
{
    if let Err(fault) = put_number_line(writer, b"packet", u64::from(version)) {
        return Err(fault);
    }
    put_packet_fields(writer, packet)
}

// Writes a packet by itself up to its fault.
fn put_alone_begun<W: Write>(
    writer: &mut Counted<W>,
    version: u32,
    fields: &[Placed],
    fault: &DigitFault,
) -> Result<(), WriteFault>
    ensures { Writes W.contents writer.old writer.new result (alone_line version ++ (fields_text fields.now ++ fault_text fault.now)) }
{
    if let Err(fault) = put_number_line(writer, b"packet", u64::from(version)) {
        return Err(fault);
    }
    if let Err(fault) = put_fields(writer, fields) {
        return Err(fault);
    }
    put_fault(writer, fault)
}

// The word for what was due.
fn due_name(due: FaultDue) -> &'static str
    ensures { result.now ≡ due_text due }
{
    match due {
        FaultDue::Digit => "digit",
        FaultDue::Length => "length",
        FaultDue::Zero => "zero",
        FaultDue::Field(var) => var.name(),
        FaultDue::End => "end",
        FaultDue::Another => "another",
    }
}

// Writes the line of a fault.
fn put_fault<W: Write>(writer: &mut Counted<W>, fault: &DigitFault) -> Result<(), WriteFault>
    ensures { Writes W.contents writer.old writer.new result (fault_text fault.now) }
{
    let mut number = Buffer::new();
    let mut packet = Buffer::new();
    let mut bit = Buffer::new();
    let place = match fault.packet {
        Some(place) => packet.format(place).as_bytes(),
        None => b"-",
    };
    put_texts(
        writer,
        &[
            b"fault ",
            number.format(fault.refusal.number()).as_bytes(),
            b" ",
            fault.refusal.name().as_bytes(),
            b" ",
            place,
            b" ",
            bit.format(fault.bit).as_bytes(),
            b" ",
            due_name(fault.due).as_bytes(),
            b"\n",
        ],
    )
}
