//! The bits of packets as they are given.

ghost use Rattle.std.specs.Prelude.{◌≡◌, ◌≤◌, ℕ, length, IfErr, IfOk, OnOk};
ghost use Rattle.balise_codec.specs.declared.misfit.Misfit.{Misfit};
ghost use Rattle.balise_items.specs.Packets.{packet_of, packets_of, IsBadPacket};
ghost use Rattle.balise_items.specs.Reasons.{line_of, Adds, Stops};

use crate::reason::{Bad, Reason, Stop, reason_of};
use crate::section::Section;
use balise_bits::Bits;
use balise_codec::{SpellFault, spell_given};

/// The line of a section's value, by its place, or the line after them.
pub(crate) fn line_of(section: &Section, place: usize) -> u64
    requires { place ≤ length section.now.values }
    ensures { result ≡ line_of section.now place }
{
    let values = section.values();
    // The length of a list is far below 2 ^ 64, so the sum doesn't overflow.
    let _len = values.len();
    u64::from(section.line()) + 1 + place as u64
}

// Where a packet is refused, and why.
fn bad_packet(section: &Section, fault: SpellFault) -> Stop
    requires { (at : ℕ) (m : Misfit) → fault ≡ SpellFault.Misfit at m → at ≤ length section.now.values }
    ensures { IsBadPacket section.now fault result }
{
    let line = u64::from(section.line());
    match fault {
        SpellFault::Misfit(place, misfit) => Stop::Bad(Bad {
            line: line_of(section, place),
            reason: reason_of(misfit),
        }),
        SpellFault::TooLong => Stop::Bad(Bad {
            line,
            reason: Reason::TooLong,
        }),
        SpellFault::BitsLeft => Stop::Bad(Bad {
            line: line_of(section, section.values().len()),
            reason: Reason::BitsLeft,
        }),
        SpellFault::OtherLength(width) => Stop::Bad(Bad {
            line,
            reason: Reason::OtherLength(width),
        }),
        SpellFault::OutOfMemory => Stop::OutOfMemory,
    }
}

/// Adds the bits of a packet of this M_VERSION.
pub(crate) fn add_packet(bits: &mut Bits, version: u32, section: &Section) -> Result<(), Stop>
    ensures ok { OnOk result (Adds bits.old bits.new (packet_of version section.now)) }
    ensures stop { IfErr result (Stops (packet_of version section.now)) }
{
    let alloc = bits.allocator();
    let packet = match spell_given(alloc, version, section.values(), section.rest()) {
        Ok(packet) => packet,
        Err(fault) => return Err(bad_packet(section, fault)),
    };
    packet.write(bits)?;
    Ok(())
}

/// Adds the bits of packets of this M_VERSION, one after another.
pub(crate) fn add_packets(bits: &mut Bits, version: u32, sections: &[Section]) -> Result<(), Stop>
    ensures ok { OnOk result (Adds bits.old bits.new (packets_of version sections.now)) }
    ensures stop { IfErr result (Stops (packets_of version sections.now)) }
{
    for section in sections {
        if let Err(stop) = add_packet(bits, version, section) {
            return Err(stop);
        }
    }
    Ok(())
}
