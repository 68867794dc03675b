//! From a command by addresses to an edit by tags: the order of a command's refusals, from its address to its digits.

ghost use Rattle.std.specs.Prelude.{◌≡◌, ◌≢◌, IfErr, IfOk, Some, None, Ok, Err, ok_or, slice_get};
ghost use Rattle.balise_edits.specs.Edits.{edit_of};
ghost use Rattle.balise_commands.specs.Commands.{command_of};
ghost use Rattle.balise_rules.specs.Addresses as rules;
ghost use Rattle.balise_rules.specs.Addresses.{anchor_at, find_group, find_packet, find_telegram, AskInsert, AskMove};
ghost use Rattle.balise_rules.specs.Packet.{Packet};
ghost use Rattle.balise_rules.specs.Plan.{Group, IsSound};
ghost use Rattle.balise_rules.specs.Tagged.{Distinct};
ghost use Rattle.balise_rules.specs.Tags.{same_tag};
ghost use Rattle.balise_rules.specs.Telegram.{Telegram};

use balise_edits::{Bits, Command, Edit, Plan, Telegram, packet_in};
use balise_rules::{Address, Id, Place, Refusal, Tag};

// What stands directly before the new place of a packet: nothing before the first.
fn packet_before(telegram: &Telegram, at: usize) -> Result<Option<Tag>, Refusal>
    ensures { result ≡ ok_or (anchor_at at telegram.now.packets) Refusal.NoSuchPacket }
{
    if at == 0 {
        return Ok(None);
    }
    match telegram.at(at - 1) {
        Some((p, _)) => Ok(Some(p)),
        None => Err(Refusal::NoSuchPacket),
    }
}

// What stands directly before the new place of a group: nothing before the first.
fn group_before(plan: &Plan, at: usize) -> Result<Option<Tag>, Refusal>
    ensures { result ≡ ok_or (anchor_at at plan.now.groups) Refusal.NoSuchGroup }
{
    if at == 0 {
        return Ok(None);
    }
    match plan.at(at - 1) {
        Some((g, _)) => Ok(Some(g)),
        None => Err(Refusal::NoSuchGroup),
    }
}

/// The edit that a command asks for on a plan. Refused by the first fault of its address and then of its digits, or as
/// `OutOfMemory`.
pub(crate) fn edit_asked(command: Command, plan: &Plan) -> Result<Edit, Refusal>
    ensures ok { IfOk result (λ edit. rules.edit_of (command_of command) plan.now.groups ≡ Ok (edit_of edit)) }
    ensures fault { IfErr result (λ r. r ≢ Refusal.OutOfMemory → rules.edit_of (command_of command) plan.now.groups ≡ Err r) }
{
    match command {
        Command::SetVar {
            id,
            pig,
            pkt,
            var,
            k,
            value,
        } => {
            let (g, t, _, p, _) = plan.find_packet(id, pig, pkt)?;
            Ok(Edit::SetVar {
                g,
                t,
                p,
                var,
                k,
                value,
            })
        }
        Command::SetHead {
            id,
            pig,
            var,
            value,
        } => {
            let (g, t, _) = plan.find_telegram(id, pig)?;
            Ok(Edit::SetHead { g, t, var, value })
        }
        Command::InsertPacket {
            id,
            pig,
            at,
            digits,
        } => insert(plan, id, pig, at, &digits),
        Command::DeletePacket { id, pig, pkt } => {
            let (g, t, _, p, _) = plan.find_packet(id, pig, pkt)?;
            Ok(Edit::DeletePacket { g, t, p })
        }
        Command::MovePacket { id, pig, pkt, at } => shift(plan, id, pig, pkt, at),
        Command::AddGroup { at, telegrams } => {
            let after = group_before(plan, at as usize)?;
            Ok(Edit::AddGroup { after, telegrams })
        }
        Command::DropGroup { id } => {
            let g = plan.find_group(id)?;
            Ok(Edit::DropGroup { g })
        }
        Command::Renumber { id, number } => {
            let g = plan.find_group(id)?;
            Ok(Edit::Renumber { g, number })
        }
        Command::TurnGroup { id } => {
            let g = plan.find_group(id)?;
            Ok(Edit::TurnGroup { g })
        }
    }
}

// A packet put in, by its place and its digits.
fn insert(plan: &Plan, id: Id, pig: u32, at: u32, digits: &Bits) -> Result<Edit, Refusal>
    ensures ok { IfOk result (λ edit. rules.edit_of (AskInsert id pig at digits.now) plan.now.groups ≡ Ok (edit_of edit)) }
    ensures fault { IfErr result (λ r. r ≢ Refusal.OutOfMemory → rules.edit_of (AskInsert id pig at digits.now) plan.now.groups ≡ Err r) }
{
    let (g, t, telegram) = plan.find_telegram(id, pig)?;
    let after = packet_before(telegram, at as usize)?;
    let packet = packet_in(digits, telegram.version())?;
    let packet = Box::new(plan.allocator(), packet)?;
    Ok(Edit::InsertPacket {
        g,
        t,
        after,
        packet,
    })
}

// A packet moved, to a place that is counted without it.
fn shift(plan: &Plan, id: Id, pig: u32, pkt: u32, at: u32) -> Result<Edit, Refusal>
    ensures ok { IfOk result (λ edit. rules.edit_of (AskMove id pig pkt at) plan.now.groups ≡ Ok (edit_of edit)) }
    ensures fault { IfErr result (λ r. rules.edit_of (AskMove id pig pkt at) plan.now.groups ≡ Err r) }
{
    let (g, t, telegram, p, _packet) = plan.find_packet(id, pig, pkt)?;
    let place = at as usize;
    let with_it = if at <= pkt { place } else { place + 1 };
    let after = packet_before(telegram, with_it)?;
    Ok(Edit::MovePacket { g, t, p, after })
}
