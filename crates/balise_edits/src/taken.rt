//! What edits put in and take out, as a note has it.

ghost use Rattle.std.specs.Prelude.{◌≡◌, IfOk, IsOkUnless, None, Some};

use crate::copying::copy_packet;
use balise_plan::{Group, Packet};
use balise_rules::{Id, Refusal, Tag};

/// A group that was put in: its identity, and those that it names, as a list or the only one.
#[derive(Drop)]
pub(crate) struct AddedGroup<N> {
    pub(crate) own: Id,
    pub(crate) names: N,
}

/// A packet that was taken out of the plan, while it isn't there, the identities that it names, as a list or none, and
/// its old next neighbour.
#[derive(Drop)]
pub(crate) struct TakenPacket<N> {
    pub(crate) before: Option<Tag>,
    pub(crate) names: N,
    pub(crate) packet: Option<Packet>,
}

/// A group that was taken out of the plan, while it isn't there, its identity, those that it names, as a list or the only
/// one, and its old next neighbour.
#[derive(Drop)]
pub(crate) struct TakenGroup<N> {
    pub(crate) before: Option<Tag>,
    pub(crate) own: Id,
    pub(crate) names: N,
    pub(crate) group: Option<Group>,
}

impl<N> TakenPacket<N> {
    /// A packet that isn't taken out yet.
    pub(crate) fn awaited(names: N) -> TakenPacket<N>
        ensures { result ≡ record { before = None; names = names; packet = None } }
    {
        TakenPacket {
            before: None,
            names,
            packet: None,
        }
    }

    /// Has the packet, and its old next neighbour.
    pub(crate) fn keep(&mut self, packet: Packet, next: Option<Tag>)
        ensures { self.new ≡ record self.old { before = next; packet = Some packet } }
    {
        self.before = next;
        self.packet = Some(packet);
    }
}

impl<N> TakenGroup<N> {
    /// A group that isn't taken out yet.
    pub(crate) fn awaited(own: Id, names: N) -> TakenGroup<N>
        ensures { result ≡ record { before = None; own = own; names = names; group = None } }
    {
        TakenGroup {
            before: None,
            own,
            names,
            group: None,
        }
    }

    /// Has the group, and its old next neighbour.
    pub(crate) fn keep(&mut self, group: Group, next: Option<Tag>)
        ensures { self.new ≡ record self.old { before = next; group = Some group } }
    {
        self.before = next;
        self.group = Some(group);
    }
}

/// A copy of a group that was put in, with these names.
pub(crate) fn copy_group_added<N: Drop>(
    added: &Box<AddedGroup<N>>,
    names: N,
) -> Result<Box<AddedGroup<N>>, Refusal>
    ensures own { IfOk result (λ copied. copied.value.own ≡ added.now.value.own) }
    ensures names { IfOk result (λ copied. copied.value.names ≡ names) }
    ensures fault { IsOkUnless result Refusal.OutOfMemory }
{
    let own = added.own;
    Ok(Box::new(*Box::allocator(added), AddedGroup { own, names })?)
}

/// A copy of a packet that was taken out, with these names.
pub(crate) fn copy_packet_taken<N: Drop>(
    taken: &Box<TakenPacket<N>>,
    names: N,
) -> Result<Box<TakenPacket<N>>, Refusal>
    ensures before { IfOk result (λ copied. copied.value.before ≡ taken.now.value.before) }
    ensures names { IfOk result (λ copied. copied.value.names ≡ names) }
    ensures packet { IfOk result (λ copied. copied.value.packet ≡ taken.now.value.packet) }
    ensures fault { IsOkUnless result Refusal.OutOfMemory }
{
    let before = taken.before;
    let packet = copy_packet_or_none(&taken.packet)?;
    let copied = TakenPacket {
        before,
        names,
        packet,
    };
    Ok(Box::new(*Box::allocator(taken), copied)?)
}

/// A copy of a group that was taken out, with these names.
pub(crate) fn copy_group_taken<N: Drop>(
    taken: &Box<TakenGroup<N>>,
    names: N,
) -> Result<Box<TakenGroup<N>>, Refusal>
    ensures before { IfOk result (λ copied. copied.value.before ≡ taken.now.value.before) }
    ensures own { IfOk result (λ copied. copied.value.own ≡ taken.now.value.own) }
    ensures names { IfOk result (λ copied. copied.value.names ≡ names) }
    ensures group { IfOk result (λ copied. copied.value.group ≡ taken.now.value.group) }
    ensures fault { IsOkUnless result Refusal.OutOfMemory }
{
    let (before, own) = (taken.before, taken.own);
    let group = copy_group_or_none(&taken.group)?;
    let copied = TakenGroup {
        before,
        own,
        names,
        group,
    };
    Ok(Box::new(*Box::allocator(taken), copied)?)
}

// A copy of a packet, if there is one.
fn copy_packet_or_none(packet: &Option<Packet>) -> Result<Option<Packet>, Refusal>
    ensures ok { IfOk result (λ copied. copied ≡ packet.now) }
    ensures fault { IsOkUnless result Refusal.OutOfMemory }
{
    let Some(packet) = packet else {
        return Ok(None);
    };
    Ok(Some(copy_packet(packet)?))
}

// A copy of a group, if there is one.
fn copy_group_or_none(group: &Option<Group>) -> Result<Option<Group>, Refusal>
    ensures ok { IfOk result (λ copied. copied ≡ group.now) }
    ensures fault { IsOkUnless result Refusal.OutOfMemory }
{
    let Some(group) = group else {
        return Ok(None);
    };
    Ok(Some(group.copy()?))
}
