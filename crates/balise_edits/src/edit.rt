//! An edit as a session holds it, with an inserted packet in a box, and its copy.

ghost use Rattle.std.specs.Prelude.{◌≡◌, IfOk, IsOkUnless};
ghost use Rattle.balise_edits.specs.Edits.{edit_of};

use crate::copying::{copy_placed_packet, copy_telegrams};
use balise_plan::{Bits, Packet};
use balise_rules::{Refusal, TaggedEdit};

/// An edit of a plan. A packet that is put in has a place of its own, so that other edits take less memory.
pub type Edit = TaggedEdit<Box<Packet>, Vec<Bits>>;

/// A copy of an edit.
pub fn copy_edit(edit: &Edit) -> Result<Edit, Refusal>
    ensures ok { IfOk result (λ copied. edit_of copied ≡ edit_of edit.now) }
    ensures fault { IsOkUnless result Refusal.OutOfMemory }
{
    edit.as_ref().try_map(
        |_, _, packet| copy_placed_packet(packet),
        |telegrams| copy_telegrams(telegrams),
    )
}
