//! The distances and the unknown packets of a group.

ghost use Rattle.std.specs.Prelude.{◌≡◌, ◌++◌, IsOkUnless, OnOk, reverse};
ghost use Rattle.balise_rules.specs.Plan.{identity_of};
ghost use Rattle.balise_rules.specs.Review.{lines_at, looked_in};
ghost use Rattle.balise_rules.specs.Telegram.{version_of};
ghost use Rattle.balise_rules.specs.Variables.{is_distance};
ghost use Rattle.balise_layout.specs.Collected.{all_keyed};
ghost use Rattle.balise_review.specs.Reviews.{distances, packet_lines, telegram_lines};

use balise_plan::{Group, PacketRef, Telegram, is_known};
use balise_rules::{Id, Refusal, ReviewLine, Reviewed, Var};

/// Lists those of a group as it will be once turned, its telegrams from the last to the first.
pub(crate) fn add_distances(found: &mut Vec<ReviewLine>, group: &Group) -> Result<(), Refusal>
    ensures ok { OnOk result (found.new.items ≡ found.old.items ++ telegram_lines (identity_of group.now) 0 (reverse group.now)) }
    ensures fault { IsOkUnless result Refusal.OutOfMemory }
{
    let count = group.count();
    let id = group.identity();
    for pig in 0..count {
        let Some((_, telegram)) = group.at(count - 1 - pig) else {
            return Ok(());
        };
        let Ok(place) = u32::try_from(pig) else {
            return Err(Refusal::OutOfMemory);
        };
        add_telegram(found, id, place, telegram)?;
    }
    Ok(())
}

// Those of a telegram's packets.
fn add_telegram(
    found: &mut Vec<ReviewLine>,
    id: Id,
    pig: u32,
    telegram: &Telegram,
) -> Result<(), Refusal>
    ensures ok { OnOk result (found.new.items ≡ found.old.items ++ packet_lines id (version_of telegram.now) pig 0 telegram.now.packets) }
    ensures fault { IsOkUnless result Refusal.OutOfMemory }
{
    let version = telegram.version();
    // The number of packets is a `usize`, so counting them doesn't overflow.
    let _count = telegram.count();
    let mut pkt: usize = 0;
    for (_, packet) in telegram.packets() {
        let Ok(place) = u32::try_from(pkt) else {
            return Err(Refusal::OutOfMemory);
        };
        add_packet(found, id, pig, place, version, &packet)?;
        pkt += 1;
    }
    Ok(())
}

// Those of a packet, or that it isn't known.
fn add_packet(
    found: &mut Vec<ReviewLine>,
    id: Id,
    pig: u32,
    pkt: u32,
    version: u32,
    packet: &PacketRef<'_>,
) -> Result<(), Refusal>
    ensures ok { OnOk result (found.new.items ≡ found.old.items ++ lines_at id pig pkt (looked_in version packet.now)) }
    ensures fault { IsOkUnless result Refusal.OutOfMemory }
{
    let number = packet.number();
    if !is_known(version, number) {
        let what = Reviewed::Opaque(number);
        found.push(ReviewLine { id, pig, pkt, what })?;
        return Ok(());
    }
    let Ok(fields) = packet.fields() else {
        return Err(Refusal::OutOfMemory);
    };
    add_fields(found, id, pig, pkt, &fields)
}

// The distances among the fields of a packet.
fn add_fields(
    found: &mut Vec<ReviewLine>,
    id: Id,
    pig: u32,
    pkt: u32,
    fields: &Vec<(Var, u32, u32)>,
) -> Result<(), Refusal>
    ensures ok { OnOk result (found.new.items ≡ found.old.items ++ lines_at id pig pkt (distances (all_keyed fields.now.items))) }
    ensures fault { IsOkUnless result Refusal.OutOfMemory }
{
    for i in 0..fields.len() {
        let (var, k, value) = fields[i];
        if !is_distance(var) {
            continue;
        }
        let what = Reviewed::Field(var, k, value);
        found.push(ReviewLine { id, pig, pkt, what })?;
    }
    Ok(())
}

// Whether it is a distance: its name begins with D_.
#[tactic(auto, unfolding(balise_rules::specs::Variables::is_distance))]
fn is_distance(var: Var) -> bool
    ensures { result ≡ is_distance var }
{
    match var {
        Var::DLink | Var::DGradient | Var::DStatic | Var::DLeveltr | Var::DTsr => true,
        _ => false,
    }
}
