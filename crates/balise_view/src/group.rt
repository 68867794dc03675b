//! A group as one line of JSON.

ghost use Rattle.std.specs.Prelude.{◌≡◌, IfOk, map, OnOk, string_bytes};
ghost use Rattle.serde_json.specs.Data.{array};
ghost use Rattle.serde_json.specs.Events.{SendsValue};
ghost use Rattle.serde_json.specs.View.{items_of};
ghost use Rattle.balise_view.specs.Given.{group_data, telegram_data};
ghost use Rattle.balise_view.specs.View.{group_text};

use crate::telegram::DescribedTelegram;
use balise_plan::Group;
use serde::{Described, Serialize, Serializer};
use std::alloc::{AllocError, Global};

/// The line of a group, without its end.
///
/// An error means that an allocation failed.
pub fn group_line(alloc: Global, group: &Group) -> Result<String, AllocError>
    ensures { IfOk result (λ line. string_bytes line ≡ group_text group.now) }
{
    match serde_json::to_string(alloc, &DescribedGroup(group)) {
        Ok(line) => Ok(line),
        Err(_) => Err(AllocError),
    }
}

/// A group, to be written.
#[derive(Clone, Copy)]
struct DescribedGroup<'a>(&'a Group);

impl Described for DescribedGroup<'_> {
    ghost writes = { λ g. SendsValue (group_data g.0.now) };
}

impl Serialize for DescribedGroup<'_> {
    fn serialize<S: Serializer>(&self, out: &mut S) -> Result<(), S::Error> {
        let id = self.0.identity();
        out.begin_map(Some(3))?;
        out.key("country")?;
        id.country.serialize(out)?;
        out.key("number")?;
        id.number.serialize(out)?;
        out.key("telegrams")?;
        send_telegrams(self.0, out)?;
        out.end_map()
    }
}

// Its telegrams in the order of N_PIG.
fn send_telegrams<S: Serializer>(group: &Group, out: &mut S) -> Result<(), S::Error>
    ensures { OnOk result (SendsValue (array (items_of (map (λ y. telegram_data y.1) group.now))) (S.written out.old) (S.written out.new)) }
{
    let count = group.count();
    out.begin_seq(Some(count))?;
    for pig in 0..count {
        let Some((_, telegram)) = group.at(pig) else {
            break;
        };
        DescribedTelegram(telegram).serialize(out)?;
    }
    out.end_seq()
}
