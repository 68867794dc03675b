//! A telegram as JSON.

ghost use Rattle.std.specs.Prelude.{◌≡◌, map, OnOk};
ghost use Rattle.serde_json.specs.Data.{array};
ghost use Rattle.serde_json.specs.Events.{SendsValue};
ghost use Rattle.serde_json.specs.View.{items_of};
ghost use Rattle.balise_rules.specs.Packet.{value};
ghost use Rattle.balise_rules.specs.Telegram.{version_of};
ghost use Rattle.balise_view.specs.Given.{packet_data, telegram_data};

use crate::packet::DescribedPacket;
use balise_plan::{Telegram, is_known};
use balise_rules::Var;
use serde::{Described, Serialize, Serializer};

/// The telegram of a balise, to be written.
#[derive(Clone, Copy)]
pub(crate) struct DescribedTelegram<'a>(pub(crate) &'a Telegram);

impl Described for DescribedTelegram<'_> {
    ghost writes = { λ t. SendsValue (telegram_data t.0.now) };
}

impl Serialize for DescribedTelegram<'_> {
    fn serialize<S: Serializer>(&self, out: &mut S) -> Result<(), S::Error> {
        out.begin_map(Some(7))?;
        out.key("bits")?;
        self.0.width().serialize(out)?;
        out.key("m_dup")?;
        head_value(self.0, Var::MDup).serialize(out)?;
        out.key("m_mcount")?;
        head_value(self.0, Var::MMcount).serialize(out)?;
        out.key("m_version")?;
        self.0.version().serialize(out)?;
        out.key("packets")?;
        send_packets(self.0, out)?;
        out.key("q_link")?;
        head_value(self.0, Var::QLink).serialize(out)?;
        out.key("used")?;
        self.0.used().serialize(out)?;
        out.end_map()
    }
}

// Its packets in order.
fn send_packets<S: Serializer>(telegram: &Telegram, out: &mut S) -> Result<(), S::Error>
    ensures { OnOk result (SendsValue (array (items_of (map (λ p. packet_data (version_of telegram.now) p.1) telegram.now.packets))) (S.written out.old) (S.written out.new)) }
{
    let version = telegram.version();
    out.begin_seq(Some(telegram.count()))?;
    for (_, packet) in telegram.packets() {
        let Ok(fields) = packet.fields() else {
            return Err(out.custom("no memory"));
        };
        let described = DescribedPacket {
            fields: fields.as_slice(),
            known: is_known(version, packet.number()),
        };
        described.serialize(out)?;
    }
    out.end_seq()
}

// The value of a variable of the header.
fn head_value(telegram: &Telegram, var: Var) -> u32
    ensures { result ≡ value var 0 telegram.now.head }
{
    telegram.head(var).unwrap_or(0)
}
