//! A packet as JSON.

ghost use Rattle.std.specs.Prelude.{map, OnOk};
ghost use Rattle.serde_json.specs.Data.{array};
ghost use Rattle.serde_json.specs.Events.{SendsValue};
ghost use Rattle.serde_json.specs.View.{items_of};
ghost use Rattle.balise_layout.specs.Collected.{all_keyed};
ghost use Rattle.balise_view.specs.Given.{field_data, fields_data};

use balise_rules::Var;
use serde::{Described, Serialize, Serializer};

/// A packet, to be written.
#[derive(Clone, Copy)]
pub(crate) struct DescribedPacket<'a> {
    /// Its fields in bit order, of one that isn't known the first three: variable, occurrence and value.
    pub(crate) fields: &'a [(Var, u32, u32)],
    /// Whether a telegram of this version is read with its fields.
    pub(crate) known: bool,
}

impl Described for DescribedPacket<'_> {
    ghost writes = { λ p. SendsValue (fields_data p.known (all_keyed p.fields.now)) };
}

impl Serialize for DescribedPacket<'_> {
    fn serialize<S: Serializer>(&self, out: &mut S) -> Result<(), S::Error> {
        out.begin_map(Some(2))?;
        out.key("fields")?;
        send_fields(self.fields, out)?;
        out.key("known")?;
        self.known.serialize(out)?;
        out.end_map()
    }
}

// Fields one after another.
fn send_fields<S: Serializer>(fields: &[(Var, u32, u32)], out: &mut S) -> Result<(), S::Error>
    ensures { OnOk result (SendsValue (array (items_of (map field_data (all_keyed fields.now)))) (S.written out.old) (S.written out.new)) }
{
    out.begin_seq(Some(fields.len()))?;
    for (var, _, value) in fields {
        DescribedField(*var, *value).serialize(out)?;
    }
    out.end_seq()
}

/// A field, to be written: its variable and its value.
#[derive(Clone, Copy)]
struct DescribedField(Var, u32);

impl Described for DescribedField {
    ghost writes = { λ f. SendsValue (field_data ((f.0, 0), f.1)) };
}

impl Serialize for DescribedField {
    fn serialize<S: Serializer>(&self, out: &mut S) -> Result<(), S::Error> {
        (self.0.name(), self.1).serialize(out)
    }
}
