//! What the tables go over: the bits of a packet, or other things that stand for its fields.

ghost use Rattle.std.specs.Prelude.{◌≡◌, Bool, Err};
ghost use Rattle.balise_rules.specs.Forms.{done, never, shut};
ghost use Rattle.balise_layout.specs.Reading.{Ends, Takes, Walking};

use crate::fault::LayoutFault;
use balise_rules::Var;

/// Reads the fields of a packet, one after another. The tables state which field is due (SUBSET-026, 7.4.2), and it
/// returns the value that stands there.
pub trait Walk: Sized {
    /// Whether it takes memory, and so may run out of it.
    ghost allocates: { Bool };

    /// What going over a form makes of it.
    ghost run: { Walking Self };

    /// Goes over the field that is due, and returns its value.
    fn take(&mut self, var: Var) -> Result<u32, LayoutFault>
        ensures { Takes allocates run var self.old result self.new };

    /// Ends where no field is due and nothing may be left.
    fn end(&mut self) -> Result<(), LayoutFault>
        ensures { Ends allocates run shut self.old result self.new };

    /// Ends where whatever is left belongs to the packet.
    fn leave(&mut self) -> Result<(), LayoutFault>
        ensures { Ends allocates run done self.old result self.new };

    /// The fault where the last value is spare, so that no field is due after it.
    fn spare(&mut self) -> LayoutFault
        ensures { run never self.old ≡ Err (result, self.new) };
}
