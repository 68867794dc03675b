//! A packet of a telegram.

ghost use Rattle.std.specs.Prelude.{◌≡◌, ◌≢◌, ◌↔◌, ◌++◌, ◌+◌, ◌<◌, ◌≤◌, ◌^◌, ℕ, false, Some, drop, length, IfErr, IfOk, IsOkUnless, IsTrue, OnErr, OnOk};
ghost use Rattle.balise_rules.specs.declared.variable.Var.TheVariants.{NidPacket, QDir};
ghost use Rattle.balise_rules.specs.Variables.{steers, width_of};
ghost use Rattle.balise_rules.specs.Bits.{put_at};
ghost use Rattle.balise_rules.specs.Forms.{Form};
ghost use Rattle.balise_rules.specs.Packet.{bits_of, field_of, value, width, IsSpelt};
ghost use Rattle.balise_rules.specs.Names.{links_of};
ghost use Rattle.balise_layout.specs.Collected.{all_keyed};
ghost use Rattle.balise_layout.specs.First.{LiesAt, ReadsFirst, StandsAt};
ghost use Rattle.balise_layout.specs.Held.{before, held, with_field, Holds, IsHeld};
ghost use Rattle.balise_layout.specs.Naming.{StandsNamed};
ghost use Rattle.balise_layout.specs.Layouts.{next_of};
ghost use Rattle.balise_layout.specs.Kinds.{number_of, Finds};
ghost use Rattle.balise_layout.specs.Setting.{flipped, renamed, turned, Sets};

use crate::bounds::bounds;
use crate::elements::Elements;
use crate::fault::LayoutFault;
use crate::few::FindFew;
use crate::kind::PacketKind;
use crate::named::Named;
use crate::packet_ref::PacketRef;
use crate::visit::Nothing;
use crate::walker::Walker;
use balise_bits::Bits;
use balise_rules::{Id, Var};
use std::marker::Model;

/// A packet: its fields in bit order and, where it isn't known, the rest of its bits.
#[derive(Drop)]
pub struct Packet {
    kind: PacketKind,
    packed: Bits,
}

impl Model for Packet {
    ghost use Rattle.balise_rules.specs.Packet as rules;
    ghost use Rattle.balise_layout.specs.Held.{held, IsHeld};
    ghost use Rattle.balise_layout.specs.Layouts.{next_of};
    ghost use Rattle.balise_layout.specs.Kinds.{number_of};

    ghost Value = { rules.Packet };

    ghost view = { λ p. held (next_of (number_of p.kind)) p.packed };

    ghost invariant = { λ p. IsHeld (next_of (number_of p.kind)) p.packed };
}

impl Packet {
    // The packet that some bits are.
    pub(crate) fn of_bits(kind: PacketKind, packed: Bits) -> Packet
        requires { IsHeld (next_of (number_of kind)) packed }
        ensures { result ≡ held (next_of (number_of kind)) packed }
    {
        Packet { kind, packed }
    }

    /// Lends the whole packet. Takes no memory.
    pub fn lend(&self) -> PacketRef<'_>
        ensures { result ≡ self.now }
    {
        PacketRef::whole(self.kind, &self.packed)
    }

    /// Reads the packet at the place `at` of a telegram of this M_VERSION, and returns the place after it too.
    /// Nothing is read after the length in L_PACKET.
    pub fn read(bits: &Bits, at: usize, version: u32) -> Result<(Packet, usize), LayoutFault>
        ensures first { ReadsFirst version bits.now at result }
        ensures lies { LiesAt version bits.now at result }
    {
        let (kind, end) = Packet::find(bits, at, version)?;
        let packed = bits.slice(at, end - at)?;
        Ok((Packet { kind, packed }, end))
    }

    /// The place after the packet that `read` would read, or the first fault. Takes no memory.
    #[inline(always)]
    pub fn check(bits: &Bits, at: usize, version: u32) -> Result<usize, LayoutFault>
        ensures stands { StandsAt version bits.now at result }
        ensures fault { IfErr result (λ e. e ≢ LayoutFault.OutOfMemory) }
    {
        let (_, end) = Packet::find(bits, at, version)?;
        Ok(end)
    }

    /// The place after the packet that `read` would read, and what it names in a telegram of this country, in one walk over
    /// its fields; or the first fault. Takes no memory.
    #[inline(always)]
    pub fn check_named(
        bits: &Bits,
        at: usize,
        version: u32,
        country: u32,
    ) -> Result<(usize, Named), LayoutFault>
        ensures stands { StandsNamed version country bits.now at result }
        ensures fault { IfErr result (λ e. e ≢ LayoutFault.OutOfMemory) }
    {
        let (number, end) = bounds(bits, at)?;
        let kind = PacketKind::of(version, number);
        if kind.has_elements() {
            let mut walker = Walker::new(FindFew::new(country), bits, at + 23, end);
            kind.walk_rest(&mut walker)?;
            return Ok((end, walker.into_visitor().into_named()));
        }
        let mut walker = Walker::new(Nothing, bits, at + 23, end);
        kind.walk_rest(&mut walker)?;
        Ok((end, Named::Nothing))
    }

    // The kind of the packet at a place and the place after it, or the first fault. Takes no memory.
    #[inline(always)]
    fn find(bits: &Bits, at: usize, version: u32) -> Result<(PacketKind, usize), LayoutFault>
        ensures found { Finds version bits.now at result }
        ensures fault { IfErr result (λ e. e ≢ LayoutFault.OutOfMemory) }
    {
        let (number, end) = bounds(bits, at)?;
        let kind = PacketKind::of(version, number);
        // `bounds` has read the first three fields.
        let mut walker = Walker::new(Nothing, bits, at + 23, end);
        kind.walk_rest(&mut walker)?;
        Ok((kind, end))
    }

    /// What kind of packet it is.
    pub fn kind(&self) -> PacketKind
        ensures { Holds (next_of (number_of result)) (bits_of self.now) self.now }
    {
        self.lend().kind()
    }

    /// Adds the packet's bits at the end of others. Those stay where memory runs out.
    pub fn write(&self, out: &mut Bits) -> Result<(), LayoutFault>
        ensures ok { OnOk result (out.new ≡ out.old ++ bits_of self.now) }
        ensures err { OnErr result (out.new ≡ out.old) }
        ensures fault { IsOkUnless result LayoutFault.OutOfMemory }
    {
        out.append(self.bits())?;
        Ok(())
    }

    /// Puts the packet's bits over those from the place `at` on. All other bits stay. Takes no memory.
    pub fn put_over(&self, out: &mut Bits, at: usize)
        requires { at + width self.now ≤ length out.old }
        ensures { out.new ≡ put_at at (bits_of self.now) out.old }
    {
        let bits = self.bits();
        out.put_part(at, bits, 0, bits.len());
    }

    /// How many bits it has.
    pub fn width(&self) -> usize
        ensures { result ≡ width self.now }
    {
        self.lend().width()
    }

    /// NID_PACKET.
    pub fn number(&self) -> u32
        ensures { result ≡ value NidPacket 0 self.now.fields }
    {
        self.lend().number()
    }

    /// Q_DIR.
    pub fn q_dir(&self) -> u32
        ensures { result ≡ value QDir 0 self.now.fields }
    {
        self.lend().q_dir()
    }

    /// Whether a telegram of this M_VERSION may hold it.
    pub fn is_spelt(&self, version: u32) -> bool
        ensures { IsTrue result ↔ IsSpelt version self.now }
    {
        self.lend().is_spelt(version)
    }

    /// Its fields in bit order: variable, occurrence from 0, and value.
    pub fn fields(&self) -> Result<Vec<(Var, u32, u32)>, LayoutFault>
        ensures ok { IfOk result (λ fields. all_keyed fields.items ≡ self.now.fields) }
        ensures fault { IsOkUnless result LayoutFault.OutOfMemory }
    {
        self.lend().fields()
    }

    /// The identities of its elements, one each in order, with number 16383 kept, in a telegram of this country.
    pub fn links(&self, country: u32) -> Result<Vec<Id>, LayoutFault>
        ensures ok { IfOk result (λ links. links.items ≡ links_of country self.now) }
        ensures fault { IsOkUnless result LayoutFault.OutOfMemory }
    {
        self.lend().links(country)
    }

    /// The identities that `links` returns, in an `Elements`, which stands in place. Takes no memory.
    pub fn elements(&self, country: u32) -> Elements
        ensures { result ≡ links_of country self.now }
    {
        self.lend().elements(country)
    }

    /// The value of the occurrence `k`, from 0, of a variable.
    pub fn field(&self, var: Var, k: u32) -> Option<u32>
        ensures { result ≡ field_of var k self.now.fields }
    {
        self.lend().field(var, k)
    }

    /// Sets an occurrence of a variable and returns the old value. Takes no memory.
    pub fn set_field(&mut self, var: Var, k: u32, value: u32) -> Result<u32, LayoutFault>
        ensures sets { Sets var k value self.old result self.new }
        ensures spelt { (version : ℕ) → IsSpelt version self.old → IsSpelt version self.new }
    {
        let Some(at) = self.place_of(var, k) else {
            return Err(LayoutFault::NoSuchVariable);
        };
        if var.steers() {
            return Err(LayoutFault::Steering);
        }
        let width = var.width();
        if value >> width != 0 {
            return Err(LayoutFault::ValueTooWide);
        }
        let old = self.bits().number(at, width);
        self.put_field(at, var, value);
        Ok(old)
    }

    /// Exchanges the directions 0 and 1 in Q_DIR. Takes no memory.
    #[tactic(auto, unfolding(balise_rules::specs::Variables::steers, balise_rules::specs::Variables::width_of))]
    pub fn flip_dir(&mut self)
        ensures turned { self.new ≡ turned self.old }
        ensures spelt { (version : ℕ) → IsSpelt version self.old → IsSpelt version self.new }
    {
        let dir = self.bits().number(8, 2);
        if dir < 2 {
            self.put_field(8, Var::QDir, 1 - dir);
        }
    }

    /// Flips Q_LINKORIENTATION of element `k`, where it has one. Takes no memory.
    #[tactic(auto, unfolding(balise_rules::specs::Variables::steers, balise_rules::specs::Variables::width_of))]
    pub fn flip_link(&mut self, k: u32)
        ensures flipped { self.new ≡ flipped k self.old }
        ensures spelt { (version : ℕ) → IsSpelt version self.old → IsSpelt version self.new }
    {
        if let Some(at) = self.place_of(Var::QLinkorientation, k) {
            let old = self.bits().number(at, 1);
            self.put_field(at, Var::QLinkorientation, 1 - old);
        }
    }

    /// Sets NID_BG of element `k`, where it stands. Takes no memory.
    #[tactic(auto, unfolding(balise_rules::specs::Variables::steers, balise_rules::specs::Variables::width_of))]
    pub fn name_link(&mut self, k: u32, number: u32)
        requires { number < 2 ^ 14 }
        ensures renamed { self.new ≡ renamed k number self.old }
        ensures spelt { (version : ℕ) → IsSpelt version self.old → IsSpelt version self.new }
    {
        if let Some(at) = self.place_of(Var::NidBg, k) {
            self.put_field(at, Var::NidBg, number);
        }
    }

    /// A copy of the packet.
    pub fn copy(&self) -> Result<Packet, LayoutFault>
        ensures ok { IfOk result (λ packet. packet ≡ self.now) }
        ensures fault { IsOkUnless result LayoutFault.OutOfMemory }
    {
        let packed = self.packed.copy()?;
        Ok(Packet {
            kind: self.kind,
            packed,
        })
    }

    // Its bits, the encoding of its fields.
    fn bits(&self) -> &Bits
        ensures { (next : ℕ → Form) × Holds next result.now self.now }
    {
        &self.packed
    }

    // Puts a value into the field of a variable that stands after `at` bits.
    fn put_field(&mut self, at: usize, var: Var, value: u32)
        requires stands { (k : ℕ) × (before (var, k) self.old.fields ≡ Some at) }
        requires free { steers var ≡ false }
        requires fits { value < 2 ^ width_of var }
        ensures { (k : ℕ) → before (var, k) self.old.fields ≡ Some at → self.new ≡ with_field var k value self.old }
    {
        self.packed.put(at, var.width(), value);
    }

    // How many bits stand before an occurrence of a variable.
    fn place_of(&self, var: Var, k: u32) -> Option<usize>
        ensures { result ≡ before (var, k) self.now.fields }
    {
        self.lend().place_of(var, k)
    }
}
