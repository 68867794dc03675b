//! A packet that is lent.

ghost use Rattle.std.specs.Prelude.{◌≡◌, ◌<◌, ◌≤◌, ◌↔◌, ◌⊎◌, ℕ, List, Bool, false, true, [], Ok, drop, length, IfNone, IfOk, IfSome, IsOkUnless, IsTrue, MatchResult};
ghost use Rattle.balise_rules.specs.declared.variable.Var.TheVariants.{NidBg, NidPacket, QDir};
ghost use Rattle.balise_rules.specs.Bits.{num, part};
ghost use Rattle.balise_rules.specs.Forms.{count_of, Numbered};
ghost use Rattle.balise_rules.specs.Names.{links_of};
ghost use Rattle.balise_rules.specs.Packet.{bits_of, field_of, read_first, value, width, IsSpelt};
ghost use Rattle.balise_layout.specs.Walks.{kept};
ghost use Rattle.balise_layout.specs.Reading.{Sure};
ghost use Rattle.balise_layout.specs.Collected.{all_keyed};
ghost use Rattle.balise_layout.specs.Held.{before, held, Holds, IsHeld};
ghost use Rattle.balise_layout.specs.Layouts.{next_of};
ghost use Rattle.balise_layout.specs.Kinds.{number_of};
ghost use Rattle.balise_layout.specs.Linked.{few, most_elements};

use crate::collect::Collect;
use crate::elements::{Elements, FindElements};
use crate::fault::LayoutFault;
use crate::few::{FewIdentities, FindFew};
use crate::kind::{PacketKind, is_known};
use crate::packet::Packet;
use crate::search::Search;
use crate::visit::Visit;
use crate::walker::Walker;
use balise_bits::Bits;
use balise_rules::{Id, Var};
use std::marker::Model;

/// A packet that is lent out of bits, between two places of them.
#[derive(Drop)]
pub struct PacketRef<'a> {
    kind: PacketKind,
    bits: &'a Bits,
    at: usize,
    end: usize,
}

impl<'a> Model for PacketRef<'a> {
    ghost use Rattle.std.specs.Prelude.{◌-◌, ◌≤◌, length};
    ghost use Rattle.balise_rules.specs.Packet as rules;
    ghost use Rattle.balise_rules.specs.Bits.{part};
    ghost use Rattle.balise_layout.specs.Held.{held, IsHeld};
    ghost use Rattle.balise_layout.specs.Layouts.{next_of};
    ghost use Rattle.balise_layout.specs.Kinds.{number_of};

    ghost Value = { rules.Packet };

    ghost view = { λ p. held (next_of (number_of p.kind)) (part p.at (p.end - p.at) p.bits.now) };

    ghost invariant = { λ p. (p.at ≤ p.end) × (p.end ≤ length p.bits.now) × IsHeld (next_of (number_of p.kind)) (part p.at (p.end - p.at) p.bits.now) };
}

impl<'a> PacketRef<'a> {
    /// The packet that stands at the place `at` of a telegram of this M_VERSION. Takes no memory, and doesn't check
    /// the packet again.
    pub fn new(bits: &'a Bits, at: usize, version: u32) -> PacketRef<'a>
        requires { (p : Packet) × (after : List Bool) × (read_first version (drop at bits.now) ≡ Ok (p, after)) }
        ensures { (p : Packet) (after : List Bool) → read_first version (drop at bits.now) ≡ Ok (p, after) → result ≡ p }
    {
        let head = bits.number(at, 23);
        PacketRef::of_head(bits, at, version, head)
    }

    /// The packet that `new` answers, where its first 23 bits were read: NID_PACKET, Q_DIR and L_PACKET.
    #[inline(always)]
    pub fn of_head(bits: &'a Bits, at: usize, version: u32, head: u32) -> PacketRef<'a>
        requires there { (p : Packet) × (after : List Bool) × (read_first version (drop at bits.now) ≡ Ok (p, after)) }
        requires head { head ≡ num (part at 23 bits.now) }
        ensures { (p : Packet) (after : List Bool) → read_first version (drop at bits.now) ≡ Ok (p, after) → result ≡ p }
    {
        // The length is a number of 64 bits, so the packet's end is too.
        let _len = bits.len();
        let kind = PacketKind::of(version, head >> 15);
        let end = at + (head % 8192) as usize;
        PacketRef {
            kind,
            bits,
            at,
            end,
        }
    }

    // All of some bits, which are a packet of this kind.
    pub(crate) fn whole(kind: PacketKind, bits: &'a Bits) -> PacketRef<'a>
        requires { IsHeld (next_of (number_of kind)) bits.now }
        ensures { result ≡ held (next_of (number_of kind)) bits.now }
    {
        PacketRef {
            kind,
            bits,
            at: 0,
            end: bits.len(),
        }
    }

    /// What kind of packet it is.
    pub fn kind(&self) -> PacketKind
        ensures { Holds (next_of (number_of result)) (bits_of self.now) self.now }
    {
        self.kind
    }

    /// NID_PACKET.
    pub fn number(&self) -> u32
        ensures { result ≡ value NidPacket 0 self.now.fields }
    {
        self.bits.number(self.at, 8)
    }

    /// Q_DIR.
    pub fn q_dir(&self) -> u32
        ensures { result ≡ value QDir 0 self.now.fields }
    {
        // The length is a number of 64 bits, so the place below is too.
        let _len = self.bits.len();
        self.bits.number(self.at + 8, 2)
    }

    /// How many bits it has.
    pub fn width(&self) -> usize
        ensures { result ≡ width self.now }
    {
        self.end - self.at
    }

    /// Whether a telegram of this M_VERSION may hold it.
    pub fn is_spelt(&self, version: u32) -> bool
        ensures { IsTrue result ↔ IsSpelt version self.now }
    {
        is_known(version, self.number()) == self.kind.is_known()
    }

    /// Its fields in bit order: variable, occurrence from 0, and value.
    pub fn fields(&self) -> Result<Vec<(Var, u32, u32)>, LayoutFault>
        ensures ok { IfOk result (λ fields. all_keyed fields.items ≡ self.now.fields) }
        ensures fault { IsOkUnless result LayoutFault.OutOfMemory }
    {
        let alloc = self.bits.allocator();
        Ok(self.visit(Collect::new(alloc))?.into_fields())
    }

    /// The identities of its elements, one each in order, with number 16383 kept, in a telegram of this country.
    pub fn links(&self, country: u32) -> Result<Vec<Id>, LayoutFault>
        ensures ok { IfOk result (λ links. links.items ≡ links_of country self.now) }
        ensures fault { IsOkUnless result LayoutFault.OutOfMemory }
    {
        let alloc = self.bits.allocator();
        if !self.has_elements() {
            return Ok(Vec::new(alloc));
        }
        let elements = self.elements(country);
        Ok(Vec::from_slice(alloc, elements.as_slice())?)
    }

    /// Whether it may have elements: only packets 5 and 136 do.
    pub fn has_elements(&self) -> bool
        ensures none { result ≡ false → (country : ℕ) → links_of country self.now ≡ [] }
        ensures some { result ≡ true → (value NidPacket 0 self.now.fields ≡ 5) ⊎ (value NidPacket 0 self.now.fields ≡ 136) }
    {
        let kind = self.kind();
        kind.has_elements()
    }

    /// The identities that `links` returns, in an `Elements`, which stands in place. Takes no memory.
    pub fn elements(&self, country: u32) -> Elements
        ensures { result ≡ links_of country self.now }
    {
        let mut walker = Walker::new(FindElements::new(country), self.bits, self.at, self.end);
        let Ok(()) = self.kind.walk(&mut walker) else {
            return Elements::none();
        };
        walker.into_visitor().into_elements()
    }

    /// The identities that its elements name, as in `elements`, if there are at most four. Takes no memory.
    pub fn few_elements(&self, country: u32) -> Option<FewIdentities>
        ensures some { IfSome result (λ elements. elements ≡ links_of country self.now) }
        ensures none { IfNone result (few < length (links_of country self.now)) }
    {
        // The length is a number of 64 bits, so the place below is too.
        let _len = self.bits.len();
        // The first three fields name nothing.
        let mut walker = Walker::new(FindFew::new(country), self.bits, self.at + 23, self.end);
        let Ok(()) = self.kind.walk_rest(&mut walker) else {
            return None;
        };
        let Some(elements) = walker.into_visitor().into_few() else {
            return None;
        };
        Some(elements)
    }

    /// The value of the occurrence `k`, from 0, of a variable.
    pub fn field(&self, var: Var, k: u32) -> Option<u32>
        ensures { result ≡ field_of var k self.now.fields }
    {
        let Some(place) = self.place_of(var, k) else {
            return None;
        };
        // The length is a number of 64 bits, so the place below is too.
        let _len = self.bits.len();
        Some(self.bits.number(self.at + place, var.width()))
    }

    /// How many of its bits stand before the occurrence `k`, from 0, of a variable. Takes no memory.
    pub fn place_of(&self, var: Var, k: u32) -> Option<usize>
        ensures { result ≡ before (var, k) self.now.fields }
    {
        let Ok(search) = self.visit(Search::new(var, k)) else {
            return None;
        };
        match search.found {
            Some(left) => Some(self.width() - left),
            None => None,
        }
    }

    /// A packet of its own, with the bits cut out. Doesn't check them again.
    pub fn to_packet(&self) -> Result<Packet, LayoutFault>
        ensures ok { IfOk result (λ packet. packet ≡ self.now) }
        ensures fault { IsOkUnless result LayoutFault.OutOfMemory }
    {
        let packed = self.bits.slice(self.at, self.end - self.at)?;
        Ok(Packet::of_bits(self.kind, packed))
    }

    // Shows each field to a visitor.
    fn visit<V: Visit + Drop>(&self, visitor: V) -> Result<V, LayoutFault>
        ensures shows { MatchResult result (λ v. v ≡ kept V.step visitor (width self.now) self.now.fields) (λ e. Sure V.allocates e → ⊥) }
        ensures numbered { Numbered self.now.fields }
        ensures few { count_of NidBg self.now.fields ≤ most_elements }
    {
        let kind = self.kind;
        let mut walker = Walker::new(visitor, self.bits, self.at, self.end);
        kind.walk(&mut walker)?;
        Ok(walker.into_visitor())
    }
}
