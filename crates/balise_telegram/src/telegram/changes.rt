//! What is changed in place: all that keeps the layout. Takes no memory.

ghost use Rattle.std.specs.Prelude.{◌≡◌, ◌⊎◌, ◌<◌, ◌^◌, ℕ, false, true, Some};
ghost use Rattle.balise_rules.specs.Variables.{is_free_in_header, steers, width_of};
ghost use Rattle.balise_rules.specs.declared.variable.Var.TheVariants.{NPig, NidBg};
ghost use Rattle.balise_rules.specs.declared.tag.Tag.{Tag};
ghost use Rattle.balise_layout.specs.Setting.{flipped, renamed, turned};
ghost use Rattle.balise_rules.specs.Back.{with_packets};
ghost use Rattle.balise_rules.specs.Tagged.{each};
ghost use Rattle.balise_telegram.specs.Packed.{packet_place, place_from};
ghost use Rattle.balise_telegram.specs.Setting.{with_changed, with_field, with_head, SetsField, SetsHead};

use crate::PacketTag;
use crate::fault::TelegramFault;
use crate::header::{head_place, is_free};
use crate::telegram::Telegram;
use crate::telegram::walking::first;
use balise_rules::Var;

impl Telegram {
    /// Sets occurrence `k`, from 0, of a variable of the packet with this tag, and answers the old value.
    ///
    /// Refused in this order, and then all stays: `NoSuchPacket`, `NoSuchVariable`, `Steering`, `ValueTooWide`.
    pub fn set_field(
        &mut self,
        tag: PacketTag,
        var: Var,
        k: u32,
        value: u32,
    ) -> Result<u32, TelegramFault>
        ensures { SetsField tag var k value self.old result self.new }
    {
        let bits = self.packed();
        let Some(packet) = self.bits_of(tag) else {
            return Err(TelegramFault::NoSuchPacket);
        };
        let Some(at) = self.place_in(packet, var, k) else {
            return Err(TelegramFault::NoSuchVariable);
        };
        if var.steers() {
            return Err(TelegramFault::Steering);
        }
        let width = var.width();
        if value >> width != 0 {
            return Err(TelegramFault::ValueTooWide);
        }
        let old = bits.number(at, width);
        self.put_field(at, var, value);
        Ok(old)
    }

    /// Sets M_DUP, M_MCOUNT or Q_LINK of the header and answers the old value.
    ///
    /// Refused in this order, and then all stays: `NoSuchVariable`, `Steering`, `ValueTooWide`.
    pub fn set_head(&mut self, var: Var, value: u32) -> Result<u32, TelegramFault>
        ensures { SetsHead var value self.old result self.new }
    {
        let Some(old) = self.head(var) else {
            return Err(TelegramFault::NoSuchVariable);
        };
        if !is_free(var) {
            return Err(TelegramFault::Steering);
        }
        if value >> var.width() != 0 {
            return Err(TelegramFault::ValueTooWide);
        }
        self.put_in_head(var, value);
        Ok(old)
    }

    /// Sets N_PIG, of 3 bits, or NID_BG, of 14, of the header.
    pub fn put_head(&mut self, var: Var, value: u32)
        requires var { (var ≡ NPig) ⊎ (var ≡ NidBg) }
        requires fits { value < 2 ^ width_of var }
        ensures { self.new ≡ with_head var value self.old }
    {
        self.put_in_head(var, value);
    }

    // Puts a value where a variable of the header stands.
    fn put_in_head(&mut self, var: Var, value: u32)
        requires var { (is_free_in_header var ≡ true) ⊎ ((var ≡ NPig) ⊎ (var ≡ NidBg)) }
        requires fits { value < 2 ^ width_of var }
        ensures { self.new ≡ with_head var value self.old }
    {
        if let Some(place) = head_place(var) {
            self.contents.put(place, var.width(), value);
        }
    }

    /// Exchanges the directions 0 and 1 in Q_DIR of the packet with this tag, where it stands.
    pub fn flip_dir(&mut self, tag: PacketTag)
        ensures { self.new ≡ with_changed tag turned self.old }
    {
        if let Some(packet) = self.bits_of(tag) {
            self.flip_dir_there(packet);
        }
    }

    /// Exchanges the directions 0 and 1 in Q_DIR of each packet.
    pub fn flip_dirs(&mut self)
        ensures { self.new ≡ with_packets self.old (each (λ _ x. turned x) self.old.packets) }
    {
        // The proof goes over the bits that it shows.
        let _packed = self.packed();
        let mut place = first();
        'packets: loop {
            // It is read before the bits beside it change, since a processor waits for those.
            let Some(next) = self.next_place(place) else {
                return;
            };
            self.flip_dir_there(place.at);
            place = next;
        }
    }

    // Exchanges them in the packet that begins at this bit.
    #[tactic(auto, unfolding(balise_rules::specs::Variables::steers, balise_rules::specs::Variables::width_of))]
    fn flip_dir_there(&mut self, packet: usize)
        requires { (tag : Tag) × (packet_place 50 tag self.old.packets ≡ Some packet) }
        ensures { (tag : Tag) → packet_place 50 tag self.old.packets ≡ Some packet → self.new ≡ with_changed tag turned self.old }
    {
        let bits = self.packed();
        let dir = bits.number(packet + 8, 2);
        if dir < 2 {
            self.put_field(packet + 8, Var::QDir, 1 - dir);
        }
    }

    /// Flips Q_LINKORIENTATION of element `k` of the packet with this tag, where it stands.
    #[tactic(auto, unfolding(balise_rules::specs::Variables::steers, balise_rules::specs::Variables::width_of))]
    pub fn flip_link(&mut self, tag: PacketTag, k: u32)
        ensures { self.new ≡ with_changed tag (flipped k) self.old }
    {
        let bits = self.packed();
        let Some(packet) = self.bits_of(tag) else {
            return;
        };
        if let Some(at) = self.place_in(packet, Var::QLinkorientation, k) {
            let old = bits.number(at, 1);
            self.put_field(at, Var::QLinkorientation, 1 - old);
        }
    }

    /// Sets NID_BG, of 14 bits, of element `k` of the packet with this tag, where it stands.
    #[tactic(auto, unfolding(balise_rules::specs::Variables::steers, balise_rules::specs::Variables::width_of))]
    pub fn name_link(&mut self, tag: PacketTag, k: u32, number: u32)
        requires { number < 2 ^ 14 }
        ensures { self.new ≡ with_changed tag (renamed k number) self.old }
    {
        let Some(packet) = self.bits_of(tag) else {
            return;
        };
        if let Some(at) = self.place_in(packet, Var::NidBg, k) {
            self.put_field(at, Var::NidBg, number);
        }
    }

    // Puts a value where a field of a packet stands.
    fn put_field(&mut self, at: usize, var: Var, value: u32)
        requires stands { (tag : Tag) × (k : ℕ) × (place_from 50 tag (var, k) self.old.packets ≡ Some at) }
        requires free { steers var ≡ false }
        requires fits { value < 2 ^ width_of var }
        ensures { (tag : Tag) (k : ℕ) → place_from 50 tag (var, k) self.old.packets ≡ Some at → self.new ≡ with_field tag var k value self.old }
    {
        self.contents.put(at, var.width(), value);
    }
}
