//! Copies of a group.

ghost use Rattle.std.specs.Prelude.{◌≡◌, IfOk, IsOkUnless};

use crate::group::Group;
use crate::one_or_more::OneOrMore;
use balise_rules::Refusal;

impl Group {
    /// A copy, with the same tags.
    pub fn copy(&self) -> Result<Group, Refusal>
        ensures ok { IfOk result (λ group. group ≡ self.now) }
        ensures fault { IsOkUnless result Refusal.OutOfMemory }
    {
        let (telegrams, turned) = self.telegrams.by_tag();
        let mut copies = OneOrMore::new(self.telegrams.allocator());
        for telegram in telegrams {
            copies.push(telegram.copy()?)?;
        }
        if turned {
            copies.reverse();
        }
        Ok(Group { telegrams: copies })
    }
}
