//! Words that say where: tags, anchors, neighbours and paths.

ghost use Rattle.std.specs.Prelude.{◌≡◌};
ghost use Rattle.balise_text.specs.Places.{anchor_of, neighbour_of, packet_path_of, tag_of, tag_or, telegram_path_of};

use crate::number::read_number;
use crate::words::Words;
use balise_rules::Tag;

fn read_tag(word: &[u8]) -> Option<Tag>
    ensures { result ≡ tag_of word.now }
{
    match word {
        [] => None,
        [kind, digits @ ..] => {
            if *kind == b'b' {
                let place = read_number(digits)?;
                return Some(Tag::Base(place));
            }
            if *kind == b'n' {
                let serial = read_number(digits)?;
                return Some(Tag::Fresh(serial));
            }
            None
        }
    }
}

// A tag, or the mark that stands where there is none.
fn read_tag_or(mark: &[u8], word: &[u8]) -> Option<Option<Tag>>
    ensures { result ≡ tag_or mark.now word.now }
{
    if word == mark {
        return Some(None);
    }
    let tag = read_tag(word)?;
    Some(Some(tag))
}

/// The tags of a group and of a telegram.
fn read_telegram_path(word: &[u8]) -> Option<(Tag, u32)>
    ensures { result ≡ telegram_path_of word.now }
{
    let (group, rest) = Words::new(word, b'/').tag()?;
    let (telegram, rest) = rest.number()?;
    rest.end_with((group, telegram))
}

/// The tags of a group, of a telegram and of a packet.
fn read_packet_path(word: &[u8]) -> Option<(Tag, u32, Tag)>
    ensures { result ≡ packet_path_of word.now }
{
    let (group, rest) = Words::new(word, b'/').tag()?;
    let (telegram, rest) = rest.number()?;
    let (packet, rest) = rest.tag()?;
    rest.end_with((group, telegram, packet))
}

impl<'a> Words<'a> {
    ghost use Rattle.balise_text.specs.Left.{TakesPart, left};

    /// The tag that comes next.
    pub(crate) fn tag(self) -> Option<(Tag, Words<'a>)>
        ensures { TakesPart tag_of (left self.entry) result }
    {
        let (word, rest) = self.next()?;
        let tag = read_tag(word)?;
        Some((tag, rest))
    }

    /// The anchor that comes next: a tag, or the start.
    pub(crate) fn anchor(self) -> Option<(Option<Tag>, Words<'a>)>
        ensures { TakesPart anchor_of (left self.entry) result }
    {
        let (word, rest) = self.next()?;
        let anchor = read_tag_or(b"^", word)?;
        Some((anchor, rest))
    }

    /// The neighbour that comes next: a tag, or the end.
    pub(crate) fn neighbour(self) -> Option<(Option<Tag>, Words<'a>)>
        ensures { TakesPart neighbour_of (left self.entry) result }
    {
        let (word, rest) = self.next()?;
        let neighbour = read_tag_or(b"$", word)?;
        Some((neighbour, rest))
    }

    /// The path to a telegram that comes next.
    pub(crate) fn telegram_path(self) -> Option<((Tag, u32), Words<'a>)>
        ensures { TakesPart telegram_path_of (left self.entry) result }
    {
        let (word, rest) = self.next()?;
        let path = read_telegram_path(word)?;
        Some((path, rest))
    }

    /// The path to a packet that comes next.
    pub(crate) fn packet_path(self) -> Option<((Tag, u32, Tag), Words<'a>)>
        ensures { TakesPart packet_path_of (left self.entry) result }
    {
        let (word, rest) = self.next()?;
        let path = read_packet_path(word)?;
        Some((path, rest))
    }
}
