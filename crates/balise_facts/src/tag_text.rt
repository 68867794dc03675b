//! The text of a tag, without memory.

ghost use Rattle.std.specs.Prelude.{◌≡◌, ◌∷◌, decimal};
ghost use Rattle.balise_text.specs.Places.{tag_text};

use balise_edits::Tag;
use itoa::write_digits;

/// How many bytes a tag's text has at most: a letter, and the digits of a number of 64 bits.
const ROOM: usize = 21;

/// A place for the text of a tag.
#[derive(Drop)]
pub(crate) struct TagText {
    bytes: [u8; ROOM],
}

impl TagText {
    /// A place for one.
    pub(crate) fn new() -> TagText {
        TagText { bytes: [0; ROOM] }
    }

    /// The text of a tag.
    pub(crate) fn format(&mut self, tag: Tag) -> &[u8]
        ensures { result.now ≡ tag_text tag }
    {
        match tag {
            Tag::Base(place) => self.letter_and_number(b'b', place),
            Tag::Fresh(serial) => self.letter_and_number(b'n', serial),
        }
    }

    // A letter, and a number after it.
    fn letter_and_number(&mut self, letter: u8, number: u32) -> &[u8]
        ensures { result.now ≡ letter ∷ decimal number }
    {
        let digits = write_digits(u64::from(number), &mut self.bytes, ROOM);
        let start = digits - 1;
        self.bytes[start] = letter;
        &self.bytes[start..]
    }
}
