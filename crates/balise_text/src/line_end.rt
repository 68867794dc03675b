//! Words put together from the end of a line, so that they are written in one call.

ghost use Rattle.std.specs.Prelude.{◌≡◌, ◌≤◌, ◌+◌, ◌∷◌, ◌++◌, [], decimal, map, true};
ghost use Rattle.balise_text.specs.Places.{packet_path, tag_text, telegram_path};
ghost use Rattle.balise_text.specs.Printing.{is_short, word_or_none, word_text};
ghost use Rattle.balise_text.specs.Reviews.{id_text};
ghost use Rattle.balise_text.specs.Texts.{behind_marks};

use crate::printing::Word;
use balise_rules::{Id, Tag};
use itoa::write_digits;

/// How many bytes are put together at most: more than a line without digits of telegrams has.
const ROOM: usize = 128;

/// How many digits a number of 64 bits has at most.
const MOST_DIGITS: usize = 20;

/// The end of a line. What is put in stands before what is there. Each call answers whether there was room; if not,
/// what is there is of no use.
#[derive(Drop)]
pub(crate) struct LineEnd {
    bytes: [u8; ROOM],
    start: usize,
    ghost within: { start ≤ 128 },
}

impl LineEnd {
    ghost use Rattle.balise_text.specs.LineEnds.{ending};

    /// Nothing yet.
    #[inline(always)]
    pub(crate) fn new() -> LineEnd
        ensures text { ending result ≡ [] }
        ensures room { result.start ≡ 128 }
    {
        LineEnd {
            bytes: [0; ROOM],
            start: ROOM,
        }
    }

    /// What was put in.
    #[inline(always)]
    pub(crate) fn text(&self) -> &[u8]
        ensures { result.now ≡ ending self.now }
    {
        &self.bytes[self.start..]
    }

    #[inline(always)]
    pub(crate) fn put_byte(&mut self, byte: u8) -> bool
        ensures text { result ≡ true → ending self.new ≡ byte ∷ ending self.old }
        ensures room { 1 ≤ self.old.start → result ≡ true }
        ensures left { self.old.start ≤ self.new.start + 1 }
    {
        if self.start == 0 {
            return false;
        }
        self.start -= 1;
        self.bytes[self.start] = byte;
        true
    }

    pub(crate) fn put_name(&mut self, name: &[u8]) -> bool
        ensures { result ≡ true → ending self.new ≡ name.now ++ ending self.old }
    {
        let end = self.start;
        if name.len() > end {
            return false;
        }
        self.start = end - name.len();
        self.bytes[self.start..end].copy_from_slice(name);
        true
    }

    #[inline(always)]
    pub(crate) fn put_number(&mut self, number: u64) -> bool
        ensures text { result ≡ true → ending self.new ≡ decimal number ++ ending self.old }
        ensures room { 20 ≤ self.old.start → result ≡ true }
        ensures left { self.old.start ≤ self.new.start + 20 }
    {
        if self.start < MOST_DIGITS {
            return false;
        }
        self.start = write_digits(number, &mut self.bytes, self.start);
        true
    }

    fn put_tag(&mut self, tag: Tag) -> bool
        ensures text { result ≡ true → ending self.new ≡ tag_text tag ++ ending self.old }
        ensures room { 21 ≤ self.old.start → result ≡ true }
        ensures left { self.old.start ≤ self.new.start + 21 }
    {
        match tag {
            Tag::Base(place) => self.put_number(u64::from(place)) && self.put_byte(b'b'),
            Tag::Fresh(serial) => self.put_number(u64::from(serial)) && self.put_byte(b'n'),
        }
    }

    fn put_id(&mut self, id: Id) -> bool
        ensures text { result ≡ true → ending self.new ≡ id_text id ++ ending self.old }
        ensures room { 41 ≤ self.old.start → result ≡ true }
        ensures left { self.old.start ≤ self.new.start + 41 }
    {
        self.put_number(u64::from(id.number))
            && self.put_byte(b'.')
            && self.put_number(u64::from(id.country))
    }

    fn put_telegram_path(&mut self, g: Tag, t: u32) -> bool
        ensures text { result ≡ true → ending self.new ≡ telegram_path g t ++ ending self.old }
        ensures room { 42 ≤ self.old.start → result ≡ true }
        ensures left { self.old.start ≤ self.new.start + 42 }
    {
        self.put_number(u64::from(t)) && self.put_byte(b'/') && self.put_tag(g)
    }

    fn put_packet_path(&mut self, g: Tag, t: u32, p: Tag) -> bool
        ensures text { result ≡ true → ending self.new ≡ packet_path g t p ++ ending self.old }
        ensures room { 64 ≤ self.old.start → result ≡ true }
        ensures left { self.old.start ≤ self.new.start + 64 }
    {
        self.put_tag(p) && self.put_byte(b'/') && self.put_telegram_path(g, t)
    }

    /// Puts a word in. Names and digits may be too long.
    #[inline(always)]
    pub(crate) fn put_word(&mut self, word: &Word) -> bool
        ensures text { result ≡ true → ending self.new ≡ word_text word.now ++ ending self.old }
        ensures room { 64 ≤ self.old.start → is_short word.now ≡ true → result ≡ true }
    {
        match *word {
            Word::Name(name) => self.put_name(name),
            Word::Number(number) => self.put_number(u64::from(number)),
            Word::LineNumber(number) => self.put_number(number),
            Word::Identity(id) => self.put_id(id),
            Word::GroupTag(tag) => self.put_tag(tag),
            Word::Anchor(None) => self.put_byte(b'^'),
            Word::Anchor(Some(tag)) => self.put_tag(tag),
            Word::Neighbour(None) => self.put_byte(b'$'),
            Word::Neighbour(Some(tag)) => self.put_tag(tag),
            Word::TelegramPath(g, t) => self.put_telegram_path(g, t),
            Word::PacketPath(g, t, p) => self.put_packet_path(g, t, p),
            Word::Digits(_) => false,
        }
    }

    /// Puts a word in with a space before it, if there is one.
    #[inline(always)]
    pub(crate) fn put_word_or_none(&mut self, word: &Option<Word>) -> bool
        ensures { result ≡ true → ending self.new ≡ behind_marks 32 (word_or_none word.now) ++ ending self.old }
    {
        match word {
            Some(word) => self.put_word(word) && self.put_byte(b' '),
            None => true,
        }
    }

    /// Puts words in, a space before each.
    pub(crate) fn put_words(&mut self, words: &[Word]) -> bool
        ensures { result ≡ true → ending self.new ≡ behind_marks 32 (map word_text words.now) ++ ending self.old }
    {
        let mut left = words.len();
        'words: while left > 0 {
            left -= 1;
            if !self.put_word(&words[left]) || !self.put_byte(b' ') {
                return false;
            }
        }
        true
    }
}
