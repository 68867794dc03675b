//! The first line of a journal, as it is read.

ghost use Rattle.std.specs.Prelude.{◌≡◌};
ghost use Rattle.balise_text.specs.Heads.{head_in, journal_of, read_head, version_of};
ghost use Rattle.balise_text.specs.Words.{words_of};

use crate::words::Words;
use balise_rules::Refusal;

/// The version of a journal.
#[derive(Clone, Copy, Debug, PartialEq, Eq)]
pub enum Version {
    /// 1: the standing edits alone.
    One,
    /// 2: after them those that were undone.
    Two,
}

/// What the first line of a journal says.
#[derive(Clone, Copy, Debug, PartialEq, Eq)]
pub struct Head {
    /// The version, which says what lines may come.
    pub version: Version,
    /// The serial of the next edit.
    pub next: u32,
}

fn read_version(word: &[u8]) -> Option<Version>
    ensures { result ≡ version_of word.now }
{
    if word == b"1".as_slice() {
        return Some(Version::One);
    }
    if word == b"2".as_slice() {
        return Some(Version::Two);
    }
    None
}

impl<'a> Words<'a> {
    ghost use Rattle.std.specs.Prelude.{MatchOption, None, Some};
    ghost use Rattle.balise_text.specs.Left.{TakesPart, left};
    ghost use Rattle.balise_text.specs.Words.{taken};

    // The word `journal` that comes next.
    fn journal(self) -> Option<(&'a [u8], Words<'a>)>
        ensures { MatchOption result (taken journal_of (left self.entry) ≡ None) (λ p. taken journal_of (left self.entry) ≡ Some (p.0.now, left p.1)) }
    {
        let (word, rest) = self.next()?;
        if word == b"journal".as_slice() {
            return Some((word, rest));
        }
        None
    }

    // The version that comes next.
    fn version(self) -> Option<(Version, Words<'a>)>
        ensures { TakesPart version_of (left self.entry) result }
    {
        let (word, rest) = self.next()?;
        let version = read_version(word)?;
        Some((version, rest))
    }
}

fn read_words(line: &[u8]) -> Option<Head>
    ensures { result ≡ head_in (words_of line.now) }
{
    let (_, words) = Words::of_line(line).journal()?;
    let (version, words) = words.version()?;
    let (next, words) = words.number()?;
    words.end_with(Head { version, next })
}

/// What the first line of a journal, without its end, says: `journal`, the version 1 or 2, the next serial. Any other
/// line is a `BadLine`. A next serial that no session has, as 0, is read.
pub fn read_head(line: &[u8]) -> Result<Head, Refusal>
    ensures { result ≡ read_head line.now }
{
    match read_words(line) {
        Some(head) => Ok(head),
        None => Err(Refusal::BadLine),
    }
}
