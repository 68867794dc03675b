//! A line of a journal after the first, as it is read.

ghost use Rattle.std.specs.Prelude.{◌≡◌, ◌≢◌, Err, IfErr, IfOk, Ok, option_map, true};
ghost use Rattle.balise_commands.specs.Lines.{line_in};
ghost use Rattle.balise_text.specs.JournalLines.{EntryLine, entry_in, entry_of, entry_reads_digits, journal_line_of, line_reads_digits, undone_in, undone_word};
ghost use Rattle.balise_text.specs.ReadLines.{journal_line_in};
ghost use Rattle.balise_text.specs.Words.{or_bad, read_as, words_of};

use crate::entries::read_entry;
use crate::head::Version;
use crate::kind::read_kind;
use crate::section::Section;
use crate::words::Words;
use balise_commands::Line;
use balise_rules::Refusal;
use std::alloc::Global;

/// What a line of a journal after the first is.
#[derive(Drop)]
pub enum JournalLine {
    /// An entry.
    Entry(Line),
    /// The serial of an edit that was undone.
    Undone(u32),
    /// `edits`: the journal ends, and the commands begin.
    Edits,
}

impl<'a> Words<'a> {
    ghost use Rattle.std.specs.Prelude.{MatchOption, None, Some};
    ghost use Rattle.balise_text.specs.Left.{left};
    ghost use Rattle.balise_text.specs.Words.{taken};

    // The word `undone` that comes next.
    fn undone(self) -> Option<(&'a [u8], Words<'a>)>
        ensures { MatchOption result (taken undone_word (left self.entry) ≡ None) (λ p. taken undone_word (left self.entry) ≡ Some (p.0.now, left p.1)) }
    {
        let (word, rest) = self.next()?;
        if word == b"undone".as_slice() {
            return Some((word, rest));
        }
        None
    }
}

fn undone(line: &[u8]) -> Option<u32>
    ensures { result ≡ undone_in (words_of line.now) }
{
    let (_, words) = Words::of_line(line).undone()?;
    let (serial, words) = words.number()?;
    words.end_with(serial)
}

fn entry(alloc: Global, line: &[u8]) -> Result<Line, Refusal>
    ensures ok { IfOk result (λ l. entry_of line.now ≡ Ok (line_in l)) }
    ensures fault { IfErr result (λ e. e ≢ Refusal.OutOfMemory → entry_of line.now ≡ Err e) }
    ensures memory { IfErr result (λ e. e ≡ Refusal.OutOfMemory → entry_reads_digits line.now ≡ true) }
{
    let Some((serial, words)) = Words::of_line(line).number() else {
        return Err(Refusal::BadLine);
    };
    let Some((name, words)) = words.next() else {
        return Err(Refusal::BadLine);
    };
    read_entry(alloc, serial, read_kind(name), words)
}

fn entry_line(alloc: Global, line: &[u8]) -> Result<JournalLine, Refusal>
    ensures ok { IfOk result (λ l. or_bad (option_map (read_as EntryLine) (entry_in (words_of line.now))) ≡ Ok (journal_line_in l)) }
    ensures fault { IfErr result (λ e. e ≢ Refusal.OutOfMemory → or_bad (option_map (read_as EntryLine) (entry_in (words_of line.now))) ≡ Err e) }
    ensures memory { IfErr result (λ e. e ≡ Refusal.OutOfMemory → entry_reads_digits line.now ≡ true) }
{
    match entry(alloc, line) {
        Ok(line) => Ok(JournalLine::Entry(line)),
        Err(refusal) => Err(refusal),
    }
}

/// What a line of a journal is, in this section of the journal. The line is without its end, and isn't the first.
///
/// Refused: `BadLine` where the line is outside the section's grammar. Then, for an insertion and an added group only,
/// `BadHex`; and for an added group, word by word, `JournalMismatch` where the digits are no telegram's. `OutOfMemory`
/// may stand in place of any answer to these two, but not of `BadLine`.
pub fn read_journal_line(
    alloc: Global,
    section: Section,
    line: &[u8],
) -> Result<JournalLine, Refusal>
    ensures ok { IfOk result (λ l. journal_line_of section line.now ≡ Ok (journal_line_in l)) }
    ensures fault { IfErr result (λ e. e ≢ Refusal.OutOfMemory → journal_line_of section line.now ≡ Err e) }
    ensures memory { IfErr result (λ e. e ≡ Refusal.OutOfMemory → line_reads_digits section line.now ≡ true) }
{
    if line == b"edits".as_slice() {
        return Ok(JournalLine::Edits);
    }
    match section {
        Section::Entries(Version::One) => entry_line(alloc, line),
        Section::Entries(Version::Two) => {
            if let Some(serial) = undone(line) {
                return Ok(JournalLine::Undone(serial));
            }
            entry_line(alloc, line)
        }
        Section::Undone => {
            if let Some(serial) = undone(line) {
                return Ok(JournalLine::Undone(serial));
            }
            Err(Refusal::BadLine)
        }
    }
}
