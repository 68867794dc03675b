//! A command as a line has it.
#![tactic(auto, using(crate::proofs::Taking::map_at_end))]

ghost use Rattle.std.specs.Prelude.{◌≡◌, ◌≢◌, Err, IfErr, IfOk, MatchOption, Ok, option_map, true};
ghost use Rattle.balise_rules.specs.Session as session;
ghost use Rattle.balise_text.specs.Commands.{call_of, command_words, named_words, reads_digits, strike_words};
ghost use Rattle.balise_text.specs.Kinds.{kind_of};
ghost use Rattle.balise_text.specs.Left.{left};
ghost use Rattle.balise_text.specs.Requests.{call};
ghost use Rattle.balise_text.specs.Words.{no_more, or_bad, read_as};

use crate::commands::read_command;
use crate::kind::read_kind;
use crate::words::Words;
use balise_commands::Command;
use balise_rules::Refusal;
use std::alloc::Global;

/// What a command asks of a session.
#[derive(Drop)]
pub enum Request {
    /// To do an edit.
    Edit(Command),
    /// To take the last edit back.
    Undo,
    /// To do the last edit that was taken back again.
    Redo,
    /// To take the edit of a serial back in place.
    Strike(u32),
}

#[inline(always)]
fn read_undo(words: Words) -> Option<Request>
    ensures { option_map call result ≡ no_more (left words.entry) session.Undo }
{
    words.end_with(Request::Undo)
}

#[inline(always)]
fn read_redo(words: Words) -> Option<Request>
    ensures { option_map call result ≡ no_more (left words.entry) session.Redo }
{
    words.end_with(Request::Redo)
}

#[inline(always)]
fn read_strike(words: Words) -> Option<Request>
    ensures { option_map call result ≡ strike_words (left words.entry) }
{
    let (serial, words) = words.number()?;
    words.end_with(Request::Strike(serial))
}

/// What a name and the words after it ask for, where it is the name of a command that is no edit.
#[inline(always)]
pub(crate) fn read_other(name: &[u8], words: Words) -> Option<Option<Request>>
    ensures { MatchOption result (named_words name.now (left words.entry) ≡ option_map (read_as session.Ask) (command_words (kind_of name.now) (left words.entry))) (λ request. option_map Ok (option_map call request) ≡ named_words name.now (left words.entry)) }
{
    if name == b"undo".as_slice() {
        return Some(read_undo(words));
    }
    if name == b"redo".as_slice() {
        return Some(read_redo(words));
    }
    if name == b"strike".as_slice() {
        return Some(read_strike(words));
    }
    None
}

/// The command that a line, without its end, is. Refused as `BadLine` where the line is outside the grammar. Then, for
/// `insert` and `add` only, as `BadHex`; and for `add`, word by word, as `BadLength` and `SpareBits`. `OutOfMemory` may
/// stand in place of any answer to these two, but not of `BadLine`.
pub fn read_request(alloc: Global, line: &[u8]) -> Result<Request, Refusal>
    ensures ok { IfOk result (λ r. call_of line.now ≡ Ok (call r)) }
    ensures fault { IfErr result (λ e. e ≢ Refusal.OutOfMemory → call_of line.now ≡ Err e) }
    ensures memory { IfErr result (λ e. e ≡ Refusal.OutOfMemory → reads_digits line.now ≡ true) }
{
    let Some((name, words)) = Words::of_line(line).next() else {
        return Err(Refusal::BadLine);
    };
    if let Some(request) = read_other(name, words) {
        return request.ok_or(Refusal::BadLine);
    }
    match read_command(alloc, read_kind(name), words) {
        Ok(command) => Ok(Request::Edit(command)),
        Err(refusal) => Err(refusal),
    }
}
