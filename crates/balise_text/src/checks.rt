//! Judges the line of a command. No memory is taken.

ghost use Rattle.std.specs.Prelude.{◌≡◌, option_map, Ok};
ghost use Rattle.balise_commands.specs.Commands.{command_of};
ghost use Rattle.balise_text.specs.Checks.{checked};
ghost use Rattle.balise_text.specs.Commands.{add_words, call_of, command_words, insert_words};
ghost use Rattle.balise_text.specs.Left.{left};
ghost use Rattle.balise_text.specs.Requests.{call};
ghost use Rattle.balise_text.specs.Words.{or_bad};

use crate::commands::{add_parts, insert_parts, read_plain};
use crate::digit_checks::{check_digits, check_telegrams};
use crate::kind::{Kind, read_kind};
use crate::request::{Request, read_other};
use crate::words::Words;
use balise_commands::Command;
use balise_rules::Refusal;

fn check_insert(words: Words) -> Result<(), Refusal>
    ensures { result ≡ checked (or_bad (insert_words (left words.entry))) }
{
    let Some(insert) = insert_parts(words) else {
        return Err(Refusal::BadLine);
    };
    check_digits(insert.word)
}

fn check_add(words: Words) -> Result<(), Refusal>
    ensures { result ≡ checked (or_bad (add_words (left words.entry))) }
{
    let Some((_, words)) = add_parts(words) else {
        return Err(Refusal::BadLine);
    };
    check_telegrams(words)
}

// A command without digits.
fn check_plain(command: Option<Command>) -> Result<(), Refusal>
    ensures { result ≡ checked (or_bad (option_map Ok (option_map command_of command))) }
{
    match command {
        Some(_) => Ok(()),
        None => Err(Refusal::BadLine),
    }
}

// A command that is no edit.
fn check_other(request: Option<Request>) -> Result<(), Refusal>
    ensures { result ≡ checked (or_bad (option_map Ok (option_map call request))) }
{
    match request {
        Some(_) => Ok(()),
        None => Err(Refusal::BadLine),
    }
}

// The words after the name of an edit.
fn check_command(kind: Option<Kind>, words: Words) -> Result<(), Refusal>
    ensures { result ≡ checked (or_bad (command_words kind (left words.entry))) }
{
    match kind {
        Some(Kind::Insert) => check_insert(words),
        Some(Kind::Add) => check_add(words),
        _ => check_plain(read_plain(kind, words)),
    }
}

/// Judges a line, without its end, as `read_request` does, but takes no memory: it is never `OutOfMemory`.
///
/// Refused: as `read_request` says.
pub fn check_request(line: &[u8]) -> Result<(), Refusal>
    ensures { result ≡ checked (call_of line.now) }
{
    let Some((name, words)) = Words::of_line(line).next() else {
        return Err(Refusal::BadLine);
    };
    if let Some(request) = read_other(name, words) {
        return check_other(request);
    }
    check_command(read_kind(name), words)
}
