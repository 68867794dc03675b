//! What the words of an edit's command ask for.
#![tactic(auto, using(crate::proofs::Taking::map_at_end))]

ghost use Rattle.std.specs.Prelude.{◌≡◌, ◌≢◌, ◌&&◌, is_some, Err, false, IfErr, IfOk, MatchOption, None, Ok, option_map, Some, true};
ghost use Rattle.balise_rules.specs.Addresses.{AskAdd, AskInsert};
ghost use Rattle.balise_rules.specs.Digits.{read_digits};
ghost use Rattle.balise_commands.specs.Commands.{command_of};
ghost use Rattle.balise_text.specs.Commands.{add_words, command_words, delete_words, drop_words, insert_words, is_digits_kind, move_words, renumber_words, set_head_words, set_words, turn_words};
ghost use Rattle.balise_text.specs.DigitWords.{telegrams_in};
ghost use Rattle.balise_text.specs.Left.{left};
ghost use Rattle.balise_text.specs.Words.{or_bad, read_as};

use crate::digit_words::read_telegrams;
use crate::kind::Kind;
use crate::words::Words;
use balise_commands::{Bits, Command};
use balise_rules::{Id, Refusal};
use std::alloc::Global;

#[inline(always)]
fn read_set(words: Words) -> Option<Command>
    ensures { option_map command_of result ≡ set_words (left words.entry) }
{
    let (id, words) = words.id()?;
    let (pig, words) = words.number()?;
    let (pkt, words) = words.number()?;
    let (var, words) = words.var()?;
    let (k, words) = words.number()?;
    let (value, words) = words.number()?;
    words.end_with(Command::SetVar {
        id,
        pig,
        pkt,
        var,
        k,
        value,
    })
}

#[inline(always)]
fn read_set_head(words: Words) -> Option<Command>
    ensures { option_map command_of result ≡ set_head_words (left words.entry) }
{
    let (id, words) = words.id()?;
    let (pig, words) = words.number()?;
    let (var, words) = words.var()?;
    let (value, words) = words.number()?;
    words.end_with(Command::SetHead {
        id,
        pig,
        var,
        value,
    })
}

fn read_delete(words: Words) -> Option<Command>
    ensures { option_map command_of result ≡ delete_words (left words.entry) }
{
    let (id, words) = words.id()?;
    let (pig, words) = words.number()?;
    let (pkt, words) = words.number()?;
    words.end_with(Command::DeletePacket { id, pig, pkt })
}

fn read_move(words: Words) -> Option<Command>
    ensures { option_map command_of result ≡ move_words (left words.entry) }
{
    let (id, words) = words.id()?;
    let (pig, words) = words.number()?;
    let (pkt, words) = words.number()?;
    let (at, words) = words.number()?;
    words.end_with(Command::MovePacket { id, pig, pkt, at })
}

fn read_drop(words: Words) -> Option<Command>
    ensures { option_map command_of result ≡ drop_words (left words.entry) }
{
    let (id, words) = words.id()?;
    words.end_with(Command::DropGroup { id })
}

fn read_renumber(words: Words) -> Option<Command>
    ensures { option_map command_of result ≡ renumber_words (left words.entry) }
{
    let (id, words) = words.id()?;
    let (number, words) = words.number()?;
    words.end_with(Command::Renumber { id, number })
}

fn read_turn(words: Words) -> Option<Command>
    ensures { option_map command_of result ≡ turn_words (left words.entry) }
{
    let (id, words) = words.id()?;
    words.end_with(Command::TurnGroup { id })
}

/// What an insert names before its digits are looked at.
#[derive(Clone, Copy)]
pub(crate) struct Insert<'a> {
    id: Id,
    pig: u32,
    at: u32,
    pub(crate) word: &'a [u8],
}

/// The words of an insert.
pub(crate) fn insert_parts<'a>(words: Words<'a>) -> Option<Insert<'a>>
    ensures { MatchOption result (insert_words (left words.entry) ≡ None) (λ p. insert_words (left words.entry) ≡ Some (read_as (AskInsert p.id p.pig p.at) (read_digits p.word.now))) }
{
    let Some((id, words)) = words.id() else {
        return None;
    };
    let Some((pig, words)) = words.number() else {
        return None;
    };
    let Some((at, words)) = words.number() else {
        return None;
    };
    let Some((word, words)) = words.some_word() else {
        return None;
    };
    if !words.is_over() {
        return None;
    }
    Some(Insert { id, pig, at, word })
}

/// The words of an add: its place, and the words of digits.
pub(crate) fn add_parts<'a>(words: Words<'a>) -> Option<(u32, Words<'a>)>
    ensures { MatchOption result (add_words (left words.entry) ≡ None) (λ p. add_words (left words.entry) ≡ Some (read_as (AskAdd p.0) (telegrams_in (left p.1)))) }
{
    let (at, words) = words.number()?;
    if !words.have_digits() {
        return None;
    }
    Some((at, words))
}

fn read_insert(alloc: Global, words: Words) -> Result<Command, Refusal>
    ensures ok { IfOk result (λ c. or_bad (insert_words (left words.entry)) ≡ Ok (command_of c)) }
    ensures fault { IfErr result (λ e. e ≢ Refusal.OutOfMemory → or_bad (insert_words (left words.entry)) ≡ Err e) }
    ensures memory { IfErr result (λ e. e ≡ Refusal.OutOfMemory → is_some (insert_words (left words.entry)) ≡ true) }
{
    let Some(Insert { id, pig, at, word }) = insert_parts(words) else {
        return Err(Refusal::BadLine);
    };
    match Bits::digits_in_bytes(alloc, word) {
        Ok(digits) => Ok(Command::InsertPacket {
            id,
            pig,
            at,
            digits,
        }),
        Err(fault) => Err(fault.refusal()),
    }
}

fn read_add(alloc: Global, words: Words) -> Result<Command, Refusal>
    ensures ok { IfOk result (λ c. or_bad (add_words (left words.entry)) ≡ Ok (command_of c)) }
    ensures fault { IfErr result (λ e. e ≢ Refusal.OutOfMemory → or_bad (add_words (left words.entry)) ≡ Err e) }
    ensures memory { IfErr result (λ e. e ≡ Refusal.OutOfMemory → is_some (add_words (left words.entry)) ≡ true) }
{
    let Some((at, words)) = add_parts(words) else {
        return Err(Refusal::BadLine);
    };
    match read_telegrams(alloc, words) {
        Ok(telegrams) => Ok(Command::AddGroup { at, telegrams }),
        Err(fault) => Err(fault.refusal()),
    }
}

/// The command of an edit whose words hold no digits.
#[inline(always)]
pub(crate) fn read_plain(kind: Option<Kind>, words: Words) -> Option<Command>
    ensures { is_digits_kind kind ≡ false → option_map Ok (option_map command_of result) ≡ command_words kind (left words.entry) }
{
    match kind {
        None => None,
        Some(Kind::Set) => read_set(words),
        Some(Kind::SetHead) => read_set_head(words),
        Some(Kind::Insert) => None,
        Some(Kind::Delete) => read_delete(words),
        Some(Kind::Move) => read_move(words),
        Some(Kind::Add) => None,
        Some(Kind::Drop) => read_drop(words),
        Some(Kind::Renumber) => read_renumber(words),
        Some(Kind::Turn) => read_turn(words),
    }
}

/// What the words after the name of an edit ask for.
pub(crate) fn read_command(
    alloc: Global,
    kind: Option<Kind>,
    words: Words,
) -> Result<Command, Refusal>
    ensures ok { IfOk result (λ c. or_bad (command_words kind (left words.entry)) ≡ Ok (command_of c)) }
    ensures fault { IfErr result (λ e. e ≢ Refusal.OutOfMemory → or_bad (command_words kind (left words.entry)) ≡ Err e) }
    ensures memory { IfErr result (λ e. e ≡ Refusal.OutOfMemory → (is_some (command_words kind (left words.entry)) && is_digits_kind kind) ≡ true) }
{
    match kind {
        Some(Kind::Insert) => read_insert(alloc, words),
        Some(Kind::Add) => read_add(alloc, words),
        _ => read_plain(kind, words).ok_or(Refusal::BadLine),
    }
}
