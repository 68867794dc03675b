//! What the words of an entry of a journal say.
#![tactic(auto, using(crate::proofs::Taking::map_at_end))]

ghost use Rattle.std.specs.Prelude.{◌≡◌, ◌≢◌, ◌&&◌, is_some, Err, IfErr, IfOk, Ok, option_map, true};
ghost use Rattle.balise_commands.specs.Lines.{line_in};
ghost use Rattle.balise_bits.specs.Faults.{refusal_of};
ghost use Rattle.balise_text.specs.Commands.{is_digits_kind};
ghost use Rattle.balise_text.specs.JournalLines.{add_entry, delete_entry, drop_entry, entry_words, insert_entry, move_entry, renumber_entry, set_entry, set_head_entry, told, turn_entry};
ghost use Rattle.balise_text.specs.Left.{left};
ghost use Rattle.balise_text.specs.Words.{or_bad};

use crate::digit_words::read_telegrams;
use crate::kind::Kind;
use crate::words::Words;
use balise_commands::{Bits, BitsFault, Line, LineEdit, Noted};
use balise_rules::Refusal;
use std::alloc::Global;

// The refusal of a telegram's digits in a journal.
fn told(fault: BitsFault) -> Refusal
    ensures told { fault ≢ BitsFault.OutOfMemory → result ≡ told (refusal_of fault) }
    ensures memory { fault ≡ BitsFault.OutOfMemory → result ≡ Refusal.OutOfMemory }
{
    match fault {
        BitsFault::OutOfMemory => Refusal::OutOfMemory,
        BitsFault::BadHex => Refusal::BadHex,
        _ => Refusal::JournalMismatch,
    }
}

fn read_set(serial: u32, words: Words) -> Option<Line>
    ensures { option_map line_in result ≡ set_entry serial (left words.entry) }
{
    let ((g, t, p), words) = words.packet_path()?;
    let (var, words) = words.var()?;
    let (k, words) = words.number()?;
    let (value, words) = words.number()?;
    let (old, words) = words.number()?;
    words.end_with(Line {
        serial,
        edit: LineEdit::SetVar {
            g,
            t,
            p,
            var,
            k,
            value,
        },
        noted: Noted::Value(old),
    })
}

fn read_set_head(serial: u32, words: Words) -> Option<Line>
    ensures { option_map line_in result ≡ set_head_entry serial (left words.entry) }
{
    let ((g, t), words) = words.telegram_path()?;
    let (var, words) = words.var()?;
    let (value, words) = words.number()?;
    let (old, words) = words.number()?;
    words.end_with(Line {
        serial,
        edit: LineEdit::SetHead { g, t, var, value },
        noted: Noted::Value(old),
    })
}

fn read_delete(serial: u32, words: Words) -> Option<Line>
    ensures { option_map line_in result ≡ delete_entry serial (left words.entry) }
{
    let ((g, t, p), words) = words.packet_path()?;
    let (before, words) = words.neighbour()?;
    words.end_with(Line {
        serial,
        edit: LineEdit::DeletePacket { g, t, p },
        noted: Noted::BeforePacket(before),
    })
}

fn read_move(serial: u32, words: Words) -> Option<Line>
    ensures { option_map line_in result ≡ move_entry serial (left words.entry) }
{
    let ((g, t, p), words) = words.packet_path()?;
    let (after, words) = words.anchor()?;
    let (before, words) = words.neighbour()?;
    words.end_with(Line {
        serial,
        edit: LineEdit::MovePacket { g, t, p, after },
        noted: Noted::BeforePacket(before),
    })
}

fn read_drop(serial: u32, words: Words) -> Option<Line>
    ensures { option_map line_in result ≡ drop_entry serial (left words.entry) }
{
    let (g, words) = words.tag()?;
    let (before, words) = words.neighbour()?;
    words.end_with(Line {
        serial,
        edit: LineEdit::DropGroup { g },
        noted: Noted::BeforeGroup(before),
    })
}

fn read_renumber(serial: u32, words: Words) -> Option<Line>
    ensures { option_map line_in result ≡ renumber_entry serial (left words.entry) }
{
    let (g, words) = words.tag()?;
    let (number, words) = words.number()?;
    let (old, words) = words.number()?;
    words.end_with(Line {
        serial,
        edit: LineEdit::Renumber { g, number },
        noted: Noted::Number(old),
    })
}

fn read_turn(serial: u32, words: Words) -> Option<Line>
    ensures { option_map line_in result ≡ turn_entry serial (left words.entry) }
{
    let (g, words) = words.tag()?;
    words.end_with(Line {
        serial,
        edit: LineEdit::TurnGroup { g },
        noted: Noted::Nothing,
    })
}

fn read_insert(alloc: Global, serial: u32, words: Words) -> Result<Line, Refusal>
    ensures ok { IfOk result (λ l. or_bad (insert_entry serial (left words.entry)) ≡ Ok (line_in l)) }
    ensures fault { IfErr result (λ e. e ≢ Refusal.OutOfMemory → or_bad (insert_entry serial (left words.entry)) ≡ Err e) }
    ensures memory { IfErr result (λ e. e ≡ Refusal.OutOfMemory → is_some (insert_entry serial (left words.entry)) ≡ true) }
{
    let Some(((g, t), words)) = words.telegram_path() else {
        return Err(Refusal::BadLine);
    };
    let Some((after, words)) = words.anchor() else {
        return Err(Refusal::BadLine);
    };
    let Some((digits, words)) = words.some_word() else {
        return Err(Refusal::BadLine);
    };
    if !words.is_over() {
        return Err(Refusal::BadLine);
    }
    match Bits::digits_in_bytes(alloc, digits) {
        Ok(packet) => Ok(Line {
            serial,
            edit: LineEdit::InsertPacket {
                g,
                t,
                after,
                packet,
            },
            noted: Noted::Nothing,
        }),
        Err(fault) => Err(fault.refusal()),
    }
}

fn read_add(alloc: Global, serial: u32, words: Words) -> Result<Line, Refusal>
    ensures ok { IfOk result (λ l. or_bad (add_entry serial (left words.entry)) ≡ Ok (line_in l)) }
    ensures fault { IfErr result (λ e. e ≢ Refusal.OutOfMemory → or_bad (add_entry serial (left words.entry)) ≡ Err e) }
    ensures memory { IfErr result (λ e. e ≡ Refusal.OutOfMemory → is_some (add_entry serial (left words.entry)) ≡ true) }
{
    let Some((after, words)) = words.anchor() else {
        return Err(Refusal::BadLine);
    };
    if !words.have_digits() {
        return Err(Refusal::BadLine);
    }
    match read_telegrams(alloc, words) {
        Ok(telegrams) => Ok(Line {
            serial,
            edit: LineEdit::AddGroup { after, telegrams },
            noted: Noted::Nothing,
        }),
        Err(fault) => Err(told(fault)),
    }
}

/// What the words after the serial and the name of an entry say.
pub(crate) fn read_entry(
    alloc: Global,
    serial: u32,
    kind: Option<Kind>,
    words: Words,
) -> Result<Line, Refusal>
    ensures ok { IfOk result (λ l. or_bad (entry_words serial kind (left words.entry)) ≡ Ok (line_in l)) }
    ensures fault { IfErr result (λ e. e ≢ Refusal.OutOfMemory → or_bad (entry_words serial kind (left words.entry)) ≡ Err e) }
    ensures memory { IfErr result (λ e. e ≡ Refusal.OutOfMemory → (is_some (entry_words serial kind (left words.entry)) && is_digits_kind kind) ≡ true) }
{
    match kind {
        None => Err(Refusal::BadLine),
        Some(Kind::Set) => read_set(serial, words).ok_or(Refusal::BadLine),
        Some(Kind::SetHead) => read_set_head(serial, words).ok_or(Refusal::BadLine),
        Some(Kind::Insert) => read_insert(alloc, serial, words),
        Some(Kind::Delete) => read_delete(serial, words).ok_or(Refusal::BadLine),
        Some(Kind::Move) => read_move(serial, words).ok_or(Refusal::BadLine),
        Some(Kind::Add) => read_add(alloc, serial, words),
        Some(Kind::Drop) => read_drop(serial, words).ok_or(Refusal::BadLine),
        Some(Kind::Renumber) => read_renumber(serial, words).ok_or(Refusal::BadLine),
        Some(Kind::Turn) => read_turn(serial, words).ok_or(Refusal::BadLine),
    }
}
