//! The program as calls over memory, for C and all that can call C.
#![tactic(auto)]

ghost use Rattle.std.specs.Prelude.{◌≡◌, ◌≢◌, ◌<◌, ◌≤◌, pos};
ghost use Rattle.balise_c.specs.FactNumbers.{facts_of};
ghost use Rattle.balise_c.specs.FieldsOutcome.{FillsBy};
ghost use Rattle.balise_c.specs.FlagBits.{flags_of};
ghost use Rattle.balise_c.specs.Outcome.{Fills, Measures};
ghost use Rattle.balise_cli.specs.Asking.{asked_by, facts_asked};
ghost use Rattle.balise_fields_run.specs.declared.way.Way.TheVariants.{Explain, Spell};

// From the parameters of a call to a run.
mod fact_numbers;
mod flag_bits;
mod output_text;

// From a run to the answer of a call.
mod answer;
mod call;
mod copying;
mod fields;
mod handing_over;
#[cfg(test)]
mod tests;

use crate::answer::{fields_number, number_of};
use crate::call::{fill, measure};
use crate::fact_numbers::{FIRST_OTHER, facts_of};
use crate::fields::fill_with_fields;
use crate::flag_bits::{FIRST_UNKNOWN, flags_of};
use balise_cli::{asked_by, facts_asked};
use balise_fields_run::Way;
use std::alloc::Global;

/// The answer where a bit is set that is no flag, or a number of facts is none.
const USAGE: i32 = 64;

/// The number that `BALISEPLAN_ABI` of the header has to have.
const ABI: u32 = 1;

/// Which parameters and answers the calls have, so that a caller can compare it with its header.
#[unsafe(no_mangle)]
pub extern "C" fn baliseplan_abi() -> u32
    ensures { result ≡ 1 }
{
    ABI
}

/// Does what the program does, from memory to memory. Answers the exit status 0, 1 or 2, or a fault's number 29, 30 or
/// 32; then only a beginning of an output may be written. 32: the output is too small.
///
/// Flags are a sum of 1 quiet, 2 stop, 4 journal and 8 JSON. With any other bit it answers 64 and writes nothing.
#[unsafe(no_mangle)]
pub extern "C" fn baliseplan_run(
    alloc: Global,
    input: &[u8],
    flags: u32,
    output: &mut [u8],
    written: &mut usize,
) -> i32
    ensures known { flags < 16 → Fills (asked_by (flags_of flags)) input.now output.old output.new written.new result }
    ensures never { result ≢ pos 31 }
    ensures other { 16 ≤ flags → (result ≡ pos 64) × (written.new ≡ 0) × (output.new ≡ output.old) }
{
    if flags >= FIRST_UNKNOWN {
        *written = 0;
        return USAGE;
    }
    let asked = asked_by(flags_of(flags));
    number_of(fill(alloc, input, asked, output, written))
}

/// Counts what `baliseplan_run` would write with enough room, and answers as that would. Never 32.
///
/// It is a whole run, whose output it keeps in memory until it returns.
#[unsafe(no_mangle)]
pub extern "C" fn baliseplan_size(alloc: Global, input: &[u8], flags: u32, size: &mut usize) -> i32
    ensures known { flags < 16 → Measures (asked_by (flags_of flags)) input.now size.new result }
    ensures never { (result ≢ pos 31) × (result ≢ pos 32) }
    ensures other { 16 ≤ flags → (result ≡ pos 64) × (size.new ≡ 0) }
{
    if flags >= FIRST_UNKNOWN {
        *size = 0;
        return USAGE;
    }
    number_of(measure(alloc, input, asked_by(flags_of(flags)), size))
}

/// Does what the program `balisefacts` does, from memory to memory: runs as a quiet `baliseplan_run`, and writes facts of
/// the session that stands then in place of the plan. `what` is 0 for those of all edits that stand, 1 for those of the
/// edit of the serial, and 2 for the tags; only 1 looks at the serial. Any other answers 64 and writes nothing.
///
/// All else is as for `baliseplan_run`.
#[unsafe(no_mangle)]
pub extern "C" fn baliseplan_facts(
    alloc: Global,
    input: &[u8],
    what: u32,
    serial: u32,
    output: &mut [u8],
    written: &mut usize,
) -> i32
    ensures known { what < 3 → Fills (facts_asked (facts_of what serial)) input.now output.old output.new written.new result }
    ensures never { result ≢ pos 31 }
    ensures other { 3 ≤ what → (result ≡ pos 64) × (written.new ≡ 0) × (output.new ≡ output.old) }
{
    if what >= FIRST_OTHER {
        *written = 0;
        return USAGE;
    }
    let asked = facts_asked(facts_of(what, serial));
    number_of(fill(alloc, input, asked, output, written))
}

/// Does what the program `balisefields` does, from memory to memory: writes the fields of the digits of telegrams and
/// packets. Answers the exit status 0 or 1, or a fault's number 29, 30 or 32; then only a beginning of an output may be
/// written. 32: the output is too small.
#[unsafe(no_mangle)]
pub extern "C" fn baliseplan_explain(
    alloc: Global,
    input: &[u8],
    output: &mut [u8],
    written: &mut usize,
) -> i32
    ensures fills { FillsBy Explain input.now output.old output.new written.new result }
    ensures never { result ≢ pos 31 }
{
    fields_number(fill_with_fields(alloc, Way::Explain, input, output, written))
}

/// Does what `balisefields --spell` does, from memory to memory: writes the digits of telegrams and packets whose fields
/// are given. Answers as `baliseplan_explain`.
#[unsafe(no_mangle)]
pub extern "C" fn baliseplan_spell(
    alloc: Global,
    input: &[u8],
    output: &mut [u8],
    written: &mut usize,
) -> i32
    ensures fills { FillsBy Spell input.now output.old output.new written.new result }
    ensures never { result ≢ pos 31 }
{
    fields_number(fill_with_fields(alloc, Way::Spell, input, output, written))
}
