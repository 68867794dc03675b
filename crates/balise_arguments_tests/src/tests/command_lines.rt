//! Tests of command lines that are made of common parts.

use balise_arguments::{ArgsFault, flag, is_used, plain_command};
use std::alloc::Global;
use std::process::Abort;

/// Whether the words have `--long`, of a program with that argument alone.
fn ask<'a>(rt: &impl Abort, alloc: Global, words: &'a [&'a str]) -> Result<bool, ArgsFault> {
    let command = plain_command(alloc, "tests", "Tests", "tests [--long]", "No more")
        .arg(flag(alloc, "long", "Says that it is long"))
        .expect(rt, "memory");
    match command.try_get_matches_from(words) {
        Ok(matches) => Ok(is_used(&matches, "long")),
        Err(error) => Err(ArgsFault::of(error)),
    }
}

#[test]
fn a_flag_is_there_or_not(rt: HostRuntime) {
    assert!(rt; matches!(ask(&rt, rt.alloc(), &["tests"]), Ok(false)));
    assert!(rt; matches!(ask(&rt, rt.alloc(), &["tests", "--long"]), Ok(true)));
}

#[test]
fn an_error_is_help_or_a_mistake(rt: HostRuntime) {
    assert!(rt;
        matches!(
            ask(&rt, rt.alloc(), &["tests", "-h"]),
            Err(ArgsFault::Help(_))
        )
    );
    assert!(rt;
        matches!(
            ask(&rt, rt.alloc(), &["tests", "--short"]),
            Err(ArgsFault::Other(_))
        )
    );
}
