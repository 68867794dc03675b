//! Tests of what a program reports of its end and of its arguments.

use balise_arguments::flags;
use balise_program::{
    Counted, Exit, Refusal, exit_after_arguments, lend, report, show, stop_at_bad_text,
    stop_without_memory,
};
use std::alloc::Global;
use std::process::Abort;

type Text = Counted<Vec<u8>>;

fn text(alloc: Global) -> Text {
    Counted::new(Vec::new(alloc))
}

fn check(rt: &impl Abort, writer: &Text, wanted: &[u8]) {
    assert!(rt; writer.inner().as_slice() == wanted);
}

fn check_reports(rt: &impl Abort, errors: &mut Text) {
    let quiet = Exit {
        code: 1,
        fault: None,
    };
    assert!(rt; report(errors, quiet).is_ok());
    check(rt, errors, b"");
    let exit = Exit {
        code: 3,
        fault: Some(Refusal::ReadFault),
    };
    assert!(rt; report(errors, exit).is_ok());
    check(rt, errors, b"fault 31 ReadFault\n");
}

#[test]
fn a_fault_is_reported(rt: HostRuntime) {
    check_reports(&rt, &mut text(rt.alloc()));
}

fn check_stops(rt: &impl Abort, errors: &mut Text) {
    let exit = Exit {
        code: 3,
        fault: Some(Refusal::OutOfMemory),
    };
    assert!(rt; stop_without_memory(errors) == exit);
    let bad = Exit {
        code: 64,
        fault: None,
    };
    assert!(rt; stop_at_bad_text(errors) == bad);
    check(
        rt,
        errors,
        b"fault 30 OutOfMemory\nerror: an argument is not UTF-8\n",
    );
}

#[test]
fn it_stops_before_the_words(rt: HostRuntime) {
    check_stops(&rt, &mut text(rt.alloc()));
}

// Whether there is something in a text.
fn is_said(writer: &Text) -> bool {
    !writer.inner().as_slice().is_empty()
}

fn check_shown(rt: &impl Abort, alloc: Global, words: &[&str], code: u8) {
    let (mut writer, mut errors) = (text(alloc), text(alloc));
    match flags(alloc, words) {
        Ok(_) => assert!(rt; false),
        Err(fault) => {
            show(&fault, &mut writer, &mut errors);
            assert!(rt; exit_after_arguments(&fault) == Exit { code, fault: None });
        }
    }
    assert!(rt; is_said(&writer) == (code == 0));
    assert!(rt; is_said(&errors) == (code == 64));
}

#[test]
fn help_and_what_is_wrong(rt: HostRuntime) {
    check_shown(&rt, rt.alloc(), &["baliseplan", "--help"], 0);
    check_shown(&rt, rt.alloc(), &["baliseplan", "--other"], 64);
}

fn check_lent(rt: &impl Abort, alloc: Global, words: &mut Vec<String>) {
    for word in ["a", "", "words"] {
        let owned = String::from_str(alloc, word).expect(rt, "memory");
        words.push(owned).expect(rt, "memory");
    }
    let lent = lend(alloc, words).expect(rt, "memory");
    assert!(rt; lent.as_slice() == ["a", "", "words"].as_slice());
}

#[test]
fn words_are_lent(rt: HostRuntime) {
    check_lent(&rt, rt.alloc(), &mut Vec::new(rt.alloc()));
}
