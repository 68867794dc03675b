//! Digits explained: what is printed for them.

use crate::tests::rows::{FAULTY, SOUND};
use balise_fields::{Counted, explain_line, put_explained};
use std::alloc::Global;
use std::process::Abort;

fn check_row(rt: &impl Abort, alloc: Global, digits: &str, fields: &str, refused: bool) {
    let mut writer = Counted::new(Vec::new(alloc));
    let explained = explain_line(alloc, digits.as_bytes()).expect(rt, "memory");
    assert!(rt; explained.is_refused() == refused);
    put_explained(&mut writer, &explained).expect(rt, "memory");
    assert!(rt; writer.inner().as_slice() == fields.as_bytes());
}

#[test]
fn sound_digits_are_explained(rt: HostRuntime) {
    for (digits, fields) in &SOUND {
        check_row(&rt, rt.alloc(), digits, fields, false);
    }
}

#[test]
fn faulty_digits_are_explained_up_to_the_fault(rt: HostRuntime) {
    for (digits, fields) in &FAULTY {
        check_row(&rt, rt.alloc(), digits, fields, true);
    }
}

#[test]
fn lines_of_a_plan_stay(rt: HostRuntime) {
    check_row(&rt, rt.alloc(), "plan 1", "plan 1\n", false);
    check_row(&rt, rt.alloc(), "group", "group\n", false);
}
