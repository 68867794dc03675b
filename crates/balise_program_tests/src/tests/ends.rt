//! How a program ends.

use balise_program::{ArgsFault, Exit, Refusal, RunFault, exit_after_arguments, exit_after_run};
use std::process::Abort;

const FAULTS: &[(RunFault, Refusal)] = &[
    (RunFault::InputTooLong, Refusal::InputTooLong),
    (RunFault::OutOfMemory, Refusal::OutOfMemory),
    (RunFault::ReadFault, Refusal::ReadFault),
    (RunFault::WriteFault, Refusal::WriteFault),
];

fn check_fault(rt: &impl Abort, fault: RunFault, refusal: Refusal) {
    let exit = Exit {
        code: 3,
        fault: Some(refusal),
    };
    assert!(rt; exit_after_run(Err(fault), true) == exit);
    assert!(rt; exit_after_run(Err(fault), false) == exit);
}

#[test]
fn after_a_fault(rt: HostRuntime) {
    for (fault, refusal) in FAULTS {
        check_fault(&rt, *fault, *refusal);
    }
}

fn check_status(rt: &impl Abort, code: u8) {
    assert!(rt; exit_after_run(Ok(code), true) == Exit { code, fault: None });
    let unflushed = Exit {
        code: 3,
        fault: Some(Refusal::WriteFault),
    };
    assert!(rt; exit_after_run(Ok(code), false) == unflushed);
}

#[test]
fn after_a_run(rt: HostRuntime) {
    for code in [0, 1, 2] {
        check_status(&rt, code);
    }
}

#[test]
fn where_memory_runs_out_for_arguments(rt: HostRuntime) {
    let exit = Exit {
        code: 3,
        fault: Some(Refusal::OutOfMemory),
    };
    assert!(rt; exit_after_arguments(&ArgsFault::Memory) == exit);
}
