//! The exit status and the fault of each way in which a run ends.

use balise_cli::{Exit, Refusal, RunFault, Status, exit_of};
use std::process::Abort;

const STATUSES: &[(Status, u8)] = &[
    (Status::Accepted, 0),
    (Status::SomeRefused, 1),
    (Status::BadInput, 2),
];

const FAULTS: &[(RunFault, Refusal)] = &[
    (RunFault::InputTooLong, Refusal::InputTooLong),
    (RunFault::OutOfMemory, Refusal::OutOfMemory),
    (RunFault::ReadFault, Refusal::ReadFault),
    (RunFault::WriteFault, Refusal::WriteFault),
];

/// That a run ends so, with its output flushed or not.
fn check_exit(rt: &impl Abort, ended: Result<Status, RunFault>, is_flushed: bool, exit: Exit) {
    assert!(rt; exit_of(ended, is_flushed) == exit);
}

fn check_status(rt: &impl Abort, status: Status, code: u8) {
    assert!(rt; status.code() == code);
    check_exit(rt, Ok(status), true, Exit { code, fault: None });
    let unflushed = Exit {
        code: 3,
        fault: Some(Refusal::WriteFault),
    };
    check_exit(rt, Ok(status), false, unflushed);
}

fn check_fault(rt: &impl Abort, fault: RunFault, refusal: Refusal) {
    assert!(rt; fault.refusal() == refusal);
    let exit = Exit {
        code: 3,
        fault: Some(refusal),
    };
    check_exit(rt, Err(fault), true, exit);
    check_exit(rt, Err(fault), false, exit);
}

#[test]
fn each_status(rt: HostRuntime) {
    for (status, code) in STATUSES.iter() {
        check_status(&rt, *status, *code);
    }
}

/// The fault of the run is reported even if the output couldn't be flushed.
#[test]
fn each_fault(rt: HostRuntime) {
    for (fault, refusal) in FAULTS.iter() {
        check_fault(&rt, *fault, *refusal);
    }
}
