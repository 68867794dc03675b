//! The views of the largest telegram and of the largest group.

use crate::tests::groups::check_read;
use std::alloc::Global;
use std::process::Abort;

/// The digits after a head: 33 packets 44 of 23 bits. 830 bits have no room for more.
const REST: &str =
    "00a0324b100b9620172c402e58805cb100b9620172c402e58805cb100b9620172c402e58805cb100b9620172c402e58805cb100b9620172c402e58805cb100b9620172c402e58805cb100b9620172c402e58805cb100b9620172c402e58805cb100bfffffc";

fn push(rt: &impl Abort, text: &mut String, more: &str) {
    text.push_str(more).expect(rt, "memory");
}

fn push_number(rt: &impl Abort, alloc: Global, text: &mut String, number: u32) {
    push(
        rt,
        text,
        number.to_string(alloc).expect(rt, "memory").as_str(),
    );
}

/// Adds a word for each telegram. N_PIG, N_TOTAL and M_MCOUNT are in its first digits: M_MCOUNT is twice N_PIG.
fn push_telegrams(rt: &impl Abort, alloc: Global, text: &mut String, count: u32) {
    for pig in 0..count {
        push(rt, text, " a1");
        push_number(rt, alloc, text, pig);
        push(rt, text, if count == 1 { "00" } else { "e0" });
        push_number(rt, alloc, text, pig);
        push(rt, text, REST);
    }
}

fn push_packets(rt: &impl Abort, line: &mut String) {
    for place in 0..33 {
        if place > 0 {
            push(rt, line, ",");
        }
        push(
            rt,
            line,
            "{\"fields\":[[\"NID_PACKET\",44],[\"Q_DIR\",1],[\"L_PACKET\",23]],\"known\":false}",
        );
    }
}

fn push_telegram(rt: &impl Abort, alloc: Global, line: &mut String, pig: u32) {
    push(rt, line, "{\"bits\":830,\"m_dup\":0,\"m_mcount\":");
    push_number(rt, alloc, line, pig.saturating_mul(2));
    push(rt, line, ",\"m_version\":33,\"packets\":[");
    push_packets(rt, line);
    push(rt, line, "],\"q_link\":1,\"used\":817}");
}

/// Adds the view of a group of `count` telegrams.
fn push_view(rt: &impl Abort, alloc: Global, line: &mut String, count: u32) {
    push(rt, line, "{\"country\":5,\"number\":100,\"telegrams\":[");
    for pig in 0..count {
        if pig > 0 {
            push(rt, line, ",");
        }
        push_telegram(rt, alloc, line, pig);
    }
    push(rt, line, "]}");
}

fn check(rt: &impl Abort, alloc: Global, count: u32) {
    let mut text = String::new(alloc);
    push_telegrams(rt, alloc, &mut text, count);
    let mut line = String::new(alloc);
    push_view(rt, alloc, &mut line, count);
    check_read(rt, alloc, text.as_str(), line.as_str());
}

#[test]
fn most_packets_and_telegrams(rt: HostRuntime) {
    check(&rt, rt.alloc(), 1);
    check(&rt, rt.alloc(), 8);
}
