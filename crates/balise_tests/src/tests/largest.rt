//! The largest telegram and the largest group, read, printed, viewed, turned and added.

use crate::tests::runs::{JOURNAL, PLAIN, check_at_once, push};
use balise_cli::{Flags, Status};
use std::alloc::Global;
use std::process::Abort;

const VIEW: Flags = Flags {
    json: true,
    ..PLAIN
};

/// The first digits of a telegram, with N_PIG, N_TOTAL and M_MCOUNT in them, and M_MCOUNT.
type Head = (&'static str, &'static str);

const ALONE: &[Head] = &[("a10000", "0")];

const EIGHT: &[Head] = &[
    ("a10e00", "0"),
    ("a11e01", "2"),
    ("a12e02", "4"),
    ("a13e03", "6"),
    ("a14e04", "8"),
    ("a15e05", "10"),
    ("a16e06", "12"),
    ("a17e07", "14"),
];

/// The heads of `EIGHT` in reverse order.
const REVERSED: &[Head] = &[
    ("a10e07", "14"),
    ("a11e06", "12"),
    ("a12e05", "10"),
    ("a13e04", "8"),
    ("a14e03", "6"),
    ("a15e02", "4"),
    ("a16e01", "2"),
    ("a17e00", "0"),
];

/// 33 packets 44 of 23 bits: the digits after a head, and how each packet is viewed. 830 bits have no room for more.
struct Filling {
    digits: &'static str,
    view: &'static str,
}

/// With Q_DIR 1.
const NOMINAL: Filling = Filling {
    digits: "00a0324b100b9620172c402e58805cb100b9620172c402e58805cb100b9620172c402e58805cb100b9620172c402e58805cb100b9620172c402e58805cb100b9620172c402e58805cb100b9620172c402e58805cb100b9620172c402e58805cb100bfffffc",
    view: "{\"fields\":[[\"NID_PACKET\",44],[\"Q_DIR\",1],[\"L_PACKET\",23]],\"known\":false}",
};

/// With Q_DIR 0.
const REVERSE: Filling = Filling {
    digits: "00a0324b000b9600172c002e58005cb000b9600172c002e58005cb000b9600172c002e58005cb000b9600172c002e58005cb000b9600172c002e58005cb000b9600172c002e58005cb000b9600172c002e58005cb000b9600172c002e58005cb000bfffffc",
    view: "{\"fields\":[[\"NID_PACKET\",44],[\"Q_DIR\",0],[\"L_PACKET\",23]],\"known\":false}",
};

/// A group with a link that names the group of eight, the same after the turn, and how it is viewed then.
const LINK: &str = "group\na1007f80a032c15022a07d00326301ffffffffffffffffffffffc0\n";

const TURNED_LINK: &str = "group\na1007f80a032c15022a07d00322301ffffffffffffffffffffffc0\n";

const TURNED_LINK_VIEW: &str =
    "{\"country\":5,\"number\":101,\"telegrams\":[{\"bits\":210,\"m_dup\":0,\"m_mcount\":255,\"m_version\":33,\"packets\":[{\"fields\":[[\"NID_PACKET\",5],[\"Q_DIR\",1],[\"L_PACKET\",69],[\"Q_SCALE\",1],[\"D_LINK\",500],[\"Q_NEWCOUNTRY\",0],[\"NID_BG\",100],[\"Q_LINKORIENTATION\",0],[\"Q_LINKREACTION\",2],[\"Q_LOCACC\",12],[\"N_ITER\",0]],\"known\":true}],\"q_link\":1,\"used\":127}]}\n";

const PIGS: &[&str] = &["0", "1", "2", "3", "4", "5", "6", "7"];

const PLACES: &[&str] = &[
    "0", "1", "2", "3", "4", "5", "6", "7", "8", "9", "10", "11", "12", "13", "14", "15", "16",
    "17", "18", "19", "20", "21", "22", "23", "24", "25", "26", "27", "28", "29", "30", "31", "32",
];

fn push_telegram(rt: &impl Abort, text: &mut String, head: &str, filling: &Filling) {
    push(rt, text, head);
    push(rt, text, filling.digits);
}

/// Adds the line `group` and those of its telegrams.
fn push_group(rt: &impl Abort, text: &mut String, heads: &[Head], filling: &Filling) {
    push(rt, text, "group\n");
    for (head, _) in heads.iter() {
        push_telegram(rt, text, *head, filling);
        push(rt, text, "\n");
    }
}

/// Adds a space and a word for each telegram.
fn push_words(rt: &impl Abort, text: &mut String, heads: &[Head]) {
    for (head, _) in heads.iter() {
        push(rt, text, " ");
        push_telegram(rt, text, *head, &NOMINAL);
    }
}

fn push_packet_views(rt: &impl Abort, text: &mut String, packet: &str) {
    for (place, _) in PLACES.iter().enumerate() {
        if place > 0 {
            push(rt, text, ",");
        }
        push(rt, text, packet);
    }
}

fn push_telegram_view(rt: &impl Abort, text: &mut String, count: &str, packet: &str) {
    push(rt, text, "{\"bits\":830,\"m_dup\":0,\"m_mcount\":");
    push(rt, text, count);
    push(rt, text, ",\"m_version\":33,\"packets\":[");
    push_packet_views(rt, text, packet);
    push(rt, text, "],\"q_link\":1,\"used\":817}");
}

/// Adds the line of a group in the view.
fn push_view(rt: &impl Abort, text: &mut String, heads: &[Head], filling: &Filling) {
    push(rt, text, "{\"country\":5,\"number\":100,\"telegrams\":[");
    for (place, (_, count)) in heads.iter().enumerate() {
        if place > 0 {
            push(rt, text, ",");
        }
        push_telegram_view(rt, text, *count, filling.view);
    }
    push(rt, text, "]}\n");
}

/// That a run over an input, which stands before its output, is accepted.
fn check_texts(rt: &impl Abort, alloc: Global, flags: Flags, texts: &(String, String)) {
    let texts = (texts.0.as_str(), texts.1.as_str());
    check_at_once(rt, alloc, flags, texts, Status::Accepted);
}

/// A telegram that is read and printed, with its view.
fn push_alone(rt: &impl Abort, input: &mut String, output: &mut String) {
    push(rt, input, "plan 1\n");
    push_group(rt, input, ALONE, &NOMINAL);
    push(rt, input, "edits\n");
    push(rt, output, "plan 1\n");
    push_group(rt, output, ALONE, &NOMINAL);
    push_view(rt, output, ALONE, &NOMINAL);
}

#[test]
fn most_packets(rt: HostRuntime) {
    let mut texts = (String::new(rt.alloc()), String::new(rt.alloc()));
    push_alone(&rt, &mut texts.0, &mut texts.1);
    check_texts(&rt, rt.alloc(), VIEW, &texts);
}

fn push_reviews(rt: &impl Abort, text: &mut String) {
    for pig in PIGS.iter() {
        for place in PLACES.iter() {
            push(rt, text, "review 5.100 ");
            push(rt, text, *pig);
            push(rt, text, " ");
            push(rt, text, *place);
            push(rt, text, " opaque 44\n");
        }
    }
}

/// A group of eight that is turned, with its reviews and its view.
fn push_turned(rt: &impl Abort, input: &mut String, output: &mut String) {
    push(rt, input, "plan 1\n");
    push_group(rt, input, EIGHT, &NOMINAL);
    push(rt, input, LINK);
    push(rt, input, "edits\nturn 5.100\n");
    push(rt, output, "ok 1\n");
    push_reviews(rt, output);
    push(rt, output, "review 5.101 0 0 D_LINK 0 500\nplan 1\n");
    push_group(rt, output, REVERSED, &REVERSE);
    push(rt, output, TURNED_LINK);
    push_view(rt, output, REVERSED, &REVERSE);
    push(rt, output, TURNED_LINK_VIEW);
}

#[test]
fn most_reviews(rt: HostRuntime) {
    let mut texts = (String::new(rt.alloc()), String::new(rt.alloc()));
    push_turned(&rt, &mut texts.0, &mut texts.1);
    check_texts(&rt, rt.alloc(), VIEW, &texts);
}

/// A group of eight that is added, with the journal. The input begins with this, and the output with the reply.
fn push_added(rt: &impl Abort, input: &mut String, output: &mut String, front: &str, reply: &str) {
    push(rt, input, front);
    push_words(rt, input, EIGHT);
    push(rt, output, reply);
    push(rt, output, "plan 1\n");
    push_group(rt, output, EIGHT, &NOMINAL);
    push(rt, output, "journal 2 2\n1 add ^");
    push_words(rt, output, EIGHT);
    push(rt, output, "\n");
}

/// That a run over the line of eight telegrams, after a front and before an end, has this reply and prints them.
fn check_added(rt: &impl Abort, alloc: Global, front: &str, end: &str, reply: &str) {
    let mut texts = (String::new(alloc), String::new(alloc));
    push_added(rt, &mut texts.0, &mut texts.1, front, reply);
    push(rt, &mut texts.0, end);
    check_texts(rt, alloc, JOURNAL, &texts);
}

#[test]
fn eight_telegrams_are_added(rt: HostRuntime) {
    check_added(&rt, rt.alloc(), "plan 1\nedits\nadd 0", "", "ok 1\n");
}

#[test]
fn eight_telegrams_are_in_a_journal(rt: HostRuntime) {
    check_added(
        &rt,
        rt.alloc(),
        "plan 1\njournal 2 2\n1 add ^",
        "\nedits\n",
        "",
    );
}

/// What stands before nine telegrams and after them, with what is printed and how the run ends.
const NINE: &[(&str, &str, &str, Status)] = &[
    (
        "plan 1\nedits\nadd 0",
        "\n",
        "refused 10 GroupSize\nplan 1\n",
        Status::SomeRefused,
    ),
    (
        "plan 1\nedits\nadd 1",
        "\n",
        "refused 14 NoSuchGroup\nplan 1\n",
        Status::SomeRefused,
    ),
    (
        "plan 1\njournal 1 2\n1 add ^",
        "\nedits\n",
        "bad 3 27 JournalMismatch\n",
        Status::BadInput,
    ),
];

fn push_nine(rt: &impl Abort, input: &mut String, front: &str, end: &str) {
    push(rt, input, front);
    push_words(rt, input, EIGHT);
    push_words(rt, input, ALONE);
    push(rt, input, end);
}

fn check_nine(rt: &impl Abort, alloc: Global, row: &(&str, &str, &str, Status)) {
    let (front, end, output, status) = *row;
    let mut input = String::new(alloc);
    push_nine(rt, &mut input, front, end);
    check_at_once(rt, alloc, PLAIN, (input.as_str(), output), status);
}

#[test]
fn nine_telegrams(rt: HostRuntime) {
    for row in NINE.iter() {
        check_nine(&rt, rt.alloc(), row);
    }
}

/// A line with the most telegrams of 210 bits that it can have: 74.
#[test]
fn a_line_of_telegrams(rt: HostRuntime) {
    let mut input = String::new(rt.alloc());
    push_line(&rt, &mut input);
    let texts = (input.as_str(), "refused 10 GroupSize\nplan 1\n");
    check_at_once(&rt, rt.alloc(), PLAIN, texts, Status::SomeRefused);
}

fn push_line(rt: &impl Abort, input: &mut String) {
    push(rt, input, "plan 1\nedits\nadd 0");
    for _ in 0..74 {
        push(
            rt,
            input,
            " a1007f80a0327fffffffffffffffffffffffffffffffffffffffc0",
        );
    }
}
