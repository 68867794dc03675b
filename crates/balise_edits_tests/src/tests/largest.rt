//! The group that names the most, and the one with the longest review: eight telegrams of 830 bits.

ghost use Rattle.std.specs.Prelude.{◌≤◌, ℕ};
ghost use Rattle.balise_rules.specs.Accepting.{Unused};

use crate::tests::doing::{follow, made, read, shows, telegrams};
use crate::tests::edits::{EMPTY, FIRST, id};
use crate::tests::places::identity;
use balise_edits::{
    Bits, Edit, Entry, Id, Path, Plan, ReviewLine, Reviewed, Tag, Var, needed_places, review,
};
use std::alloc::Global;
use std::process::Abort;

/// The first digits of the eight telegrams, with N_PIG and N_TOTAL in them.
const HEADS: &[&str] = &[
    "a10e", "a11e", "a12e", "a13e", "a14e", "a15e", "a16e", "a17e",
];

/// The digits after those, of 5.101: twenty packets 136 that each name 5.100. 830 bits have no room for a further name.
const NAMES: &str =
    "0000a032e21013006488404c019221013006488404c019221013006488404c019221013006488404c019221013006488404c019221013006488404c019221013006488404c019221013006488404c019221013006488404c019221013006488404c0193ffffc";

/// The digits of `NAMES` in a group that is turned.
const NAMES_TURNED: &str =
    "0000a032e20013006488004c019220013006488004c019220013006488004c019220013006488004c019220013006488004c019220013006488004c019220013006488004c019220013006488004c019220013006488004c019220013006488004c0193ffffc";

/// The telegrams of the eight that end with these digits.
fn eight(rt: &impl Abort, alloc: Global, digits: &str) -> Vec<Bits> {
    let mut text = String::new(alloc);
    for head in HEADS.iter() {
        text.push_str(*head).expect(rt, "memory");
        text.push_str(digits).expect(rt, "memory");
        text.push_str(" ").expect(rt, "memory");
    }
    telegrams(rt, alloc, text.as_str())
}

// That a plan shows an empty group and then these eight.
fn check_shown(rt: &impl Abort, alloc: Global, plan: &Plan, digits: &str) {
    let mut groups = Vec::new(alloc);
    groups
        .push(telegrams(rt, alloc, EMPTY))
        .expect(rt, "memory");
    groups.push(eight(rt, alloc, digits)).expect(rt, "memory");
    assert!(rt; shows(rt, plan, &groups));
}

/// Adds the group, turns it and drops it, each done, taken back and done again.
fn change(rt: &impl Abort, alloc: Global, plan: &mut Plan)
    requires { (n : ℕ) → 1 ≤ n → Unused n plan.old.groups }
{
    let after = Some(FIRST);
    let telegrams = eight(rt, alloc, NAMES);
    follow(rt, plan, 1, Edit::AddGroup { after, telegrams }, Ok(()));
    check_shown(rt, alloc, plan, NAMES);
    let g = Tag::Fresh(1);
    follow(rt, plan, 2, Edit::TurnGroup { g }, Ok(()));
    check_shown(rt, alloc, plan, NAMES_TURNED);
    check_names(rt, &made(rt, plan, 3, Edit::DropGroup { g }));
    assert!(rt; plan.count() == 1);
}

// That an entry and its copy need 160 times the one identity.
fn check_names(rt: &impl Abort, entry: &Entry) {
    check_needed(rt, entry);
    check_needed(rt, &entry.copy().expect(rt, "a copy"));
}

fn check_needed(rt: &impl Abort, entry: &Entry) {
    let places = needed_places(entry).expect(rt, "places");
    assert!(rt; places.len() == 160);
    for place in &places {
        assert!(rt; *place == identity!(5, 100));
    }
}

#[test]
fn names_the_most(rt: HostRuntime) {
    let alloc = rt.alloc();
    let mut plan = read(&rt, alloc, &[EMPTY]);
    change(&rt, alloc, &mut plan);
}

fn push(rt: &impl Abort, lines: &mut Vec<ReviewLine>, pig: u32, k: u32) {
    assert!(rt; k < 19);
    let line = ReviewLine {
        id: id(101),
        pig,
        pkt: 0,
        what: Reviewed::Field(Var::DLink, k, 100 + k),
    };
    lines.push(line).expect(rt, "memory");
}

// Each distance of the eight.
fn push_distances(rt: &impl Abort, lines: &mut Vec<ReviewLine>) {
    for pig in 0..8 {
        for k in 0..19 {
            push(rt, lines, pig, k);
        }
    }
}

// Each distance of a link to the group, and the one after it.
fn push_links(rt: &impl Abort, lines: &mut Vec<ReviewLine>) {
    for pig in 0..8 {
        for k in 0..18 {
            push(rt, lines, pig, k);
            push(rt, lines, pig, k + 1);
        }
        push(rt, lines, pig, 18);
    }
}

fn check_review(rt: &impl Abort, alloc: Global, plan: &Plan) {
    let mut expected = Vec::new(alloc);
    push_distances(rt, &mut expected);
    push_links(rt, &mut expected);
    let lines = review(plan, FIRST).expect(rt, "lines");
    assert!(rt; lines.len() == 448);
    assert!(rt; lines == expected);
}

/// A packet 5 with nineteen links to the group itself, 5.101, at D_LINK 100 to 118.
const LINKS: &str =
    "0000a032c1518180190032c3240194032c30033006586006700cb0c00d001961801a4032c30035006586006b00cb0c00d801961801b4032c30037006586006f00cb0c00e001961801c4032c30039006586007300cb0c00e801961801d4032c3003b0065867fc";

#[test]
fn has_the_longest_review(rt: HostRuntime) {
    let alloc = rt.alloc();
    let mut groups = Vec::new(alloc);
    groups.push(eight(&rt, alloc, LINKS)).expect(&rt, "memory");
    let plan = Plan::read(alloc, groups).expect(&rt, "a plan");
    check_review(&rt, alloc, &plan);
}
