//! What the view of a group prints: worked rows, computed by a program that shares nothing with this one.

use balise_bits::Bits;
use balise_plan::{Group, GroupTag, PacketTag, Plan, Spot};
use balise_view::group_line;
use std::alloc::Global;
use std::process::Abort;

fn push_words(rt: &impl Abort, alloc: Global, telegrams: &mut Vec<Bits>, text: &str) {
    for word in text.split_whitespace() {
        telegrams
            .push(bits_of(rt, alloc, word))
            .expect(rt, "memory");
    }
}

fn bits_of(rt: &impl Abort, alloc: Global, digits: &str) -> Bits {
    let width = if digits.len() == 208 { 830 } else { 210 };
    Bits::from_hex(alloc, digits, width).expect(rt, "digits")
}

/// The group of these telegrams, whose digits stand apart by a space.
fn read(rt: &impl Abort, alloc: Global, text: &str) -> Group {
    let mut telegrams = Vec::new(alloc);
    push_words(rt, alloc, &mut telegrams, text);
    Group::read(alloc, telegrams).expect(rt, "a group")
}

fn check_line(rt: &impl Abort, alloc: Global, group: &Group, line: &str) {
    let shown = group_line(alloc, group).expect(rt, "memory");
    check_shown(rt, shown.as_str(), line);
}

fn check_shown(rt: &impl Abort, shown: &str, line: &str) {
    assert!(rt; shown == line);
}

/// That the group of these telegrams is shown by this line.
pub(crate) fn check_read(rt: &impl Abort, alloc: Global, text: &str, line: &str) {
    let group = read(rt, alloc, text);
    check_line(rt, alloc, &group, line);
}

/// Groups of one telegram, and one of three, each with its line.
const GROUPS: &[(&str, &str)] = &[
    // no packet
    (
        "a1007f80a0327fffffffffffffffffffffffffffffffffffffffc0",
        "{\"country\":5,\"number\":100,\"telegrams\":[{\"bits\":210,\"m_dup\":0,\"m_mcount\":255,\"m_version\":33,\"packets\":[],\"q_link\":1,\"used\":58}]}",
    ),
    // packet 66
    (
        "a1007f80a03250900f84ffffffffffffffffffffffffffffffffc0",
        "{\"country\":5,\"number\":100,\"telegrams\":[{\"bits\":210,\"m_dup\":0,\"m_mcount\":255,\"m_version\":33,\"packets\":[{\"fields\":[[\"NID_PACKET\",66],[\"Q_DIR\",1],[\"L_PACKET\",31],[\"NID_TSR\",9]],\"known\":true}],\"q_link\":1,\"used\":89}]}",
    ),
    // packet 44, kept bit for bit, in 830 bits
    (
        "a1007f80a0324b0010697ffffffffffffffffffffffffffffffffffffffffffffffffffffffffffffffffffffffffffffffffffffffffffffffffffffffffffffffffffffffffffffffffffffffffffffffffffffffffffffffffffffffffffffffffffffffffffc",
        "{\"country\":5,\"number\":100,\"telegrams\":[{\"bits\":830,\"m_dup\":0,\"m_mcount\":255,\"m_version\":33,\"packets\":[{\"fields\":[[\"NID_PACKET\",44],[\"Q_DIR\",0],[\"L_PACKET\",32]],\"known\":false}],\"q_link\":1,\"used\":90}]}",
    ),
    // packet 5, its first element in another country
    (
        "a1007f80a03341503b204b20300c88c0819000c98cffffffffffc0",
        "{\"country\":5,\"number\":102,\"telegrams\":[{\"bits\":210,\"m_dup\":0,\"m_mcount\":255,\"m_version\":33,\"packets\":[{\"fields\":[[\"NID_PACKET\",5],[\"Q_DIR\",1],[\"L_PACKET\",118],[\"Q_SCALE\",1],[\"D_LINK\",300],[\"Q_NEWCOUNTRY\",1],[\"NID_C\",6],[\"NID_BG\",100],[\"Q_LINKORIENTATION\",0],[\"Q_LINKREACTION\",2],[\"Q_LOCACC\",12],[\"N_ITER\",1],[\"D_LINK\",400],[\"Q_NEWCOUNTRY\",0],[\"NID_BG\",100],[\"Q_LINKORIENTATION\",1],[\"Q_LINKREACTION\",2],[\"Q_LOCACC\",12]],\"known\":true}],\"q_link\":1,\"used\":176}]}",
    ),
    // packet 136
    (
        "a1007f80a033e210130064ffffffffffffffffffffffffffffffc0",
        "{\"country\":5,\"number\":103,\"telegrams\":[{\"bits\":210,\"m_dup\":0,\"m_mcount\":255,\"m_version\":33,\"packets\":[{\"fields\":[[\"NID_PACKET\",136],[\"Q_DIR\",1],[\"L_PACKET\",38],[\"Q_NEWCOUNTRY\",0],[\"NID_BG\",100]],\"known\":true}],\"q_link\":1,\"used\":96}]}",
    ),
    // packet 27 in version 33, of a group that isn't linked
    (
        "a1007f80a03206d023a04b084291407fffffffffffffffffffffc0",
        "{\"country\":5,\"number\":100,\"telegrams\":[{\"bits\":210,\"m_dup\":0,\"m_mcount\":255,\"m_version\":33,\"packets\":[{\"fields\":[[\"NID_PACKET\",27],[\"Q_DIR\",1],[\"L_PACKET\",71],[\"Q_SCALE\",1],[\"D_STATIC\",300],[\"V_STATIC\",16],[\"Q_FRONT\",1],[\"N_ITER\",1],[\"Q_DIFF\",1],[\"NC_DIFF\",2],[\"V_DIFF\",20],[\"N_ITER\",0]],\"known\":true}],\"q_link\":0,\"used\":129}]}",
    ),
    // and in version 16, which doesn't know it
    (
        "90007f80a03246d023a04b084291407fffffffffffffffffffffc0",
        "{\"country\":5,\"number\":100,\"telegrams\":[{\"bits\":210,\"m_dup\":0,\"m_mcount\":255,\"m_version\":16,\"packets\":[{\"fields\":[[\"NID_PACKET\",27],[\"Q_DIR\",1],[\"L_PACKET\",71]],\"known\":false}],\"q_link\":1,\"used\":129}]}",
    ),
    // three telegrams
    (
        "a104ff80a032505023a0a0320096047fffffffffffffffffffffc0 a1157f80a0324b0010697fffffffffffffffffffffffffffffffc0 a1247f80a0327fffffffffffffffffffffffffffffffffffffffc0",
        "{\"country\":5,\"number\":100,\"telegrams\":[{\"bits\":210,\"m_dup\":1,\"m_mcount\":255,\"m_version\":33,\"packets\":[{\"fields\":[[\"NID_PACKET\",65],[\"Q_DIR\",1],[\"L_PACKET\",71],[\"Q_SCALE\",1],[\"NID_TSR\",5],[\"D_TSR\",200],[\"L_TSR\",300],[\"Q_FRONT\",0],[\"V_TSR\",8]],\"known\":true}],\"q_link\":1,\"used\":129},{\"bits\":210,\"m_dup\":2,\"m_mcount\":255,\"m_version\":33,\"packets\":[{\"fields\":[[\"NID_PACKET\",44],[\"Q_DIR\",0],[\"L_PACKET\",32]],\"known\":false}],\"q_link\":1,\"used\":90},{\"bits\":210,\"m_dup\":0,\"m_mcount\":255,\"m_version\":33,\"packets\":[],\"q_link\":1,\"used\":58}]}",
    ),
];

#[test]
fn lines_of_groups(rt: HostRuntime) {
    for (text, line) in GROUPS.iter() {
        check_read(&rt, rt.alloc(), *text, *line);
    }
}

const MOVED: &str =
    "{\"country\":5,\"number\":100,\"telegrams\":[{\"bits\":210,\"m_dup\":0,\"m_mcount\":255,\"m_version\":33,\"packets\":[{\"fields\":[[\"NID_PACKET\",66],[\"Q_DIR\",1],[\"L_PACKET\",31],[\"NID_TSR\",7]],\"known\":true},{\"fields\":[[\"NID_PACKET\",66],[\"Q_DIR\",1],[\"L_PACKET\",31],[\"NID_TSR\",5]],\"known\":true}],\"q_link\":1,\"used\":120}]}";

const GROUP: GroupTag = GroupTag::Base(0);

/// A plan of this one group.
fn plan_of(rt: &impl Abort, alloc: Global, text: &str) -> Plan {
    let mut telegrams = Vec::new(alloc);
    push_words(rt, alloc, &mut telegrams, text);
    let mut plan = Plan::empty(alloc);
    assert!(rt; plan.push(telegrams).is_ok());
    plan
}

/// Moves the second packet to the front.
fn move_second(rt: &impl Abort, plan: &mut Plan) {
    assert!(rt; plan.changes() < 1_000_000);
    let spot = Spot::After(None);
    assert!(rt;
        plan.shift_packet(GROUP, 0, PacketTag::Base(1), spot)
            .is_ok()
    );
}

fn check_moved(rt: &impl Abort, alloc: Global, plan: &mut Plan) {
    move_second(rt, plan);
    check_line(rt, alloc, plan.group(GROUP).expect(rt, "a group"), MOVED);
}

// Two packets 66, the second moved to the front: their tags no longer go by their places.
#[test]
fn packets_moved(rt: HostRuntime) {
    let text = "a1007f80a03250900f82a1201f07ffffffffffffffffffffffffc0";
    check_moved(&rt, rt.alloc(), &mut plan_of(&rt, rt.alloc(), text));
}
