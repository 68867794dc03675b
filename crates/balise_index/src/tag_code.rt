//! A tag as a code of four bytes.

ghost use Rattle.std.specs.Prelude.{◌≡◌, ◌≤◌, ◌<◌, ◌+◌, ℕ, false, length, slice_get, vec_capacity, vec_len, IfNone, IfSome, Some};
ghost use Rattle.balise_index.specs.InOrder.{is_at};
ghost use Rattle.balise_index.specs.TagCode.{own_tag, tag_of, tag_of_own, HasNoOwn, HasNone, KeepsTags, OneCode};

use balise_rules::Tag;

/// The first code of a tag `Base`. Those before it are the serials that an edit may have.
const FIRST_BASE: u32 = 4001000001;

/// The first code of the tags that have no code of their own. Their number of a group, or their serial, is higher than
/// any that a plan or an edit has. Such a code states where the tag stands in a list of these tags.
const FIRST_RARE: u32 = 4294000000;

/// How many tags such a list has at most.
pub(crate) const RARE: usize = 967296;

/// The tag that a code stands for.
pub(crate) fn tag_of(rare: &Vec<Tag>, code: u32) -> Tag
    ensures { result ≡ tag_of rare.now.items code }
{
    if let Some(tag) = tag_of_own(code) {
        return tag;
    }
    match rare.get((code - FIRST_RARE) as usize) {
        Some(tag) => *tag,
        None => Tag::Fresh(code),
    }
}

/// The tag that has a code of its own, if it is such a code.
pub(crate) fn tag_of_own(code: u32) -> Option<Tag>
    ensures tag { result ≡ tag_of_own code }
    ensures rare { IfNone result (4294000000 ≤ code) }
{
    if code < FIRST_BASE {
        return Some(Tag::Fresh(code));
    }
    if code < FIRST_RARE {
        return Some(Tag::Base(code - FIRST_BASE));
    }
    None
}

/// The code of a tag, if it has one.
pub(crate) fn code_of(rare: &Vec<Tag>, tag: Tag) -> Option<u32>
    requires few { length rare.now.items ≤ 967296 }
    ensures tag { IfSome result (λ code. tag_of rare.now.items code ≡ tag) }
    ensures known { IfSome result (λ code. code < 4294000000 + length rare.now.items) }
    ensures none { IfNone result (HasNone rare.now.items tag) }
{
    if let Some(code) = own_code(tag) {
        return Some(code);
    }
    match rare_place(rare, tag) {
        Some(i) => Some(FIRST_RARE + i as u32),
        None => None,
    }
}

/// The code that a tag has of its own.
pub(crate) fn own_code(tag: Tag) -> Option<u32>
    ensures tag { IfSome result (λ code. own_tag code ≡ tag) }
    ensures own { IfSome result (λ code. code < 4294000000) }
    ensures none { IfNone result (HasNoOwn tag) }
{
    match tag {
        Tag::Fresh(serial) => {
            if serial < FIRST_BASE {
                return Some(serial);
            }
            None
        }
        Tag::Base(number) => {
            if number < FIRST_RARE - FIRST_BASE {
                return Some(FIRST_BASE + number);
            }
            None
        }
    }
}

/// Where a code is looked for in a map first: at the number of a tag `Base`.
pub(crate) fn own_index(code: u32) -> usize {
    code.wrapping_sub(FIRST_BASE) as usize
}

// Where a tag stands in a list.
fn rare_place(rare: &Vec<Tag>, tag: Tag) -> Option<usize>
    ensures there { IfSome result (λ i. slice_get rare.now.items i ≡ Some tag) }
    ensures none { IfNone result ((i : ℕ) → is_at tag (slice_get rare.now.items i) ≡ false) }
{
    for i in 0..rare.len() {
        if rare[i] == tag {
            return Some(i);
        }
    }
    None
}

/// The code of a tag, which is noted in the list if it has none. Takes no memory.
pub(crate) fn make_code(rare: &mut Vec<Tag>, tag: Tag) -> u32
    requires few { length rare.old.items < 967296 }
    requires one { OneCode rare.old.items }
    requires room { vec_len rare.old < vec_capacity rare.old }
    ensures tag { tag_of rare.new.items result ≡ tag }
    ensures known { result < 4294000000 + length rare.new.items }
    ensures few { length rare.new.items ≤ 967296 }
    ensures more { length rare.old.items ≤ length rare.new.items }
    ensures kept { KeepsTags rare.old.items rare.new.items }
    ensures one { OneCode rare.new.items }
{
    if let Some(code) = code_of(rare, tag) {
        return code;
    }
    let code = FIRST_RARE + rare.len() as u32;
    // There is room in the list, so this doesn't fail.
    let _ = rare.push(tag);
    code
}
