//! Many entries looked at together, by where their edits lie.

ghost use Rattle.std.specs.Prelude.{◌≡◌, ◌≤◌, List, length, map, take};
ghost use Rattle.std.specs.List.{list_all};
ghost use Rattle.balise_edits.specs.Homes.{count_far, is_far, number_at, AllApart};
ghost use Rattle.balise_rules.specs.Paths as rules;

use crate::entry::Entry;

/// How many numbers are looked at at once. A loop of this length becomes vector code; one of 16 is written out number
/// by number.
const BLOCK: usize = 64;

// Whether a number is that of a home of another group, and below a limit.
#[inline(always)]
fn is_far(number: u16, group: u16, limit: u16) -> bool
    ensures { result ≡ is_far group limit number }
{
    number % 16384 != group && number < limit
}

// Whether all numbers of a block are: those that aren't are counted, since a loop without branches becomes vector code.
#[inline(always)]
fn is_far_block(numbers: &[u16], group: u16, limit: u16) -> bool
    requires { length numbers.now ≡ 64 }
    ensures { result ≡ list_all (is_far group limit) numbers.now }
{
    let mut near: u16 = 0;
    for i in 0..BLOCK {
        if !is_far(numbers[i], group, limit) {
            near += 1;
        }
    }
    near == 0
}

/// The number of entries from the first on whose home numbers show that they are apart from this one. It stops at the
/// first number that doesn't show it. Takes no memory.
pub fn count_apart(entry: &Entry, numbers: &[u16]) -> usize
    ensures count { result ≡ count_far entry.now numbers.now }
    ensures within { result ≤ length numbers.now }
    ensures apart { (fs : List rules.Entry) → numbers.now ≡ map number_at fs → AllApart entry.now (take result fs) }
{
    let home = entry.home();
    let group = home.group();
    let limit = home.limit();
    let mut count = 0;
    'whole: while numbers.len() - count >= BLOCK
        && is_far_block(&numbers[count..count + BLOCK], group, limit)
    {
        count += BLOCK;
    }
    'numbers: while count < numbers.len() && is_far(numbers[count], group, limit) {
        count += 1;
    }
    count
}
