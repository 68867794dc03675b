//! Blocks of codes one after another.

ghost use Rattle.std.specs.Prelude.{◌≡◌, ◌≤◌, ◌<◌, ◌+◌, ◌-◌, ◌^◌, IsTrue, length, take, drop, insert, remove, [], vec_capacity, vec_len};
ghost use Rattle.balise_index.specs.Blocks.{flat, before, Laid, IsAt, IsIn, IsCut, RoomIn};

use crate::code_list::{Block, MOST};

/// The last block that begins at a place or before it. Where each block was filled before the next was begun, it is seen
/// at once.
pub(super) fn block_of(blocks: &Vec<Block>, i: usize) -> usize
    requires some { 0 < length blocks.now.items }
    requires laid { Laid 0 blocks.now.items }
    ensures { IsAt i result blocks.now.items }
{
    let filled = i / MOST;
    if is_at(blocks, filled, i) {
        return filled;
    }
    halved(blocks, i)
}

// Whether a block is the last that begins at a place or before it.
fn is_at(blocks: &Vec<Block>, b: usize, i: usize) -> bool
    requires laid { Laid 0 blocks.now.items }
    requires few { b < 2 ^ 63 }
    ensures { IsTrue result → IsAt i b blocks.now.items }
{
    let count = blocks.len();
    if b >= count || i < blocks[b].start {
        return false;
    }
    if b + 1 >= count {
        return true;
    }
    i < blocks[b + 1].start
}

// Finds that block by halving.
fn halved(blocks: &Vec<Block>, i: usize) -> usize
    requires some { 0 < length blocks.now.items }
    requires laid { Laid 0 blocks.now.items }
    ensures { IsAt i result blocks.now.items }
{
    let mut b = 0;
    let mut end = blocks.len();
    'halves: while end - b > 1 {
        let middle = b + (end - b) / 2;
        if blocks[middle].start <= i {
            b = middle;
        } else {
            end = middle;
        }
    }
    b
}

/// Cuts a full block in two, or begins another after it where a place is after all its codes. Returns the block that the
/// place is in.
pub(super) fn split(blocks: &mut Vec<Block>, spare: Vec<u32>, b: usize, i: usize) -> usize
    requires laid { Laid 0 blocks.old.items }
    requires there { IsIn i b blocks.old.items }
    requires fits { length (flat blocks.old.items) < 2 ^ 63 }
    requires room { vec_len blocks.old + 1 ≤ vec_capacity blocks.old }
    requires empty { spare.items ≡ [] }
    requires spare { 512 ≤ vec_capacity spare }
    ensures laid { Laid 0 blocks.new.items }
    ensures same { flat blocks.new.items ≡ flat blocks.old.items }
    ensures there { IsIn i result blocks.new.items }
    ensures room { RoomIn result blocks.new.items }
{
    let at = i - blocks[b].start;
    let len = blocks[b].codes.len();
    if at == len {
        cut_at(blocks, spare, b, len);
        return b + 1;
    }
    let half = len / 2;
    cut_at(blocks, spare, b, half);
    if at > half { b + 1 } else { b }
}

// Cuts a block in two: all but its first codes go to a block of their own after it.
fn cut_at(blocks: &mut Vec<Block>, spare: Vec<u32>, b: usize, cut: usize)
    requires laid { Laid 0 blocks.old.items }
    requires within { b < length blocks.old.items }
    requires part { before b blocks.old.items + cut ≤ before (b + 1) blocks.old.items }
    requires fits { length (flat blocks.old.items) < 2 ^ 63 }
    requires room { vec_len blocks.old + 1 ≤ vec_capacity blocks.old }
    requires empty { spare.items ≡ [] }
    requires spare { 512 ≤ vec_capacity spare }
    ensures { IsCut b cut blocks.old.items blocks.new.items }
{
    let start = blocks[b].start + cut;
    let codes = take_rest(&mut blocks[b].codes, spare, cut);
    // There is room for one more block, so this doesn't fail.
    let _ = blocks.insert(b + 1, Block { start, codes });
}

// Takes out all but the first codes, into a list that has room.
fn take_rest(codes: &mut Vec<u32>, room: Vec<u32>, first: usize) -> Vec<u32>
    requires within { first ≤ length codes.old.items }
    requires few { length codes.old.items ≤ 512 }
    requires empty { room.items ≡ [] }
    requires room { 512 ≤ vec_capacity room }
    ensures first { codes.new.items ≡ take first codes.old.items }
    ensures rest { result.items ≡ drop first codes.old.items }
    ensures same { vec_capacity codes.new ≡ vec_capacity codes.old }
    ensures room { 512 ≤ vec_capacity result }
{
    let mut rest = room;
    // There is room for all codes of a block, so this doesn't fail.
    let _ = rest.extend_from_slice(&codes.as_slice()[first..]);
    codes.truncate(first);
    rest
}

/// Puts a code in among those of a block that isn't full.
pub(super) fn put_in(blocks: &mut Vec<Block>, b: usize, i: usize, code: u32)
    requires laid { Laid 0 blocks.old.items }
    requires there { IsIn i b blocks.old.items }
    requires fits { length (flat blocks.old.items) < 2 ^ 63 }
    requires room { RoomIn b blocks.old.items }
    ensures laid { Laid 0 blocks.new.items }
    ensures put { flat blocks.new.items ≡ insert (flat blocks.old.items) i code }
    ensures len { vec_len blocks.new ≡ vec_len blocks.old }
    ensures capacity { vec_capacity blocks.new ≡ vec_capacity blocks.old }
{
    let at = i - blocks[b].start;
    // The block has room for the code, so this doesn't fail.
    let _ = blocks[b].codes.insert(at, code);
    for k in b + 1..blocks.len() {
        blocks[k].start += 1;
    }
}

/// Takes a code out of those of a block.
pub(super) fn take_out(blocks: &mut Vec<Block>, b: usize, i: usize)
    requires laid { Laid 0 blocks.old.items }
    requires there { IsIn i b blocks.old.items }
    requires less { i < before (b + 1) blocks.old.items }
    ensures laid { Laid 0 blocks.new.items }
    ensures taken { flat blocks.new.items ≡ remove (flat blocks.old.items) i }
    ensures len { vec_len blocks.new ≡ vec_len blocks.old }
    ensures capacity { vec_capacity blocks.new ≡ vec_capacity blocks.old }
{
    let at = i - blocks[b].start;
    // The code that is taken out is known to the caller.
    let _ = blocks[b].codes.remove(at);
    for k in b + 1..blocks.len() {
        blocks[k].start -= 1;
    }
}
