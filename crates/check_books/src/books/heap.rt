//! A heap of which only some bytes are left.
use anyhow::Result;
use linked_list_allocator::LocalHeap;
use std::alloc::Global;
use test_support::heaps::fill;

/// How many bytes a heap has.
pub(crate) const SIZE: usize = 16_384;

/// A heap rounds each size up to a multiple of this.
pub(crate) const PIECE: usize = 16;

/// Takes all that is left of a heap but one block of this many bytes.
pub(crate) fn leave(
    alloc: Global,
    heap: &LocalHeap,
    bytes: usize,
) -> Result<Vec<Vec<u8, &LocalHeap>>> {
    let kept = Vec::<u8, &LocalHeap>::with_capacity(heap, bytes)?;
    let mut taken = Vec::new(alloc);
    for _ in 0..SIZE / PIECE {
        match fill(heap) {
            Some(block) => taken.push(block)?,
            None => break,
        }
    }
    drop(kept);
    Ok(taken)
}
