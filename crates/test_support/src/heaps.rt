//! Heaps that are full, for tests of calls that get no memory.
ghost use Rattle.std.specs.Prelude.{◌≡◌, IfSome, vec_len};

use linked_list_allocator::LocalHeap;

/// Takes the greatest block of memory that is left of a heap, or `None` if nothing is left. `destroy_empty` frees the
/// block.
pub fn fill<'a>(heap: &'a LocalHeap) -> Option<Vec<u8, &'a LocalHeap>>
    ensures { IfSome result (λ filling. vec_len filling ≡ 0) }
{
    for size in (1..=heap.free()).rev() {
        if let Ok(filling) = Vec::with_capacity(heap, size) {
            return Some(filling);
        }
    }
    None
}
