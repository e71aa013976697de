//! Room that is kept for when there is no memory.

ghost use Rattle.std.specs.Prelude.{[], ◌≡◌, IfOk};

use std::alloc::{AllocError, Global};
use std::mem;

/// An empty list with room for so many. Where there is no memory for it, it is the spare one, and there is none left.
pub(crate) fn room_for<T: Drop>(alloc: Global, spare: &mut Vec<T>, count: usize) -> Vec<T>
    ensures { result.items ≡ [] }
{
    let mut room = Vec::new(alloc);
    if room.reserve(count).is_err() {
        room = mem::replace(spare, Vec::new(alloc));
    }
    room.clear();
    room
}

/// A copy. Where there is no memory for it, it takes the room of the spare list.
pub(crate) fn copied<T: Copy + Drop>(
    alloc: Global,
    spare: &mut Vec<T>,
    items: &[T],
) -> Result<Vec<T>, AllocError>
    ensures { IfOk result (λ copy. copy.items ≡ items.now) }
{
    let mut copy = room_for(alloc, spare, items.len());
    match copy.extend_from_slice(items) {
        Ok(()) => Ok(copy),
        Err(_) => Err(AllocError),
    }
}
