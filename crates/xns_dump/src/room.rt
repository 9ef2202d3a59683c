//! Room that grows where there is too little.
ghost use Rattle.std.specs.Prelude.{◌≤◌, ◌<◌, OnErr, OnOk, length};

use std::alloc::AllocError;

/// Makes the room at least `count` bytes long. The only error is want of memory, where the room is shorter.
pub(crate) fn lengthen(room: &mut Vec<u8>, count: usize) -> Result<(), AllocError>
    ensures longer { length room.old.items ≤ length room.new.items }
    ensures enough { OnOk result (count ≤ length room.new.items) }
    ensures memory { OnErr result (length room.old.items < count) }
{
    if count <= room.len() {
        return Ok(());
    }
    room.resize(count, 0)
}
