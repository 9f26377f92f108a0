//! Lists: `move_item` moves a value without taking memory.

ghost use Rattle.std.specs.Prelude.{◌≡◌, ◌<◌, ◌≤◌, ◌+◌, ◌-◌, OnOk, insert, length, remove, slice_index_or};
ghost use Rattle.std.specs.Vec.{vec_capacity};

use std::alloc::AllocError;

/// Makes room for `count` values in place of those at `from..to`.
pub fn make_room<T: Drop>(
    list: &mut Vec<T>,
    from: usize,
    to: usize,
    count: usize,
) -> Result<(), AllocError>
    requires { from ≤ to }
    ensures same { list.new.items ≡ list.old.items }
    ensures room { OnOk result
        (length list.old.items + count ≤ vec_capacity list.new + (to - from)) }
{
    list.reserve(count.saturating_sub(to - from))
}

/// Turns the values between two places by one, so that the value at `from` is at `to` afterwards.
fn turn<T>(list: &mut [T], from: usize, to: usize)
    requires from { from < length list.old }
    requires to { to < length list.old }
    ensures { (x : T) → list.new
        ≡ insert (remove list.old from) to (slice_index_or list.old from x) }
{
    if from < to {
        list[from..to + 1].rotate_left(1);
    } else {
        list[to..from + 1].rotate_right(1);
    }
}

/// Moves the value at `from`, so that it is at `to` afterwards. It takes no memory.
pub fn move_item<T: Drop>(list: &mut Vec<T>, from: usize, to: usize)
    requires from { from < length list.old.items }
    requires to { to < length list.old.items }
    ensures { (x : T) → list.new.items
        ≡ insert (remove list.old.items from) to (slice_index_or list.old.items from x) }
{
    turn(list, from, to)
}
