//! Room that is given back.
ghost use Rattle.std.specs.Prelude.{◌≡◌, OnOk, vec_len, vec_capacity};

use std::alloc::{AllocError, Global};
use std::mem::replace;

/// Moves a list into a block of its own size, and gives back the one in which it was. Without the memory it stays
/// there.
pub fn drop_spare<T: Drop>(alloc: Global, list: &mut Vec<T>) -> Result<(), AllocError>
    ensures same { list.new.items ≡ list.old.items }
    ensures fits { OnOk result (vec_capacity list.new ≡ vec_len list.new) }
{
    if list.len() < list.capacity() {
        let fitting = Vec::with_capacity(alloc, list.len())?;
        for item in replace(list, fitting) {
            list.push_reserved(item);
        }
    }
    Ok(())
}
