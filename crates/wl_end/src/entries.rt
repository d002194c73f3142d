//! Entries that nothing was noted in yet.

ghost use Rattle.std.specs.Prelude.{◌≡◌, ◌+◌, ◌-◌, ◌<◌, ◌++◌, length, replicate};
ghost use Rattle.std.specs.Vec.{vec_capacity};

/// Gives each place up to this one an entry, where there is room. It takes no memory.
pub(crate) fn fill<T: Copy>(list: &mut Vec<T>, place: usize, entry: T)
    requires { place < vec_capacity list.old }
    ensures reached { place < length list.new.items }
    ensures items { list.new.items ≡ list.old.items ++ replicate (place + 1 - length list.old.items) entry }
    ensures room { vec_capacity list.new ≡ vec_capacity list.old }
{
    'gap: while list.len() <= place {
        list.push_reserved(entry);
    }
}
