//! Items taken off a non-empty list.
ghost use Rattle.std.specs.Prelude.{◌≡◌, ◌<◌, ◌∷◌, ◌++◌, [], length};

use std::collections::VecDeque;

/// Takes the first item.
pub(crate) fn first_of<T: Drop>(list: &mut VecDeque<T>) -> T
    requires some { 0 < length list.old.items }
    ensures { list.old.items ≡ result ∷ list.new.items }
{
    match list.pop_front() {
        Some(item) => item,
        None => unreachable!(),
    }
}

/// Takes the last item.
pub(crate) fn last_of<T: Drop>(list: &mut Vec<T>) -> T
    requires some { 0 < length list.old.items }
    ensures { list.old.items ≡ list.new.items ++ result ∷ [] }
{
    match list.pop() {
        Some(item) => item,
        None => unreachable!(),
    }
}
