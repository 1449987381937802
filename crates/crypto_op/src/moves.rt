//! Items that go from one queue to another.
ghost use Rattle.std.specs.Prelude.{◌≡◌, ◌+◌, ◌≤◌, ◌<◌, ◌++◌, ◌∷◌, [], take, drop};
ghost use Rattle.std.specs.VecDeque.{deque_len, deque_capacity};

use std::collections::VecDeque;

// Pushes where there is room, which takes no memory.
fn put<T>(queue: &mut VecDeque<T>, item: T)
    requires { deque_len queue.old < deque_capacity queue.old }
    ensures items { queue.new.items ≡ queue.old.items ++ item ∷ [] }
    ensures capacity { deque_capacity queue.new ≡ deque_capacity queue.old }
{
    match queue.push_back(item) {
        Ok(()) => {}
        Err(_) => unreachable!(),
    }
}

// Moves the first `n` items, one after another.
fn move_some<T>(from: &mut VecDeque<T>, to: &mut VecDeque<T>, n: usize)
    requires enough { n ≤ deque_len from.old }
    requires room { deque_len to.old + n ≤ deque_capacity to.old }
    ensures rest { from.new.items ≡ drop n from.old.items }
    ensures items { to.new.items ≡ to.old.items ++ take n from.old.items }
    ensures from_capacity { deque_capacity from.new ≡ deque_capacity from.old }
    ensures capacity { deque_capacity to.new ≡ deque_capacity to.old }
{
    for _i in 0..n {
        match from.pop_front() {
            Some(item) => put(to, item),
            None => unreachable!(),
        }
    }
}

/// Moves the first `n` items of a queue behind those of another that has room for them, all of them as one block.
pub(crate) fn move_front<T>(from: &mut VecDeque<T>, to: &mut VecDeque<T>, n: usize)
    requires enough { n ≤ deque_len from.old }
    requires room { deque_len to.old + n ≤ deque_capacity to.old }
    ensures rest { from.new.items ≡ drop n from.old.items }
    ensures items { to.new.items ≡ to.old.items ++ take n from.old.items }
    ensures from_capacity { deque_capacity from.new ≡ deque_capacity from.old }
    ensures capacity { deque_capacity to.old ≤ deque_capacity to.new }
{
    if n < from.len() {
        return move_some(from, to, n);
    }
    match to.append(from) {
        Ok(()) => {}
        Err(_) => unreachable!(),
    }
}
