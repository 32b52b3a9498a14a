//! Items of a list from `head` on. Those before it are no longer wanted, and stay until their
//! places are.

ghost use Rattle.std.specs.Prelude.{◌≡◌, ◌+◌, ◌≤◌, ◌<◌, [], ◌∷◌, ◌++◌, insert, length, drop, vec_len, vec_capacity};

/// Puts an item in at an index of the items from `head` on, and returns where they begin
/// afterwards. It asks for a free place, before `head` or reserved behind them. Where there is one
/// before, the items before the index move one place to the front, else the others move one place
/// back.
pub(crate) fn insert<T: Copy + Drop>(
    items: &mut Vec<T>,
    head: usize,
    index: usize,
    item: T,
) -> usize
    requires within { head + index ≤ vec_len items.old }
    requires free { vec_len items.old < head + vec_capacity items.old }
    ensures items { drop result items.new.items ≡ insert (drop head items.old.items) index item }
    ensures head { result ≤ vec_len items.new }
    ensures room { vec_capacity items.old ≤ vec_capacity items.new }
{
    if head == 0 {
        let _inserted = items.insert(index, item);
        return 0;
    }
    shift(&mut items.as_mut_slice()[head - 1..head + index], item);
    head - 1
}

/// Drops the first item, and puts this one last.
fn shift<T: Copy>(items: &mut [T], item: T)
    requires { 1 ≤ length items.old }
    ensures { items.new ≡ drop 1 items.old ++ item ∷ [] }
{
    items.rotate_left(1);
    let last = items.len() - 1;
    items[last] = item;
}

/// Drops the items before `head`.
pub(crate) fn drop_front<T: Copy + Drop>(items: &mut Vec<T>, head: usize)
    requires { head ≤ vec_len items.old }
    ensures items { items.new.items ≡ drop head items.old.items }
    ensures room { vec_capacity items.old ≤ vec_capacity items.new }
{
    items.copy_within(head.., 0);
    items.truncate(items.len() - head);
}
