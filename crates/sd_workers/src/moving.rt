//! What workers hold while they run: the first values of a list, which stand before the others again when the workers have
//! ended, and room for a datagram.
ghost use Rattle.std.specs.Prelude.{◌≡◌, ◌+◌, ◌<◌, ◌≤◌, [], ◌∷◌, ◌++◌, IfOk, length, vec_capacity, vec_len};

use std::alloc::{AllocError, Global};

// The most bytes of a datagram.
const LONGEST_DATAGRAM: usize = 65_527;

/// Room for the longest datagram.
///
/// # Errors
///
/// Where no memory is left for it.
pub fn datagram_room(alloc: Global) -> Result<Vec<u8>, AllocError>
    ensures { IfOk result (λ v. vec_len v ≡ 65527) }
{
    Ok(vec![in alloc; 0; LONGEST_DATAGRAM]?)
}

/// Takes the first away, and the others keep their order.
pub fn take_first<T>(items: &mut Vec<T>) -> T
    requires { 0 < length items.old.items }
    ensures items { items.old.items ≡ result ∷ items.new.items }
    ensures capacity { vec_capacity items.new ≡ vec_capacity items.old }
{
    items.remove(0)
}

/// Puts it before the others, within the room that there is.
pub fn put_first<T: Drop>(items: &mut Vec<T>, item: T)
    requires { length items.old.items < vec_capacity items.old }
    ensures items { items.new.items ≡ item ∷ items.old.items }
    ensures capacity { vec_capacity items.new ≡ vec_capacity items.old }
{
    items.insert(0, item).unwrap();
}

/// Takes the first so many away, in order, into room for them.
pub fn take_run<T>(items: &mut Vec<T>, mut room: Vec<T>, run: usize) -> Vec<T>
    requires few { run ≤ length items.old.items }
    requires room { run ≤ vec_capacity room }
    requires none { room.items ≡ [] }
    ensures items { items.old.items ≡ result.items ++ items.new.items }
    ensures len { length result.items ≡ run }
    ensures capacity { vec_capacity items.new ≡ vec_capacity items.old }
{
    for _item in 0..run {
        room.push_reserved(take_first(items));
    }
    room
}

/// Puts a run before the others, within the room that there is.
pub fn put_run<T: Drop>(items: &mut Vec<T>, mut run: Vec<T>)
    requires { length run.items + length items.old.items ≤ vec_capacity items.old }
    ensures items { items.new.items ≡ run.items ++ items.old.items }
    ensures capacity { vec_capacity items.new ≡ vec_capacity items.old }
{
    while let Some(item) = run.pop() {
        put_first(items, item);
    }
}
