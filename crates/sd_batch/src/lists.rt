ghost use Rattle.std.specs.Prelude.{◌≡◌, ℕ, length, vec_len, IfOk};
ghost use Rattle.sd_batch.specs.Places.{AreEmpty, HaveRoom};

use std::alloc::{AllocError, Global};

// So many empty lists, each with room for so many places.
pub(crate) fn open_lists(alloc: Global, n: u16, room: u16) -> Result<Vec<Vec<u16>>, AllocError>
    ensures len { IfOk result (λ lists. vec_len lists ≡ n) }
    ensures empty { IfOk result (λ lists. AreEmpty lists.items) }
    ensures room { IfOk result (λ lists. HaveRoom room lists.items) }
{
    let mut lists = Vec::with_capacity(alloc, usize::from(n))?;
    for _i in 0..n {
        lists.push_reserved(Vec::with_capacity(alloc, usize::from(room))?);
    }
    Ok(lists)
}

// Empties the lists. They keep their room.
pub(crate) fn clear_lists(lists: &mut [Vec<u16>])
    ensures len { length lists.new ≡ length lists.old }
    ensures empty { AreEmpty lists.new }
    ensures room { (room : ℕ) → HaveRoom room lists.old → HaveRoom room lists.new }
{
    for i in 0..lists.len() {
        lists[i].clear();
    }
}
