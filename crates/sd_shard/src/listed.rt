ghost use Rattle.std.specs.Prelude.{◌≡◌, ◌^◌, ◌<◌, [], ◌∷◌, ◌++◌, length, slice_get, IfOk, Some};

use std::alloc::{AllocError, Global};
use std::marker::Model;

/// A list, in room that is taken when it is opened.
#[derive(Debug, Drop)]
pub struct Listed<T> {
    pub(crate) items: Vec<T>,
}

impl<T> Model for Listed<T> {
    ghost use Rattle.sd_shard.specs.Listed.{ItemList};

    ghost Value = { ItemList T };

    ghost use Rattle.sd_shard.specs.ListedInside.{item_list_of, AreFew};

    ghost view = { item_list_of };

    ghost invariant = { AreFew };
}

impl<T: Drop> Listed<T> {
    /// No items, and room for so many.
    pub fn open(alloc: Global, n: u32) -> Result<Listed<T>, AllocError>
        ensures room { IfOk result (λ list. list.room ≡ n) }
        ensures empty { IfOk result (λ list. list.items ≡ []) }
    {
        Ok(Listed {
            items: Vec::with_capacity(alloc, n as usize)?,
        })
    }

    /// No items, and no room: what stands in the place of a list that is elsewhere. It takes no memory.
    pub fn none(alloc: Global) -> Listed<T>
        ensures room { result.room ≡ 0 }
        ensures empty { result.items ≡ [] }
    {
        Listed {
            items: Vec::new(alloc),
        }
    }

    /// How many there are.
    pub fn len(&self) -> usize
        ensures len { result ≡ length self.now.items }
        ensures short { result < 2 ^ 32 }
    {
        self.items.len()
    }

    /// The i-th item.
    pub fn get(&self, i: usize) -> &T
        requires { i < length self.now.items }
        ensures { slice_get self.now.items i ≡ Some result.now }
    {
        &self.items[i]
    }

    /// Takes all out.
    pub fn clear(&mut self)
        ensures items { self.new.items ≡ [] }
        ensures room { self.new.room ≡ self.old.room }
    {
        self.items.clear();
    }

    /// Appends one.
    pub(crate) fn push(&mut self, item: T)
        requires { length self.old.items < self.old.room }
        ensures items { self.new.items ≡ self.old.items ++ item ∷ [] }
        ensures room { self.new.room ≡ self.old.room }
    {
        self.items.push_reserved(item);
    }
}
