ghost use Rattle.std.specs.Prelude.{◌≡◌, ℕ, ◌+◌, ◌^◌, ◌<◌, Some, None, Option, List, [], ◌∷◌, ◌++◌, length, get_or, IfOk};
ghost use Rattle.sd_epoch.specs.Chain.{IsChain, link_of, links_of};

use crate::limits::Limits;
use std::alloc::{AllocError, Global};

/// A link to what names a place, or to none: its index and one, or 0. An `Option` of its index takes twice the room.
#[derive(Clone, Copy, Debug)]
pub(crate) struct Link(u32);

const _: () = prove!(size_of::<Link>() == 4);

/// The link to none.
const NO_LINK: Link = Link(0);

impl Link {
    /// The link to the one with this index.
    fn to(at: u32) -> Link
        requires { at < 2 ^ 20 }
        ensures { link_of result ≡ Some at }
    {
        Link(at + 1)
    }

    /// The index of the one it links to, or none.
    pub(crate) fn get(self) -> Option<u32>
        ensures { result ≡ link_of self }
    {
        if self.0 == 0 { None } else { Some(self.0 - 1) }
    }
}

/// What names a place, chained from the last one of each place back: here the last of each place. Each of them has the link to
/// the one before it that names the same place.
#[derive(Debug, Drop)]
pub(crate) struct Chain {
    pub last: Vec<Link>,
}

impl Chain {
    /// A chain of nothing.
    pub(crate) fn open(alloc: Global, limits: Limits) -> Result<Chain, AllocError>
        ensures chain { IfOk result (λ c. IsChain [] (links_of c.last.items) []) }
        ensures places { IfOk result (λ c. length c.last.items ≡ limits.rows) }
    {
        Ok(Chain {
            last: vec![in alloc; NO_LINK; limits.rows as usize]?,
        })
    }

    /// The last one that names this place.
    pub(crate) fn last_at(&self, place: u32) -> Option<u32>
        requires { place < length self.now.last.items }
        ensures { result ≡ get_or (links_of self.now.last.items) place None }
    {
        self.last[place as usize].get()
    }

    /// Takes the next one in, which has this index and names this place. Returns its link to the one before it.
    pub(crate) fn push(&mut self, place: u32, at: u32) -> Link
        requires within { place < length self.old.last.items }
        requires few { at < 2 ^ 20 }
        ensures chain { (places : List ℕ) (before : List (Option ℕ)) → length places ≡ at → IsChain places (links_of self.old.last.items) before
            → IsChain (places ++ place ∷ []) (links_of self.new.last.items) (before ++ link_of result ∷ []) }
        ensures places { length self.new.last.items ≡ length self.old.last.items }
    {
        let before = self.last[place as usize];
        self.last[place as usize] = Link::to(at);
        before
    }

    /// Takes all out.
    pub(crate) fn clear(&mut self)
        ensures chain { IsChain [] (links_of self.new.last.items) [] }
        ensures places { length self.new.last.items ≡ length self.old.last.items }
    {
        self.last.fill(NO_LINK);
    }
}
