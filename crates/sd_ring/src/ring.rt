ghost use Rattle.std.specs.Prelude.{◌≡◌, ◌↔◌, ℕ, ◌<◌, ◌≤◌, List, length, map, IsNone, Ok, Err, IfOk, IfErr, Some, IfSome, true, false};
ghost use Rattle.sd_key.specs.Clean.{fault_of};
ghost use Rattle.sd_model_ring.specs.Ring.{owner, is_up};
ghost use Rattle.sd_model_text.specs.Names.{clean};
ghost use Rattle.sd_plan.specs.Entries.{node_view};
ghost use Rattle.sd_ring.specs.RingInside.{all_up};

use crate::homes::{recall, remember};
use crate::point::{Point, is_up, number_of_key};
use crate::points::{next_node, points_of_nodes};
use crate::recent::Recent;
use lru::LruCache;
use sd_key::{Key, KeyFault, clean};
use sd_plan::Node;
use std::alloc::{AllocError, Global};
use std::marker::Model;
use std::num::NonZeroUsize;

/// A ring of nodes, which says to which of them a key belongs.
///
/// Contracts see the list of its nodes.
#[derive(Debug, Drop)]
pub struct Ring {
    nodes: Vec<Node>,
    points: Vec<Point>,
    homes: LruCache<Key, u8>,
    recent: Recent,
}

impl Model for Ring {
    ghost use Rattle.std.specs.Prelude.{List};
    ghost use Rattle.sd_model_settings.specs.Entries.{Node as ModelNode};

    ghost Value = { List ModelNode };

    ghost use Rattle.sd_ring.specs.RingInside.{nodes_in, IsRing};

    ghost view = { nodes_in };

    ghost invariant = { IsRing };
}

impl Ring {
    /// The ring of at most 64 nodes, which remembers the homes of so many keys. The error is want of memory.
    ///
    /// It takes about 1.6 kilobytes a node, 256 kilobytes for the names that came lately, and the cache's table. The cache takes
    /// more, about 300 bytes, for each key that it comes to hold.
    pub fn open(alloc: Global, nodes: &[Node], cache: u32) -> Result<Ring, AllocError>
        requires nodes { length nodes.now ≤ 64 }
        requires cache { 0 < cache }
        ensures { IfOk result (λ ring. ring ≡ map node_view nodes.now) }
    {
        let mut points = points_of_nodes(alloc, nodes)?;
        points.sort_unstable();
        Ok(Ring {
            nodes: copies_of(alloc, nodes)?,
            points,
            homes: LruCache::new(alloc, NonZeroUsize::new(cache as usize).unwrap())?,
            recent: Recent::open(alloc)?,
        })
    }

    /// The nodes, in their places.
    pub fn nodes(&self) -> &[Node]
        ensures { map node_view result.now ≡ self.now }
    {
        &self.nodes
    }

    /// The place of the node to which a key belongs, or none where no node is up. Bit i of `up` says that the node in
    /// place i is up, and bits past the last node have no effect.
    ///
    /// A key for which the cache has no memory isn't remembered, and is answered all the same.
    pub fn owner(&mut self, key: &Key, up: u64) -> Option<u8>
        ensures owner { result ≡ owner key.now self.old up }
        ensures ring { self.new ≡ self.old }
        ensures none { IsNone result ↔ ((i : ℕ) → i < length self.old → is_up up i ≡ false) }
        ensures up { IfSome result (λ i. is_up up i ≡ true) }
        ensures node { IfSome result (λ i. i < length self.old) }
    {
        let home = self.home(key)?;
        self.owner_from(home, key.as_slice(), up)
    }

    /// The owner of the key of a name, as `owner` answers it. A name that came lately, and is its own key, is neither cleaned nor
    /// looked for in the cache.
    ///
    /// # Errors
    ///
    /// The fault of `clean`, where the name has no key.
    pub fn owner_of_name(&mut self, name: &[u8], up: u64) -> Result<Option<u8>, KeyFault>
        ensures ok { IfOk result (λ node. (key : List ℕ) × (clean name.now ≡ Ok key) × (node ≡ owner key self.old up)) }
        ensures err { IfErr result (λ fault. clean name.now ≡ Err (fault_of fault)) }
        ensures ring { self.new ≡ self.old }
        ensures none { IfOk result (λ node. IsNone node ↔ ((i : ℕ) → i < length self.old → is_up up i ≡ false)) }
        ensures up { IfOk result (λ node. IfSome node (λ i. is_up up i ≡ true)) }
        ensures node { IfOk result (λ node. IfSome node (λ i. i < length self.old)) }
    {
        match self.recent.home(name) {
            Some(home) => Ok(self.owner_from(home, name, up)),
            None => self.owner_of_new(name, up),
        }
    }

    /// The owner of the key of a name that didn't come lately.
    // A call of its own spares a name that did come lately the room for a key.
    #[inline(never)]
    fn owner_of_new(&mut self, name: &[u8], up: u64) -> Result<Option<u8>, KeyFault>
        ensures ok { IfOk result (λ node. (key : List ℕ) × (clean name.now ≡ Ok key) × (node ≡ owner key self.old up)) }
        ensures err { IfErr result (λ fault. clean name.now ≡ Err (fault_of fault)) }
        ensures ring { self.new ≡ self.old }
    {
        let key = clean(name)?;
        let Some(home) = self.home(&key) else {
            return Ok(None);
        };
        let node = self.owner_from(home, key.as_slice(), up);
        if key.as_slice() == name {
            self.recent.keep(name, home);
        }
        Ok(node)
    }

    /// The owner of the key with these bytes, whose home is known.
    fn owner_from(&self, home: u8, key: &[u8], up: u64) -> Option<u8>
        requires { owner key.now self.now all_up ≡ Some home }
        ensures { result ≡ owner key.now self.now up }
    {
        if is_up(up, home) {
            Some(home)
        } else {
            self.find_owner(key, up)
        }
    }

    /// The owner of a key where all nodes are up.
    fn home(&mut self, key: &Key) -> Option<u8>
        ensures home { result ≡ owner key.now self.old all_up }
        ensures ring { self.new ≡ self.old }
    {
        if let Some(home) = recall(&mut self.homes, key) {
            return Some(home);
        }
        let home = self.find_owner(key.as_slice(), u64::MAX)?;
        remember(&mut self.homes, key, home);
        Some(home)
    }

    /// The owner of the key with these bytes, found among the points.
    fn find_owner(&self, key: &[u8], up: u64) -> Option<u8>
        ensures { result ≡ owner key.now self.now up }
    {
        next_node(&self.points, number_of_key(key), up)
    }
}

/// The same nodes, in memory of their own.
fn copies_of(alloc: Global, nodes: &[Node]) -> Result<Vec<Node>, AllocError>
    ensures { IfOk result (λ copies. copies.items ≡ nodes.now) }
{
    let mut copies = Vec::with_capacity(alloc, nodes.len())?;
    for node in nodes {
        copies.push(copy_of(node))?;
    }
    Ok(copies)
}

/// The same node, for which no memory is taken.
fn copy_of(node: &Node) -> Node
    ensures { result ≡ node.now }
{
    Node {
        host: node.host.clone().unwrap(),
        port: node.port,
        adminport: node.adminport,
    }
}
