ghost use Rattle.std.specs.Prelude.{◌≡◌, ◌+◌, ◌≤◌, codes, ◌++◌};
ghost use Rattle.md5.specs.Md5.{md5, word_at};
ghost use Rattle.sd_model_ring.specs.Ring.{is_up};
ghost use Rattle.sd_plan.specs.Entries.{node_view};
ghost use Rattle.std.specs.Fmt.{decimal};

use md5::{Digest, Md5};
use sd_decimal::{Line, write_whole};
use sd_plan::Node;
use std::marker::Model;

/// A point of the ring: a number, and the place of its node among the nodes. Points compare by their numbers, and
/// those of one number by their places.
#[derive(Clone, Copy, Debug, PartialEq, Eq, PartialOrd, Ord)]
pub(crate) struct Point {
    pub(crate) at: u32,
    pub(crate) node: u8,
}

impl Model for Point {
    ghost use Rattle.sd_model_ring.specs.Ring.{Point as ModelPoint};

    ghost Value = { ModelPoint };

    ghost view = { λ p. record { at = p.at; node = p.node } };

    ghost inverse = { λ p. record { at = p.at; node = p.node } };
}

/// The digest of the text `HOST:PORT-i` of a node.
pub(crate) fn node_digest(node: &Node, i: u8) -> [u8; 16]
    ensures { result ≡ md5 ((node_view node.now).host ++ codes ":" ++ decimal (node_view node.now).port ++ codes "-" ++ decimal i) }
{
    let mut text = Line::new();
    text.try_extend_from_slice(node.host.as_slice()).unwrap();
    text.push(b':');
    write_whole(u128::from(node.port), &mut text);
    text.push(b'-');
    write_whole(u128::from(i), &mut text);
    Md5::digest(text.as_slice())
}

/// The number of the key with these bytes.
pub(crate) fn number_of_key(key: &[u8]) -> u32
    ensures { result ≡ word_at (md5 key.now) 0 }
{
    word_at(&Md5::digest(key), 0)
}

/// The number at byte `at` of a digest, whose low byte stands first.
pub(crate) fn word_at(digest: &[u8; 16], at: usize) -> u32
    requires { at + 4 ≤ 16 }
    ensures { result ≡ word_at digest.now at }
{
    u32::from_le_bytes([digest[at], digest[at + 1], digest[at + 2], digest[at + 3]])
}

/// Whether the node in a place is up.
pub(crate) fn is_up(up: u64, node: u8) -> bool
    ensures { result ≡ is_up up node }
{
    node < 64 && (up >> node) % 2 == 1
}
