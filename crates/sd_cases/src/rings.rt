use sd_case::{Answer, Refusal, bytes_of, key_of, number};
use sd_key::KeyFault;
use sd_outside::Name;
use sd_plan::Node;
use sd_ring::Ring;
use std::alloc::Global;

/// What a ring is asked for the owners of.
#[derive(Clone, Copy)]
pub enum Asked {
    Keys,
    Names,
}

/// `nodes NODES`: the nodes of a ring.
pub fn nodes(alloc: Global, nodes: &str, out: &mut Answer) -> Result<(), Refusal> {
    let ring = ring_of(alloc, nodes, "1")?;
    show_nodes(ring.nodes(), out);
    Ok(())
}

/// `owners NODES CACHE UPS KEY..`, and `name_owners NODES CACHE UPS NAME..`: under each set of nodes that are up, the owner of each
/// key, or of each name's key.
pub fn owners(
    alloc: Global,
    nodes: &str,
    cache: &str,
    ups: &str,
    asked: Asked,
    words: &[&str],
    out: &mut Answer,
) -> Result<(), Refusal> {
    let mut ring = ring_of(alloc, nodes, cache)?;
    show_owners(alloc, &mut ring, ups, asked, words, out)
}

/// The ring of nodes that a word writes, with a cache of so many keys.
fn ring_of(alloc: Global, nodes: &str, cache: &str) -> Result<Ring, Refusal> {
    let nodes = nodes_of(alloc, nodes)?;
    let cache = number::<u32>(cache)?;
    if nodes.len() > 64 || cache == 0 {
        return Err(Refusal::Condition);
    }
    Ok(Ring::open(alloc, &nodes, cache)?)
}

/// The nodes that a word writes as `HOST:PORT`, with commas between them, or `none`.
fn nodes_of(alloc: Global, word: &str) -> Result<Vec<Node>, Refusal> {
    let mut nodes = Vec::new(alloc);
    if word != "none" {
        for place in word.split(',') {
            nodes.push(node_of(alloc, place)?)?;
        }
    }
    Ok(nodes)
}

/// The node at a host and a port.
fn node_of(alloc: Global, place: &str) -> Result<Node, Refusal> {
    let (host_word, port) = place.split_once(':').ok_or(Refusal::Malformed)?;
    let mut host = Name::new();
    if host
        .try_extend_from_slice(&bytes_of(alloc, host_word)?)
        .is_err()
    {
        return Err(Refusal::Malformed);
    }
    Ok(Node {
        host,
        port: number(port)?,
        adminport: 8126,
    })
}

/// Appends the nodes of a ring.
fn show_nodes(nodes: &[Node], out: &mut Answer) {
    out.text(" =");
    for node in nodes {
        out.text(" ");
        out.bytes(node.host.as_slice());
        out.count(":", u64::from(node.port));
    }
}

/// Appends a line for each set of nodes that are up, with the owner of each key or name under it.
fn show_owners(
    alloc: Global,
    ring: &mut Ring,
    ups: &str,
    asked: Asked,
    words: &[&str],
    out: &mut Answer,
) -> Result<(), Refusal> {
    for up in ups.split(',') {
        out.step(up);
        show_line(alloc, ring, number::<u64>(up)?, asked, words, out)?;
    }
    Ok(())
}

/// Appends the owner of each key or name.
fn show_line(
    alloc: Global,
    ring: &mut Ring,
    up: u64,
    asked: Asked,
    words: &[&str],
    out: &mut Answer,
) -> Result<(), Refusal> {
    for (place, word) in words.iter().enumerate() {
        if place > 0 {
            out.text(" ");
        }
        match asked {
            Asked::Keys => show_owner(ring.owner(&key_of(alloc, word)?, up), out),
            Asked::Names => match ring.owner_of_name(&bytes_of(alloc, word)?, up) {
                Ok(owner) => show_owner(owner, out),
                Err(KeyFault::Empty) => out.text("empty"),
                Err(KeyFault::Long { len }) => out.count("long:", len as u64),
            },
        }
    }
    Ok(())
}

/// Appends the owner of a key, where it has one.
fn show_owner(owner: Option<u8>, out: &mut Answer) {
    match owner {
        Some(node) => out.number(i128::from(node)),
        None => out.text("-"),
    }
}
