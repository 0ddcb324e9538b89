ghost use Rattle.std.specs.Prelude.{◌≡◌, ◌≤◌, ◌++◌, length, map, IfOk, OnOk, option_map, filter};
ghost use Rattle.sd_model_ring.specs.Ring.{next_point, numbers_of_node, points_from, is_up};
ghost use Rattle.sd_plan.specs.Entries.{node_view};
ghost use Rattle.sd_ring.specs.Points.{Ascends, first_up, words_of};

use crate::point::{Point, is_up, node_digest, word_at};
use sd_plan::Node;
use std::alloc::{AllocError, Global};

/// How many texts of a node are hashed to its points.
const TEXTS: u8 = 40;

/// The points of all nodes, from those of the first node on.
pub(crate) fn points_of_nodes(alloc: Global, nodes: &[Node]) -> Result<Vec<Point>, AllocError>
    requires { length nodes.now ≤ 64 }
    ensures { IfOk result (λ ps. ps.items ≡ points_from 0 (map node_view nodes.now)) }
{
    let mut points = Vec::with_capacity(alloc, 4 * usize::from(TEXTS) * nodes.len())?;
    for (place, node) in nodes.iter().enumerate() {
        push_node(&mut points, place as u8, node)?;
    }
    Ok(points)
}

/// Appends the points of a node.
fn push_node(points: &mut Vec<Point>, place: u8, node: &Node) -> Result<(), AllocError>
    ensures { OnOk result (points.new.items ≡ points.old.items ++ map (λ at. record { at = at; node = place }) (numbers_of_node (node_view node.now))) }
{
    for i in 0..TEXTS {
        push_digest(points, place, &node_digest(node, i))?;
    }
    Ok(())
}

/// Appends the four points of a digest.
fn push_digest(points: &mut Vec<Point>, place: u8, digest: &[u8; 16]) -> Result<(), AllocError>
    ensures { OnOk result (points.new.items ≡ points.old.items ++ map (λ at. record { at = at; node = place }) (words_of digest.now)) }
{
    for at in [0, 4, 8, 12] {
        points.push(Point {
            at: word_at(digest, at),
            node: place,
        })?;
    }
    Ok(())
}

/// The node of the next of the points that are up, which ascend: the first that isn't below a number, else the first of
/// all.
pub(crate) fn next_node(points: &[Point], number: u32, up: u64) -> Option<u8>
    requires { Ascends points.now }
    ensures { result ≡ option_map (λ p. p.node) (next_point number (filter (λ p. is_up up p.node) points.now)) }
{
    let start = points.partition_point(|p| p.at < number);
    let (below, above) = points.split_at(start);
    first_up(above, up).or_else(|| first_up(below, up))
}

/// The node of the first point whose node is up.
fn first_up(points: &[Point], up: u64) -> Option<u8>
    ensures { result ≡ first_up up points.now }
{
    points.iter().find(|p| is_up(up, p.node)).map(|p| p.node)
}
