ghost use Rattle.std.specs.Prelude.{◌≡◌, ◌+◌, ◌≤◌, ◌++◌, ◌∷◌, length, map, decimal, codes, if◌then◌else◌, []};
ghost use Rattle.sd_model_ring.specs.Ring.{is_up};
ghost use Rattle.sd_model_record.specs.Replies.{end_lines};
ghost use Rattle.sd_model_live.specs.Port.{node_health_lines};
ghost use Rattle.sd_plan.specs.Entries.{node_view};

use sd_admin::end_line;
use sd_config::{LineText, ReplyLine, push_text};
use sd_decimal::{Line, write_whole};
use sd_plan::Node;

/// The reply to `nodes`: a line for each node, by the set of those that are up.
#[derive(Clone, Copy, Debug)]
pub(crate) struct NodesReply<'a> {
    pub nodes: &'a [Node],
    pub up: u64,
}

/// Whether the node in a place is up.
fn is_up(up: u64, place: usize) -> bool
    ensures { result ≡ is_up up place }
{
    place < 64 && (up >> place) % 2 == 1
}

/// Appends a space and a port.
fn push_port(port: u16, line: &mut ReplyLine)
    requires { length line.old.items ≤ 512 }
    ensures text { line.new.items ≡ line.old.items ++ 32 ∷ decimal port }
    ensures len { length line.new.items ≤ length line.old.items + 40 }
{
    let mut digits = Line::new();
    write_whole(u128::from(port), &mut digits);
    line.push(b' ');
    push_text(digits.as_slice(), line);
}

/// The line of the node in a place.
fn node_line(up: u64, place: usize, node: &Node) -> ReplyLine
    ensures { result.items ≡ (codes "node " ++ (node_view node.now).host ++ 32 ∷ decimal (node_view node.now).port ++ (if is_up up place then codes " up" else codes " down") ++ 10 ∷ []) }
{
    let mut line = ReplyLine::new();
    push_text(b"node ", &mut line);
    push_text(node.host.as_slice(), &mut line);
    push_port(node.port, &mut line);
    if is_up(up, place) {
        push_text(b" up\n", &mut line);
    } else {
        push_text(b" down\n", &mut line);
    }
    line
}

impl LineText for NodesReply<'_> {
    ghost lines = { λ r. node_health_lines r.up 0 (map node_view r.nodes.now) ++ end_lines };

    fn line_count(&self) -> usize {
        self.nodes.len() + 2
    }

    fn line(&self, place: usize) -> Option<ReplyLine> {
        match self.nodes.get(place) {
            Some(node) => Some(node_line(self.up, place, node)),
            None => end_line(place - self.nodes.len()),
        }
    }
}
