/// The objects of a proxy, lent to its run: the sources of its receivers; their wires, one to each node for each receiver, and behind
/// them those of its reader of lines, where it has one; the door of that; the beat of its checks; the probe that asks the nodes; and
/// the door of its port.
#[derive(Drop)]
pub struct RelayParts<'d, 'l, 's, 'p, 'q, 'e, D, L, S, P, Q, E> {
    pub packets: &'d mut Vec<D>,
    pub wires: &'l mut Vec<L>,
    pub lines: &'s mut S,
    pub beat: &'p mut P,
    pub probe: &'q mut Q,
    pub door: &'e mut E,
}
