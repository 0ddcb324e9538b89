/// Where a line goes.
#[derive(Clone, Copy, Debug, PartialEq, Eq)]
pub enum Route {
    /// Nowhere: it has no colon, or the name before it has no key.
    Bad,
    /// Nowhere: no node is up.
    Unowned,
    /// To the node in this place.
    Node(u8),
}
