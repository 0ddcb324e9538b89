//! What a pass of a queue of buffers knows. No value of it is made.
use std::collections::LinkedList;

/// The view of a pass: what it may do, and what it knows of the queue.
pub struct PassView {
    pub puts: bool,
    pub takes: bool,
    /// How many bytes each buffer of the queue can hold.
    pub size: u64,
    /// At least so many buffers were put into the queue.
    pub least: u64,
    /// The texts put in, where it puts.
    pub put: LinkedList<LinkedList<u8>>,
    /// The texts taken out, where it takes.
    pub taken: LinkedList<LinkedList<u8>>,
}
