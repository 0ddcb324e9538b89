/// What a look at the clients of a door brought.
#[derive(Clone, Copy)]
pub(crate) struct Look {
    /// Whether something came: a client, bytes of one, or the end of one.
    pub is_new: bool,
    /// Whether the listener or a connection failed.
    pub has_failed: bool,
}

impl Look {
    /// Nothing came.
    pub(crate) const NOTHING: Look = Look {
        is_new: false,
        has_failed: false,
    };

    /// Something came.
    pub(crate) const NEWS: Look = Look {
        is_new: true,
        has_failed: false,
    };

    /// Nobody could be looked at.
    pub(crate) const FAULT: Look = Look {
        is_new: false,
        has_failed: true,
    };

    /// What two looks brought together.
    pub(crate) fn and(self, other: Look) -> Look {
        Look {
            is_new: self.is_new || other.is_new,
            has_failed: self.has_failed || other.has_failed,
        }
    }
}
