use arrayvec::ArrayVec;

/// A file's name, a host's name or a setting's text: at most 255 bytes.
pub type Name = ArrayVec<u8, 255>;

/// Where an object is opened.
#[derive(Clone, Debug, PartialEq, Eq, Drop)]
pub enum Address {
    /// A file by its name. The empty name is standard output.
    File(Name),
    /// A host and a port.
    Host {
        host: Name,
        port: u16,
    },
    /// Where datagrams come: a host, a port, and how many bytes of room for those that wait are asked of the system. 0 asks
    /// for none.
    Datagrams {
        host: Name,
        port: u16,
        receive_buffer: u32,
    },
}

impl Address {
    ghost use Rattle.std.specs.Prelude.{◌≡◌};

    /// The same address once more, for which no memory is taken.
    pub fn copied(&self) -> Address
        ensures { result ≡ self.now }
    {
        self.clone().unwrap()
    }
}
