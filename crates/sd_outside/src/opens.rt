ghost use Rattle.std.specs.Prelude.{◌≡◌, ◌≤◌, OnOk, IsErrOf};
ghost use Rattle.sd_model_outside.specs.Outside.{Object, HasFailed, opened, last_count};
ghost use Rattle.sd_outside.specs.Places.{place_of};

use crate::address::Address;

/// A call on an object failed, and the object's count of faults rose.
#[derive(Clone, Copy, Debug, PartialEq, Eq)]
pub struct Failed;

/// Why an object wasn't opened.
#[derive(Clone, Copy, Debug, PartialEq, Eq)]
pub enum OpenRefusal {
    /// The object failed, and its count of faults rose.
    Failed,
    /// No memory is left, and the object is as it was. Only real objects answer it.
    OutOfMemory,
}

/// An object that may fail. It counts its faults up to 2^64 - 1, where the count stays.
pub trait Faulty {
    /// What is seen of it: what it tells of its content, how often it failed, and where it was last opened.
    ghost seen: { Self → Object };

    /// Its count of faults isn't above the last count.
    ghost faults_fit: { (s : Self) → (seen s).faults ≤ last_count };
}

/// An object that is opened at an address.
pub trait Opens: Faulty {
    /// Makes the object ready. Its content is as it was.
    ///
    /// # Errors
    ///
    /// `Failed` where the object failed, and `OutOfMemory` where memory ran out, which isn't a fault. In
    /// both cases it is where it was last opened before.
    fn open_at(&mut self, at: &Address) -> Result<(), OpenRefusal>
        ensures ok { OnOk result (Self.seen self.new ≡ opened (place_of at.now) (Self.seen self.old)) }
        ensures failed { IsErrOf result OpenRefusal.Failed → HasFailed (Self.seen self.old) (Self.seen self.new) }
        ensures out_of_memory { IsErrOf result OpenRefusal.OutOfMemory → Self.seen self.new ≡ Self.seen self.old };
}
