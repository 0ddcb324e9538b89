use crate::adapter::{Adapter, refusal_of};
use crate::shared::Shared;
use sd_outside::{Address, Failed, OpenRefusal, Opens, Source, fault};
use std::fs::File;
use std::io::Read;
use std::str;

/// A file that bytes are read from. It doesn't tell what it has left.
pub(crate) type FileSource<'a, X> = Adapter<'a, X, File>;

/// The file of an address.
fn file_at(rt: &HostRuntime, shared: &Shared<'_>, at: &Address) -> Result<File, OpenRefusal> {
    let Address::File(name) = at else {
        return Err(OpenRefusal::Failed);
    };
    let Ok(path) = str::from_utf8(name.as_slice()) else {
        return Err(OpenRefusal::Failed);
    };
    File::open(rt, path).map_err(|error| refusal_of(shared, error))
}

impl<'a, X> Opens for Adapter<'a, X, File> {
    fn open_at(&mut self, at: &Address) -> Result<(), OpenRefusal> {
        let file = file_at(self.rt, self.shared, at);
        self.keep(at, file)
    }
}

impl<'a, X> Source for Adapter<'a, X, File> {
    fn read(&mut self, buf: &mut [u8]) -> Result<usize, Failed> {
        let Some(file) = &mut self.object else {
            return Err(fault(&mut self.faults));
        };
        match file.read(buf) {
            Ok(n) => Ok(n),
            Err(e) => {
                self.shared.log.note_reason(&e);
                Err(fault(&mut self.faults))
            }
        }
    }
}
