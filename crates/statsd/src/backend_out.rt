use crate::adapter::Adapter;
use crate::shared::Shared;
use crate::standard_out::{is_standard, write_text};
use sd_event::Link;
use sd_net::{GraphiteLink, Rounds, Text};
use sd_outside::{Address, Backend, Failed, OpenRefusal, Opens, Sink, fault};
use std::thread::Threads;

/// Where a backend's text goes.
#[derive(Drop)]
pub(crate) enum Destination<'a, X> {
    Standard(Rounds),
    Graphite(GraphiteLink<'a, X>),
}

/// A backend that writes to standard output, where it doesn't set the lists apart, if it is opened at the file with the empty
/// name, and to Graphite if it is opened at a host. It doesn't tell what it was given.
pub(crate) type BackendOut<'a, X> = Adapter<'a, X, Destination<'a, X>>;

/// The destination at an address.
fn destination_at<'a, X: Threads>(
    rt: &'a HostRuntime,
    threads: &'a X,
    shared: &'a Shared<'a>,
    at: &Address,
) -> Result<Destination<'a, X>, OpenRefusal> {
    if is_standard(at) {
        return Ok(Destination::Standard(Rounds::of(Link::Console)));
    }
    let mut link = GraphiteLink::new(rt, threads, &shared.stop, &shared.pace, &shared.log);
    link.open_at(at)?;
    Ok(Destination::Graphite(link))
}

impl<'a, X: Threads> Opens for Adapter<'a, X, Destination<'a, X>> {
    fn open_at(&mut self, at: &Address) -> Result<(), OpenRefusal> {
        let destination = destination_at(self.rt, self.threads, self.shared, at);
        self.keep(at, destination)
    }
}

impl<'a, X: Threads> Sink for Adapter<'a, X, Destination<'a, X>> {
    fn write(&mut self, bytes: &[u8]) -> Result<usize, Failed> {
        let written = match &mut self.object {
            None => Err(Failed),
            Some(Destination::Standard(rounds)) => {
                match write_text(self.rt, self.shared, Text::Flush, bytes) {
                    Ok(n) => Ok(n),
                    Err(e) => {
                        rounds.fail(&self.shared.log, b"", &e);
                        Err(Failed)
                    }
                }
            }
            Some(Destination::Graphite(link)) => link.write(bytes),
        };
        match written {
            Ok(n) => Ok(n),
            Err(Failed) => Err(fault(&mut self.faults)),
        }
    }

    ghost number_fits = { λ s. tt };
}

impl<'a, X: Threads> Backend for Adapter<'a, X, Destination<'a, X>> {
    fn begin(&mut self) -> Result<(), Failed> {
        let begun = match &mut self.object {
            None => Err(Failed),
            Some(Destination::Standard(rounds)) => {
                rounds.begin();
                Ok(())
            }
            Some(Destination::Graphite(link)) => link.begin(),
        };
        match begun {
            Ok(()) => Ok(()),
            Err(Failed) => Err(fault(&mut self.faults)),
        }
    }

    fn finish(&mut self) -> Result<(), Failed> {
        let finished = match &mut self.object {
            None => Err(Failed),
            Some(Destination::Standard(rounds)) => {
                rounds.end(&self.shared.log, b"");
                Ok(())
            }
            Some(Destination::Graphite(link)) => link.finish(),
        };
        match finished {
            Ok(()) => Ok(()),
            Err(Failed) => Err(fault(&mut self.faults)),
        }
    }
}
