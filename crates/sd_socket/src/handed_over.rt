ghost use Rattle.std.specs.Prelude.{◌≡◌, ◌↔◌, false, IfOk, IsNone, IsTrue, OnErr, OnOk};
ghost use Rattle.sd_socket.specs.Handed.{HasNoDatagrams, HasNoListener, HasNone, HasNothing, WasAdded, offers_of, socket_count};

use crate::call::duplicate;
use crate::offered::{Offered, offered_by};
use std::alloc::{AllocError, Global};
use std::env::{self, Env, VarError};
use std::io::{self, ErrorKind};
use std::net::{SocketAddr, TcpListener, UdpSocket};
use std::os::fd::OwnedFd;
use std::sync::atomic::{AtomicBool, Ordering};

/// The variable that has the number of the process that descriptors are handed over to.
const LISTEN_PID: &str = "LISTEN_PID";

/// The variable that has how many are handed over.
const LISTEN_FDS: &str = "LISTEN_FDS";

/// The first one's number (`sd_listen_fds(3)`).
const FIRST: u16 = 3;

/// A socket that was handed over.
#[derive(Drop)]
struct Offer {
    fd: OwnedFd,
    offered: Offered,
    is_taken: AtomicBool,
}

/// The sockets that were handed over by what started the process. Each is taken once at most.
///
/// It has descriptors of its own, as each that takes a socket gets, so that the numbers under which they came stay open, and
/// are never another's.
#[derive(Drop)]
pub struct HandedOver {
    offers: Vec<Offer>,
    has_others: bool,
}

impl HandedOver {
    /// No socket.
    pub fn none(alloc: Global) -> HandedOver
        ensures { HasNothing result }
    {
        HandedOver {
            offers: Vec::new(alloc),
            has_others: false,
        }
    }

    /// What the environment of the process, which has this number, says that it was handed, as `sd_listen_fds(3)` has it: none
    /// where `LISTEN_PID` isn't that number, or `LISTEN_FDS` isn't a number up to 65,535.
    ///
    /// # Errors
    ///
    /// Where no memory is left for the list.
    pub fn of_process<R: Env + Alloc>(
        rt: &R,
        alloc: Global,
        process: u32,
    ) -> Result<HandedOver, AllocError> {
        let mut handed = HandedOver::none(alloc);
        if number_in(rt, LISTEN_PID)? != Some(process) {
            return Ok(handed);
        }
        let count = number_in(rt, LISTEN_FDS)?.and_then(|count| u16::try_from(count).ok());
        for i in 0..count.unwrap_or(0) {
            match duplicate(i32::from(FIRST) + i32::from(i)) {
                Ok(fd) => handed.add(fd)?,
                Err(_) => handed.has_others = true,
            }
        }
        Ok(handed)
    }

    /// One socket more. From then on its calls don't wait.
    ///
    /// # Errors
    ///
    /// Where no memory is left for the list.
    pub fn add(&mut self, fd: OwnedFd) -> Result<(), AllocError>
        ensures ok { OnOk result (WasAdded self.old self.new) }
        ensures err { OnErr result (offers_of self.new ≡ offers_of self.old) }
    {
        let (fd, offered) = offered_by(fd);
        match offered {
            Some(offered) => self.offers.push(Offer {
                fd,
                offered,
                is_taken: AtomicBool::new(false),
            })?,
            None => self.has_others = true,
        }
        Ok(())
    }

    /// The first socket for datagrams at this address that wasn't taken yet, and none where none is there. It has its port, and its
    /// address where neither stands for each address of this machine.
    ///
    /// # Errors
    ///
    /// `AddrInUse` where all that are there were taken, and those of the system.
    pub fn take_datagrams(&self, at: SocketAddr) -> io::Result<Option<UdpSocket>>
        ensures { IfOk result (λ taken. IsNone taken ↔ HasNoDatagrams at self.now) }
    {
        let Some(fd) = self.take(Offered::Datagrams(at))? else {
            return Ok(None);
        };
        let socket = UdpSocket::from(fd);
        socket.set_nonblocking(false)?;
        Ok(Some(socket))
    }

    /// The first socket at this address that listens for connections and wasn't taken yet, likewise. Its calls don't wait.
    ///
    /// # Errors
    ///
    /// `AddrInUse` where all that are there were taken, and those of the system.
    pub fn take_listener(&self, at: SocketAddr) -> io::Result<Option<TcpListener>>
        ensures { IfOk result (λ taken. IsNone taken ↔ HasNoListener at self.now) }
    {
        Ok(self.take(Offered::Connections(at))?.map(TcpListener::from))
    }

    /// Whether no socket was handed over.
    pub fn is_empty(&self) -> bool
        ensures { IsTrue result ↔ (socket_count self.now ≡ 0) }
    {
        self.offers.is_empty()
    }

    /// Whether something was handed over that wasn't taken, or that is no socket of these kinds.
    pub fn has_untaken(&self) -> bool
        ensures { HasNothing self.now → result ≡ false }
    {
        self.has_others
            || self
                .offers
                .iter()
                .any(|offer| !offer.is_taken.load(Ordering::SeqCst))
    }

    fn take(&self, wanted: Offered) -> io::Result<Option<OwnedFd>>
        ensures { IfOk result (λ taken. IsNone taken ↔ HasNone wanted self.now) }
    {
        if !self.offers.iter().any(|offer| offer.offered.fits(wanted)) {
            return Ok(None);
        }
        for offer in &self.offers {
            if offer.offered.fits(wanted) && !offer.is_taken.swap(true, Ordering::SeqCst) {
                return Ok(Some(offer.fd.try_clone()?));
            }
        }
        Err(io::Error::from(ErrorKind::AddrInUse))
    }
}

/// The number that a variable of the environment has.
///
/// # Errors
///
/// Where no memory is left for its text.
fn number_in<R: Env + Alloc>(rt: &R, name: &str) -> Result<Option<u32>, AllocError> {
    match env::var(rt, name) {
        Ok(text) => Ok(text.as_str().parse::<u32>().ok()),
        Err(VarError::OutOfMemory) => Err(AllocError),
        Err(VarError::NotPresent | VarError::NotUnicode) => Ok(None),
    }
}
