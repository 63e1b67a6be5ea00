// What a server has of the world around it: a socket, a clock, the folder of its state, and standard output.
use crate::state_folder::StateFolder;
use log::{Log, warn};
use serve_turns::{Came, Endpoint, Host};
use std::fs::{File, Files};
use std::io;
use std::io::ErrorKind;
use std::net::{Ipv4Addr, Net, SocketAddr, SocketAddrV4, UdpSocket};
use std::sync::Wait;
use std::thread::sleep;
use std::time::{Clock, Duration, Instant};
use text_lines::{ByteOut, CallFailed, write_all};

/// How long is waited for a datagram, and until one is sent, in milliseconds.
const WAIT_MS: u64 = 5;

/// How long is waited behind a receive that fails, in milliseconds: it may fail at once, and again and again.
const REST_MS: u64 = 1_000;

/// A socket, a clock, where state is kept, and where lines are told.
#[derive(Drop)]
pub struct Surroundings<'a, R, W> {
    pub rt: &'a R,
    pub socket: UdpSocket,
    pub began: Instant,
    pub writer: &'a mut W,
    /// None where a server keeps no state. Then it sends acknowledgements alone, and answers to programs on the machine itself.
    pub state: Option<StateFolder>,
}

impl<R: Clock + Log + Files<File = File>, W: ByteOut> Host for Surroundings<'_, R, W> {
    fn receive(&mut self, into: &mut [u8]) -> Option<Came> {
        match self.socket.recv_from(into) {
            Ok((len, SocketAddr::V4(source))) => Some(Came {
                source: endpoint_of(&source),
                len,
            }),
            Ok((_, SocketAddr::V6(_))) => None,
            Err(error) => {
                if !is_idle(&error) {
                    warn!(self.rt; "nothing was received: {error}");
                    sleep(self.rt, Duration::from_millis(REST_MS));
                }
                None
            }
        }
    }

    fn rest(&mut self) {
        sleep(self.rt, Duration::from_millis(WAIT_MS));
    }

    fn now(&mut self) -> Option<u64> {
        let elapsed = self.began.elapsed(self.rt).ok()?;
        u64::try_from(elapsed.as_micros()).ok()
    }

    fn acknowledge(&mut self, to: Endpoint, bytes: &[u8]) {
        let _ = self.socket.send_to(bytes, address_of(&to));
    }

    fn append(&mut self, bytes: &[u8]) -> bool {
        match &mut self.state {
            Some(state) => is_kept(self.rt, state.append(bytes)),
            None => false,
        }
    }

    fn sync(&mut self) -> bool {
        match &self.state {
            Some(state) => is_kept(self.rt, state.sync()),
            None => false,
        }
    }

    fn replace(&mut self, journal: &[u8]) -> bool {
        match &mut self.state {
            Some(state) => is_kept(self.rt, state.replace(self.rt, journal)),
            None => false,
        }
    }

    fn send(&mut self, to: Endpoint, bytes: &[u8]) -> bool {
        if self.state.is_none() {
            return false;
        }
        self.socket.send_to(bytes, address_of(&to)).is_ok()
    }

    fn tell(&mut self, lines: &[u8]) -> Result<(), CallFailed> {
        write_all(self.writer, lines)
    }
}

/// Whether a write of the journal succeeded; why it didn't goes into the log.
fn is_kept<R: Log>(rt: &R, written: io::Result<()>) -> bool {
    match written {
        Ok(()) => true,
        Err(error) => {
            warn!(rt; "the journal was not written: {error}");
            false
        }
    }
}

/// Whether a receive gave nothing since none came, or since it was interrupted, as when the process is stopped and goes on.
fn is_idle(error: &io::Error) -> bool {
    let kind = error.kind();
    kind == ErrorKind::WouldBlock || kind == ErrorKind::Interrupted
}

/// Where a datagram came from.
fn endpoint_of(source: &SocketAddrV4) -> Endpoint {
    Endpoint {
        ip: source.ip().octets(),
        port: source.port(),
    }
}

/// Where a datagram goes to.
fn address_of(to: &Endpoint) -> SocketAddrV4 {
    SocketAddrV4::new(Ipv4Addr::from_octets(to.ip), to.port)
}

/// A socket at this address, of which a receive waits a short time, and so does what is sent.
pub fn bound<R: Net>(rt: &R, address: SocketAddrV4) -> io::Result<UdpSocket> {
    let socket = UdpSocket::bind(rt, address)?;
    socket.set_read_timeout(Some(Duration::from_millis(WAIT_MS)))?;
    socket.set_write_timeout(Some(Duration::from_millis(WAIT_MS)))?;
    Ok(socket)
}
