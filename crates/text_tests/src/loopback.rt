// A server that listens on a socket: both ends are in this process, over the loopback interface.
ghost use Rattle.std.specs.Prelude.{None};

use crate::turns::{SETTINGS, TURNS};
use airbook_text::{Source, TextFault, listen_text, read_settings};
use std::alloc::Global;
use std::hash::{BuildHasherDefault, FoldHasher};
use std::net::{Ipv4Addr, Net, SocketAddr, UdpSocket};
use std::sync::Wait;
use std::test::Fail;
use std::thread::Threads;
use std::time::Duration;
use test_asserts::equal;
use text_lines::MemoryOut;

/// How many of the worked datagrams are sent: two copies of an uplink, and two passes.
const SENT: usize = 4;

const ANSWERED: &[u8] =
    b"opened 1\njoined 1 2\nsend 1 2 RX1 10000000 868100000 5 12\nframe 1 60da1b0126200000240347ca\n\
      gateway 1 booked 0 cancelled 0 retired 0 kept 0\n\
      gateway 2 booked 41216 cancelled 0 retired 0 kept 1\nbusiest 2 M 10000000 41216\n\
      answered 1 unanswered 0 silent 0\n";

/// The end that listens.
#[derive(Drop)]
struct Listening {
    socket: UdpSocket,
    /// How many receives were made, up to 2^64 - 1.
    receives: u64,
}

impl Source for Listening {
    ghost seen = { λ s. record { receives = s.receives; received = None } };

    fn next(&mut self, into: &mut [u8]) -> Option<usize> {
        self.receives = self.receives.saturating_add(1);
        self.socket.recv(into).ok()
    }
}

/// A socket of this machine on a port that the system chooses. A receive that nothing comes to fails after ten seconds.
fn bound<N: Net>(net: &N) -> Result<UdpSocket, Fail> {
    let socket = UdpSocket::bind(net, (Ipv4Addr::LOCALHOST, 0))?;
    socket.set_read_timeout(Some(Duration::from_secs(10)))?;
    Ok(socket)
}

/// Sends datagrams from another socket.
fn send<N: Net>(net: &N, to: SocketAddr, datagrams: &[Option<&[u8]>]) -> Result<(), Fail> {
    let socket = bound(net)?;
    for datagram in datagrams {
        let bytes = datagram.ok_or("no datagram")?;
        equal(&socket.send_to(bytes, to)?, &bytes.len())?;
    }
    Ok(())
}

/// What is answered to what came to a socket.
fn answered<R: Threads + Wait + Sync>(
    rt: &R,
    alloc: Global,
    socket: UdpSocket,
) -> Result<(Result<bool, TextFault>, Vec<u8>), Fail> {
    let settings = read_settings(alloc, SETTINGS)?;
    let hasher: BuildHasherDefault<FoldHasher> = BuildHasherDefault::new();
    let mut source = Listening {
        socket,
        receives: 0,
    };
    let mut writer = MemoryOut::new(alloc);
    let told = listen_text(
        rt,
        alloc,
        hasher,
        &settings,
        1,
        &mut source,
        SENT as u32,
        &mut writer,
    );
    Ok((told, writer.bytes))
}

#[test]
fn what_comes_over_loopback_is_answered(rt: HostRuntime) -> Result<(), Fail> {
    let socket = bound(&rt)?;
    send(&rt, socket.local_addr()?, &TURNS[..SENT])?;
    let (told, output) = answered(&rt, rt.alloc(), socket)?;
    equal(&told, &Ok(false))?;
    equal(&output.as_slice(), &ANSWERED)
}
