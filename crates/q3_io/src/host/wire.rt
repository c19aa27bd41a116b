//! A socket of the system.

ghost use Rattle.std.specs.Prelude.{◌≡◌, ◌≤◌, None, IfOk, IfSome, length, false};

use super::counted;
use crate::address::Address;
use crate::sink::Failed;
use crate::wire::Wire;
use std::io;
use std::io::ErrorKind;
use std::marker::Model;
use std::net::{IpAddr, Ipv4Addr, Net, SocketAddr, SocketAddrV4, UdpSocket};
use std::time::Duration;

/// A receive waits for so many milliseconds at most, which the system may round up to its clock.
const WAITS: u64 = 1;

/// A socket for datagrams over UDP, of IPv4. What goes to port 0 is lost: a datagram may come from there, but none can go back, and one
/// that comes so must not end a server for the others.
#[derive(Drop)]
pub struct UdpWire<R> {
    rt: R,
    socket: Option<UdpSocket>,
    faults: u64,
}

impl<R> Model for UdpWire<R> {
    ghost use Rattle.std.specs.Prelude.{is_some};
    ghost use Rattle.q3_io.specs.HostCounts.{WireCounts};

    ghost Value = { WireCounts };

    ghost view = { λ w. record { bound = is_some w.socket; faults = w.faults } };
}

impl<R: Net> UdpWire<R> {
    /// No address is bound, and nothing failed.
    pub fn new(rt: R) -> UdpWire<R>
        ensures { result ≡ record { bound = false; faults = 0 } }
    {
        UdpWire {
            rt,
            socket: None,
            faults: 0,
        }
    }
}

/// An address as the system has it.
fn socket_address(address: Address) -> SocketAddr {
    SocketAddr::V4(SocketAddrV4::new(Ipv4Addr::from_bits(address.host), address.port))
}

/// Binds a socket whose receives wait a short while at most.
fn open<R: Net>(rt: &R, at: Address) -> io::Result<UdpSocket> {
    let socket = UdpSocket::bind(rt, socket_address(at))?;
    socket.set_read_timeout(Some(Duration::from_millis(WAITS)))?;
    Ok(socket)
}

/// Sends a datagram whole.
fn send(socket: &Option<UdpSocket>, to: Address, bytes: &[u8]) -> Result<(), Failed> {
    let Some(socket) = socket else {
        return Err(Failed);
    };
    match socket.send_to(bytes, socket_address(to)) {
        Ok(count) if count == bytes.len() => Ok(()),
        _ => Err(Failed),
    }
}

/// Takes an arrival. Nothing is ready where the wait is over, where it was interrupted, or where the system only tells that a datagram
/// sent before found no port.
fn receive(socket: &Option<UdpSocket>, into: &mut [u8]) -> Result<Option<(Address, usize)>, Failed>
    ensures count { IfOk result (λ found. IfSome found (λ arrival. arrival.1 ≤ length into.old)) }
    ensures length { length into.new ≡ length into.old }
{
    let Some(socket) = socket else {
        return Err(Failed);
    };
    match socket.recv_from(into) {
        Ok((count, from)) => Ok(arrival_from(from).map(|from| (from, count))),
        Err(e) => match e.kind() {
            ErrorKind::WouldBlock
            | ErrorKind::TimedOut
            | ErrorKind::Interrupted
            | ErrorKind::ConnectionRefused
            | ErrorKind::ConnectionReset => Ok(None),
            _ => Err(Failed),
        },
    }
}

/// The address of a sender, which a socket of IPv4 always has.
fn arrival_from(from: SocketAddr) -> Option<Address> {
    match from.ip() {
        IpAddr::V4(host) => Some(Address {
            host: host.to_bits(),
            port: from.port(),
        }),
        IpAddr::V6(_) => None,
    }
}

impl<R: Net> Wire for UdpWire<R> {
    ghost faults = { λ w. w.faults };

    ghost bound = { λ w. w.bound };

    ghost told = { λ w. None };

    fn bind(&mut self, at: Address) -> Result<(), Failed> {
        let bound = match open(&self.rt, at) {
            Ok(socket) => {
                self.socket = Some(socket);
                Ok(())
            }
            Err(_) => Err(Failed),
        };
        counted(bound, &mut self.faults)
    }

    fn send(&mut self, to: Address, bytes: &[u8]) -> Result<(), Failed> {
        if to.port == 0 {
            return Ok(());
        }
        let sent = send(&self.socket, to, bytes);
        counted(sent, &mut self.faults)
    }

    fn receive(&mut self, into: &mut [u8]) -> Result<Option<(Address, usize)>, Failed> {
        let received = receive(&self.socket, into);
        counted(received, &mut self.faults)
    }
}
