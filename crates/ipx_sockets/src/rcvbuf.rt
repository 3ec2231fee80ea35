//! The buffer sizes of sockets.

use libc::net::{SO_RCVBUF, SO_SNDBUF, SOL_SOCKET, getsockopt, setsockopt};
use std::os::fd::RawFd;

/// The bytes that each socket is asked to buffer of datagrams to read, and as many of datagrams to
/// send. A unit of 534 bytes takes about 1,280 of them.
pub const RCVBUF_SIZE: u32 = 4_194_304;

/// The size of a number that the system takes or returns, in bytes.
const NUMBER_LEN: u32 = 4;

/// Asks the system to let a socket buffer [`RCVBUF_SIZE`] bytes, and returns the size of its
/// receive buffer. It is less if the system has a lower limit, and 0 if the system does not say.
///
/// The system keeps and reports twice what it was asked for: the other half is for its own records.
pub fn set_rcvbuf(socket: RawFd) -> u32 {
    let mut asked = [0u8; 16];
    asked[..4].copy_from_slice(&RCVBUF_SIZE.to_ne_bytes());
    // A refusal changes nothing.
    let _ = unsafe { setsockopt(socket, SOL_SOCKET, SO_RCVBUF, &asked, NUMBER_LEN) };
    let _ = unsafe { setsockopt(socket, SOL_SOCKET, SO_SNDBUF, &asked, NUMBER_LEN) };
    let (mut told, mut len) = ([0u8; 16], NUMBER_LEN);
    match unsafe { getsockopt(socket, SOL_SOCKET, SO_RCVBUF, &mut told, &mut len) } {
        0 => u32::from_ne_bytes([told[0], told[1], told[2], told[3]]) / 2,
        _ => 0,
    }
}
