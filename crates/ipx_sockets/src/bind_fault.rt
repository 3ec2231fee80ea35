//! Why sockets were not bound.

use std::io::ErrorKind;
use std::{fmt, io};
use thiserror::Error;

/// Why a socket could not be bound to an IP address and a UDP port: the system's error.
#[derive(Clone, Copy, Debug, PartialEq, Eq)]
pub struct BindError {
    pub ip: [u8; 4],
    pub udp_port: u16,
    pub kind: ErrorKind,
    /// The number of the system's error, if it is one of the system.
    pub code: Option<i32>,
}

/// Why sockets were not bound.
#[derive(Clone, Copy, Debug, PartialEq, Eq, Error)]
pub enum BindFault {
    #[error("out of memory")]
    OutOfMemory,
    /// The number of the port whose socket could not be bound, starting at 1, and the reason.
    #[error("port {0}: {1}")]
    Port(usize, BindError),
}

/// The error that the system reports for a socket at this address.
pub fn bind_error(ip: [u8; 4], udp_port: u16, error: &io::Error) -> BindError {
    BindError {
        ip,
        udp_port,
        kind: error.kind(),
        code: error.raw_os_error(),
    }
}

impl BindError {
    /// What usually causes the error, if the system's text does not say it.
    fn hint(&self) -> &'static str {
        match self.kind {
            ErrorKind::AddrNotAvailable => "; no interface of this machine has this address",
            ErrorKind::AddrInUse => "; another program uses it, perhaps another ipx",
            ErrorKind::PermissionDenied if self.udp_port < 1024 => {
                "; UDP ports below 1024 need root or CAP_NET_BIND_SERVICE"
            }
            _ => "",
        }
    }
}

/// As `bind 192.0.2.10:213: Address already in use (os error 98)`.
impl fmt::Display for BindError {
    fn fmt<W: fmt::Write>(&self, f: &mut fmt::Formatter<W>) -> fmt::Result {
        let [a, b, c, d] = self.ip;
        write!(f, "bind {a}.{b}.{c}.{d}:{}: ", self.udp_port)?;
        match self.code {
            Some(code) => write!(f, "{}", io::Error::from_raw_os_error(code))?,
            None => write!(f, "{}", self.kind)?,
        }
        f.write_str(self.hint())
    }
}
