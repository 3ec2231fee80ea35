//! The port where a router speaks.

use ipx_router::Port;

/// A port of a router, and its number, from 1.
#[derive(Clone, Copy)]
pub struct Speaker {
    pub number: u8,
    pub port: Port,
}
