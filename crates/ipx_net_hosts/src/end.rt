//! An end of a connection, and its place.

use std::marker::Model;

/// An end: its host, its id there, whether it was released, and whether it received a message that
/// was too long.
#[derive(Drop)]
pub struct EndNow {
    pub host: usize,
    pub id: u16,
    pub released: bool,
    pub overlong: bool,
}

impl Model for EndNow {
    ghost use Rattle.spx_theory.specs.World.{EndNow};

    ghost Value = { EndNow };

    ghost view = { λ e.
        record { host = e.host; id = e.id; released = e.released; overlong = e.overlong } };
}
