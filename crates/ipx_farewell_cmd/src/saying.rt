//! Sends the packets of all ports, with pauses.

use crate::fault::FarewellFault;
use crate::pauses::{BETWEEN_ROUNDS, pause_after_packet, rounds};
use crate::ports::ToldPort;
use ipx_sockets::{Poller, WaitFault};

/// Sends the packets of a port.
fn say_at(told: &mut ToldPort, pauses: &mut Poller) -> Result<(), WaitFault> {
    for (place, packet) in told.packets.iter().enumerate() {
        told.outlet.send(&packet.bytes);
        if let Some(pause) = pause_after_packet(place + 1) {
            pauses.wait(pause)?;
        }
    }
    Ok(())
}

/// Sends the packets of each port once, in the order of the ports.
fn say_once(told: &mut [ToldPort], pauses: &mut Poller) -> Result<(), WaitFault> {
    for port in told.iter_mut() {
        say_at(port, pauses)?;
    }
    Ok(())
}

/// Sends the packets of all ports in each round, and pauses between rounds. The poller must watch
/// nothing.
pub fn say_all(told: &mut [ToldPort], pauses: &mut Poller) -> Result<(), FarewellFault> {
    for round in 0..rounds() {
        if round > 0 {
            pauses.wait(BETWEEN_ROUNDS)?;
        }
        say_once(told, pauses)?;
    }
    Ok(())
}
