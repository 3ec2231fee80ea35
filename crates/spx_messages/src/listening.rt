//! Listening sockets.

ghost use Rattle.std.specs.Prelude.{◌==◌, ◌≡◌, ◌≢◌, ℕ, None, OnErr, OnOk, Some, position};
ghost use Rattle.spx_messages.specs.EndpointView.{buffers_in};

use ipx_wire::{OutOfMemory, Socket};

/// A listening socket, and the number of buffers of each link that is accepted there.
#[derive(Clone, Copy, Debug, PartialEq, Eq)]
pub struct Listener {
    pub socket: Socket,
    pub buffers: u16,
}

/// The number of buffers of a link that is accepted at a socket, if that listens.
pub fn buffers_of(listening: &[Listener], socket: Socket) -> Option<u16>
    ensures { result ≡ buffers_in listening.now socket.0 }
{
    let listener = listening.iter().find(|l| l.socket.0 == socket.0)?;
    Some(listener.buffers)
}

/// The index of the socket among those that listen.
fn place_of(listening: &[Listener], socket: Socket) -> Option<usize>
    ensures { result ≡ position (λ l. l.socket.0 == socket.0) listening.now }
{
    listening.iter().position(|l| l.socket.0 == socket.0)
}

/// Makes a socket listen with so many buffers from now on. It allocates only if the socket did not
/// listen before.
pub fn add_listener(
    listening: &mut Vec<Listener>,
    socket: Socket,
    buffers: u16,
) -> Result<(), OutOfMemory>
    ensures this { OnOk result (buffers_in listening.new.items socket.0 ≡ Some buffers) }
    ensures others { OnOk result ((s : ℕ) → s ≢ socket.0
        → buffers_in listening.new.items s ≡ buffers_in listening.old.items s) }
    ensures unchanged { OnErr result (listening.new.items ≡ listening.old.items) }
    ensures memory { OnErr result (buffers_in listening.old.items socket.0 ≡ None) }
{
    let listener = Listener { socket, buffers };
    match place_of(listening, socket) {
        Some(place) => {
            listening[place] = listener;
            Ok(())
        }
        None => {
            listening.push(listener)?;
            Ok(())
        }
    }
}
