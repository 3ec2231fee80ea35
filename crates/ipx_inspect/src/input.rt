//! What is read from a reader.

ghost use Rattle.std.specs.Prelude.{◌≡◌, ◌≤◌, ◌<◌, ◌^◌, IfOk, IfSome, take};

use std::alloc::Global;
use std::io::{ErrorKind, Read};

/// Why nothing was read.
#[derive(Clone, Copy)]
pub enum InputFault {
    Memory,
    Read,
}

/// The longest input of a command that reads lines, in bytes.
pub const MAX_INPUT: usize = 1_000_000;

/// How often a reader is asked at most.
const TURNS: u32 = 1_000_000;

/// The bytes that a reader has left, at most `most`.
pub fn read_up_to<R: Read>(
    alloc: Global,
    reader: &mut R,
    most: usize,
) -> Result<Vec<u8>, InputFault>
    ensures { IfOk result (λ v.
        IfSome (R.remaining reader.old) (λ input. v.items ≡ take most input)) }
{
    let mut bytes = Vec::new(alloc);
    for _ in 0..TURNS {
        let mut part = [0u8; 512];
        let room = (most - bytes.len()).min(512);
        if room == 0 {
            return Ok(bytes);
        }
        match reader.read(&mut part[..room]) {
            Ok(0) => return Ok(bytes),
            Ok(count) => {
                if bytes.extend_from_slice(&part[..count]).is_err() {
                    return Err(InputFault::Memory);
                }
            }
            Err(error) => {
                if error.kind() != ErrorKind::Interrupted {
                    return Err(InputFault::Read);
                }
            }
        }
    }
    Err(InputFault::Read)
}
