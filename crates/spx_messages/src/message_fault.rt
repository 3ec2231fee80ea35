//! Why a message was not split, or units were not joined.

ghost use Rattle.std.specs.Prelude.{◌≡◌};
ghost use Rattle.spx_messages.specs.Message.{message_fault_number};
ghost use Rattle.spx_messages.specs.declared.message_fault.MessageFault.TheVariants as MessageFaults;

use std::alloc::{AllocError, AllocFailed};
use thiserror::Error;

/// Why a message was not split into units, or units were not joined to a message.
#[derive(Clone, Copy, Debug, PartialEq, Eq, Error)]
pub enum MessageFault {
    #[error("out of memory")]
    OutOfMemory,
    /// The number of bytes of the message.
    #[error("{0} bytes, a message has at most 65535")]
    TooLong(usize),
    /// The datastream type is FE or FF, which belong to the end of a connection.
    #[error("datastream type {0:02x}, a message has at most fd")]
    BadStream(u8),
    /// More bytes arrived without an end of message than a message may have.
    #[error("a message of over 65535 bytes came")]
    Overlong,
}

impl MessageFault {
    /// The fault's number, 27 or 29 to 31. Programs print and compare it.
    pub fn number(&self) -> u8
        ensures { result ≡ message_fault_number self.now }
    {
        match self {
            MessageFault::OutOfMemory => 27,
            MessageFault::TooLong(_) => 29,
            MessageFault::BadStream(_) => 30,
            MessageFault::Overlong => 31,
        }
    }
}

impl From<AllocError> for MessageFault {
    ghost from_gives = { λ _ e. e ≡ MessageFaults.OutOfMemory };

    fn from(_error: AllocError) -> MessageFault {
        MessageFault::OutOfMemory
    }
}

impl<T: Drop> From<AllocFailed<T>> for MessageFault {
    ghost from_gives = { λ _ e. e ≡ MessageFaults.OutOfMemory };

    fn from(_error: AllocFailed<T>) -> MessageFault {
        MessageFault::OutOfMemory
    }
}
