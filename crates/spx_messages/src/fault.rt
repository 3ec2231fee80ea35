//! Why a call of an endpoint was refused.

ghost use Rattle.std.specs.Prelude.{◌≡◌};
ghost use Rattle.spx_messages.specs.EndpointFaults.{end_fault_number};
ghost use Rattle.spx_messages.specs.declared.fault.EndFault.TheVariants as EndFaults;

use crate::message_fault::MessageFault;
use spx_link::{LinksFault, OfferFault};
use thiserror::Error;

/// Why a call on a connection was refused.
#[derive(Clone, Copy, Debug, PartialEq, Eq, Error)]
pub enum EndFault {
    /// Units, or the end of the connection, were not queued.
    #[error("{0}")]
    Offer(OfferFault),
    /// A message was not split into units, or a received message was too long.
    #[error("{0}")]
    Message(MessageFault),
    /// No link was made.
    #[error("{0}")]
    Links(LinksFault),
    /// No link has this id.
    #[error("no connection has this id")]
    NoSuchEnd,
}

impl EndFault {
    /// The fault's number, 25 to 31 or 34. Programs print and compare it.
    pub fn number(&self) -> u8
        ensures { result ≡ end_fault_number self.now }
    {
        match self {
            EndFault::Offer(fault) => fault.number(),
            EndFault::Message(fault) => fault.number(),
            EndFault::Links(fault) => fault.number(),
            EndFault::NoSuchEnd => 34,
        }
    }
}

impl From<OfferFault> for EndFault {
    ghost from_gives = { λ f e. e ≡ EndFaults.Offer f };

    fn from(fault: OfferFault) -> EndFault {
        EndFault::Offer(fault)
    }
}

impl From<MessageFault> for EndFault {
    ghost from_gives = { λ f e. e ≡ EndFaults.Message f };

    fn from(fault: MessageFault) -> EndFault {
        EndFault::Message(fault)
    }
}

impl From<LinksFault> for EndFault {
    ghost from_gives = { λ f e. e ≡ EndFaults.Links f };

    fn from(fault: LinksFault) -> EndFault {
        EndFault::Links(fault)
    }
}
