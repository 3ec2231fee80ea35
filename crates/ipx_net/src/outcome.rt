//! An event has one outcome.

ghost use Rattle.ipx_net.specs.OneOutcome.{EventsHaveOneOutcome};

use ipx_router::{advertisements_are_determined, answer_is_one, offers_are_one, start_is_one};
use spx_messages::{datagram_does_one_thing, poll_is_one};

/// From one network each event has one answer, one log, and the same ends and parcels, unless out
/// of memory. Each host has the same address, listeners and links, and the same ends by their ids.
/// Which packet a host sent last, and which it read last, is not covered. Each router has the same
/// offers, in any order in its tables, and last advertised at the same time.
pub fn events_have_one_outcome()
    ensures { EventsHaveOneOutcome }
{
    datagram_does_one_thing();
    poll_is_one();
    answer_is_one();
    offers_are_one();
    advertisements_are_determined();
    start_is_one();
}
