//! Whether the packets that ends read from their peers are recent.

use crate::log_index::LogIndex;
use crate::reading::Reading;
use crate::role::Role;
use spx_theory::peer_is_found;

/// From this number of units on, sent by an end between the sending of a packet and its reading,
/// the packet is too old. It is half of all sequence numbers.
const TOO_MANY: usize = 32_768;

impl LogIndex {
    ghost use Rattle.std.specs.Prelude.{◌≡◌, ◌<◌, ◌↔◌, All, IsTrue, map, option_map, slice_get};
    ghost use Rattle.spx_theory.specs.EndsSummarized.{peer_in};
    ghost use Rattle.spx_theory.specs.Peers.{IsRecent, units_between};
    ghost use Rattle.ipx_net.specs.Sights.{reading_view, role_view, scan_of};

    /// The role of an end, by its number.
    fn role(&self, end: usize) -> Option<Role>
        ensures { option_map role_view result ≡ slice_get (map role_view self.now.roles.items) end }
    {
        self.roles.get(end).copied()
    }

    /// The peer of an end: each was made or joined by a packet of the other, and one of them
    /// dialled.
    pub fn peer(&self, end: usize) -> Option<usize>
        ensures { result ≡ peer_in (scan_of self.now) end }
    {
        let role = self.role(end)?;
        let partner = role.partner?;
        let back = self.role(partner)?;
        if back.partner == Some(end) && back.called != role.called {
            Some(partner)
        } else {
            None
        }
    }

    /// Whether an end sent fewer than 32,768 units between the sending and the reading of a packet.
    fn sent_few(&self, who: usize, reading: &Reading) -> bool
        ensures { IsTrue result
            ↔ (units_between who self.now.sent.items (reading_view reading.now) < 32768) }
    {
        reading.to.saturating_sub(reading.from) < TOO_MANY
            || self
                .places
                .between(&self.sent, who, reading.from, reading.to)
                < TOO_MANY
    }

    /// Whether an end read a packet of its peer before either of the two sent 32,768 units since.
    /// Other packets count as recent.
    fn is_recent(&self, reading: &Reading) -> bool
        ensures { IsTrue result ↔ IsRecent (scan_of self.now) (reading_view reading.now) }
    {
        peer_is_found();
        match reading.maker.end() {
            Some(maker) => {
                self.peer(reading.who) != Some(maker)
                    || (self.sent_few(reading.who, reading) && self.sent_few(maker, reading))
            }
            None => true,
        }
    }

    /// Whether all packets that ends have read are recent.
    pub fn are_recent(&self) -> bool
        ensures { IsTrue result
            ↔ All (λ r. IsRecent (scan_of self.now) (reading_view r)) self.now.readings.items }
    {
        for reading in &self.readings {
            if !self.is_recent(reading) {
                return false;
            }
        }
        true
    }
}
