//! How a transfer ends.

ghost use Rattle.std.specs.Prelude.{◌≡◌, ◌≢◌, ◌↔◌, IsTrue, Some};
ghost use Rattle.ipx_host.specs.Transfer.{IsClosing, ended_at, verdict_at};
ghost use Rattle.ipx_host.specs.declared.send_outcome.SendOutcome.TheVariants as Verdicts;

use spx_link::State;

/// How a transfer ends.
#[derive(Clone, Copy)]
pub enum SendOutcome {
    /// The peer has acknowledged everything that was sent, and the end after it.
    Done,
    /// Nobody answered the request.
    Unanswered,
    /// The connection was given up.
    GivenUp,
    /// The peer ended the connection first.
    PeerLeft,
    /// Reading standard input failed.
    Unread,
    OutOfMemory,
    /// The system can't wait for the socket.
    Unwaited,
}

impl SendOutcome {
    /// The exit status.
    pub fn status(&self) -> u8
        ensures done { (result ≡ 0) ↔ (self.now ≡ Verdicts.Done) }
        ensures other { self.now ≢ Verdicts.Done → result ≡ 1 }
    {
        match self {
            SendOutcome::Done => 0,
            _ => 1,
        }
    }
}

/// Returns the outcome of a transfer by the state of its link, if the transfer is over. `whole`
/// says whether the peer has acknowledged everything, and the end too. `joined` says whether the
/// connection was ever open, and `waits` whether the rest may still be acknowledged.
pub fn verdict_of(
    state: Option<State>,
    whole: bool,
    joined: bool,
    waits: bool,
) -> Option<SendOutcome>
    // It is done exactly if the link is whole, and Ending, PeerEnded or Confirmed.
    ensures done { (result ≡ Some Verdicts.Done) ↔ (IsTrue whole × IsClosing state) }
    ensures verdict { result ≡ verdict_at whole joined waits state }
{
    match state {
        Some(State::Opening | State::Live) => None,
        Some(State::Ending | State::PeerEnded | State::Confirmed) if whole => Some(
            SendOutcome::Done,
        ),
        Some(State::Ending) => None,
        Some(State::PeerEnded) if waits => None,
        Some(State::PeerEnded) => Some(SendOutcome::PeerLeft),
        Some(State::Lost) if !joined => Some(SendOutcome::Unanswered),
        Some(State::Confirmed | State::Lost) | None => Some(SendOutcome::GivenUp),
    }
}

/// Returns this outcome, or `GivenUp` instead of `Done` if the end is not queued. A link is whole
/// only if its end was queued, so this never changes an outcome. But nothing else proves that a
/// done transfer has read all of its input: only after that is the end queued.
pub fn ended_by(verdict: SendOutcome, closed: bool) -> SendOutcome
    ensures { result ≡ ended_at closed verdict }
{
    match verdict {
        SendOutcome::Done if !closed => SendOutcome::GivenUp,
        _ => verdict,
    }
}
