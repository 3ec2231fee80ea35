//! What a listening host has to do with its connections, and how long it may wait if nothing is
//! received.

ghost use Rattle.std.specs.Prelude.{◌≡◌, ◌<◌, length, slice_get, take, All, IfSome, MatchOption};
ghost use Rattle.ipx_host.specs.Sleeping.{AllStayFor, StaysFor};
ghost use Rattle.ipx_host.specs.Tending.{IsActionFor, JustStays};
ghost use Rattle.ipx_host.specs.declared.sessions.SessionAction.TheVariants as ActionsOfSessions;

use crate::paced_host_core::PacedHostCore;
use crate::sessions::{
    FIRST_DATA_TIMEOUT, KEEPALIVE_AFTER, LINGER, Phase, Session, SessionAction, session_action,
};
use ipx_sockets::LONGEST;

/// Returns the action that is due for a connection of a host now.
pub fn action_in(core: &PacedHostCore, session: &Session) -> SessionAction
    ensures fate { IsActionFor core.now session.now result }
    ensures asks { IsActionFor core.now session.now ActionsOfSessions.Asks → result ≡ ActionsOfSessions.Asks }
{
    let state = core.endpoint.state(session.id).ok();
    let silent = core.moment().saturating_sub(session.heard);
    session_action(session.phase, state, silent)
}

/// Returns the place of the first connection with an action other than `Stays`.
pub fn first_to_tend(core: &PacedHostCore, sessions: &[Session]) -> Option<usize>
    ensures there { IfSome result (λ place. place < length sessions.now) }
    ensures first { MatchOption result (All (JustStays core.now) sessions.now)
        (λ place. All (JustStays core.now) (take place sessions.now)
        × IfSome (slice_get sessions.now place) (λ c. JustStays core.now c → ⊥)) }
{
    for (place, session) in sessions.iter().enumerate() {
        if action_in(core, session) != SessionAction::Stays {
            return Some(place);
        }
    }
    None
}

/// Returns how long a connection needs no action, judged by its silence. It is 0 if an action is
/// due now.
fn stay_of(core: &PacedHostCore, session: &Session) -> u64
    ensures { StaysFor core.now session.now result }
{
    if action_in(core, session) != SessionAction::Stays {
        return 0;
    }
    let end = match session.phase {
        Phase::Open => session.heard.checked_add(KEEPALIVE_AFTER),
        Phase::New => session.heard.checked_add(FIRST_DATA_TIMEOUT),
        Phase::KeepaliveSent | Phase::NewProbed => None,
        Phase::Ended => session.heard.checked_add(LINGER),
    };
    match end {
        Some(end) => end.saturating_sub(core.moment()).min(LONGEST),
        None => LONGEST,
    }
}

/// Returns how long no connection needs an action, in milliseconds. It is at most
/// ten seconds, after which the host looks again whether a count is to be logged.
pub fn rest_of(core: &PacedHostCore, sessions: &[Session]) -> u64
    ensures { AllStayFor core.now sessions.now result }
{
    let mut least = LONGEST;
    for session in sessions {
        least = least.min(stay_of(core, session));
    }
    least
}
