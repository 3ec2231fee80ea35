//! What a ping reports.

ghost use Rattle.std.specs.Prelude.{◌≡◌, ◌++◌, OnOk};
ghost use Rattle.ipx_query_cmd.specs.PingLines.{news_times, ping_news, unanswered};

use ipx_query::PingCore;
use std::alloc::AllocFailed;

/// An answer: the number of its request, the time in tenths of a millisecond, and how many routers
/// it passed.
#[derive(Clone, Copy, PartialEq, Eq)]
pub struct PingAnswer {
    pub number: u32,
    pub tenths: u64,
    pub routers: u8,
}

/// The result of a request.
#[derive(Clone, Copy, PartialEq, Eq)]
pub enum PingEvent {
    Answered(PingAnswer),
    /// The number of the request.
    Unanswered(u32),
}

/// That the latest request has no answer, if one was sent.
pub fn unanswered(core: &PingCore) -> Option<PingEvent>
    ensures { result ≡ unanswered core.now }
{
    if core.sent() > 0 && core.answer().is_none() {
        Some(PingEvent::Unanswered(core.sent()))
    } else {
        None
    }
}

/// The event of a turn, given the core before and after it, and the time since the previous request
/// was sent.
pub fn news_of(before: &PingCore, after: &PingCore, tenths: u64) -> Option<PingEvent>
    ensures { result ≡ ping_news before.now after.now tenths }
{
    if after.answered() != before.answered() {
        return Some(PingEvent::Answered(PingAnswer {
            number: before.sent(),
            tenths,
            routers: after.passed(),
        }));
    }
    if after.sent() != before.sent() {
        unanswered(before)
    } else {
        None
    }
}

/// Records the time of an answer.
pub fn keep_time(times: &mut Vec<u64>, news: Option<PingEvent>) -> Result<(), AllocFailed<u64>>
    ensures { OnOk result (times.new.items ≡ times.old.items ++ news_times news) }
{
    match news {
        Some(PingEvent::Answered(answer)) => times.push(answer.tenths),
        _ => Ok(()),
    }
}
