//! The lines of a ping.

ghost use Rattle.std.specs.Prelude.{◌≡◌, IfOk, string_bytes};
ghost use Rattle.ipx_query_cmd.specs.PingLines.{least_time, pinged_text, most_time, news_text, no_answer_line, ping_line, times_text, totals_line, whole_time};

use crate::columns::{network_to_digits, node_to_digits, socket_to_digits};
use crate::last_line::{count_to_text, tenths_to_text};
use crate::ping_event::{PingAnswer, PingEvent};
use ipx_wire::Address;
use std::alloc::{AllocError, Global};

/// The listener's address, which begins each line.
fn pinged_to_text(alloc: Global, to: Address) -> Result<String, AllocError>
    ensures { IfOk result (λ t. string_bytes t ≡ pinged_text to) }
{
    let network = network_to_digits(alloc, to.network)?;
    let node = node_to_digits(alloc, to.node)?;
    let socket = socket_to_digits(alloc, to.socket)?;
    format!(in alloc; "{network} {node} {socket}")
}

fn answer_to_line(alloc: Global, to: Address, answer: PingAnswer) -> Result<String, AllocError>
    ensures { IfOk result (λ t. string_bytes t ≡ ping_line to answer) }
{
    let pinged = pinged_to_text(alloc, to)?;
    let number = answer.number;
    let time = tenths_to_text(alloc, u128::from(answer.tenths))?;
    let count = usize::from(answer.routers);
    let routers = count_to_text(alloc, count, "1 router", " routers")?;
    format!(in alloc; "{pinged}: answer {number} in {time}, {routers}\n")
}

fn no_answer_to_line(alloc: Global, to: Address, number: u32) -> Result<String, AllocError>
    ensures { IfOk result (λ t. string_bytes t ≡ no_answer_line to number) }
{
    let pinged = pinged_to_text(alloc, to)?;
    format!(in alloc; "{pinged}: no answer {number}\n")
}

/// The line of a request's result; empty if there is none.
pub fn news_to_text(
    alloc: Global,
    to: Address,
    news: Option<PingEvent>,
) -> Result<String, AllocError>
    ensures { IfOk result (λ t. string_bytes t ≡ news_text to news) }
{
    match news {
        None => Ok(String::new(alloc)),
        Some(PingEvent::Answered(answer)) => answer_to_line(alloc, to, answer),
        Some(PingEvent::Unanswered(number)) => no_answer_to_line(alloc, to, number),
    }
}

fn least_time(times: &[u64]) -> u64
    ensures { result ≡ least_time times.now }
{
    let mut least = 0;
    for (place, time) in times.iter().enumerate() {
        least = if place == 0 { *time } else { least.min(*time) };
    }
    least
}

fn most_time(times: &[u64]) -> u64
    ensures { result ≡ most_time times.now }
{
    let mut most: u64 = 0;
    for time in times {
        most = most.max(*time);
    }
    most
}

/// The sum of the times.
fn whole_time(times: &[u64]) -> u128
    ensures { result ≡ whole_time times.now }
{
    let mut whole = 0;
    for time in times {
        whole += u128::from(*time);
    }
    whole
}

/// The least, the mean and the greatest time; empty if there are none.
fn times_to_text(alloc: Global, times: &[u64]) -> Result<String, AllocError>
    ensures { IfOk result (λ t. string_bytes t ≡ times_text times.now) }
{
    if times.is_empty() {
        return Ok(String::new(alloc));
    }
    let mean = whole_time(times) / times.len() as u128;
    let least = tenths_to_text(alloc, u128::from(least_time(times)))?;
    let mean = tenths_to_text(alloc, mean)?;
    let most = tenths_to_text(alloc, u128::from(most_time(times)))?;
    format!(in alloc; ", min {least}, avg {mean}, max {most}")
}

/// The last line: how many requests were sent and answered, and their times.
pub fn totals_to_line(
    alloc: Global,
    sent: u32,
    answered: u64,
    times: &[u64],
) -> Result<String, AllocError>
    ensures { IfOk result (λ t. string_bytes t ≡ totals_line sent answered times.now) }
{
    let times = times_to_text(alloc, times)?;
    format!(in alloc; "{sent} sent, {answered} answered{times}\n")
}
