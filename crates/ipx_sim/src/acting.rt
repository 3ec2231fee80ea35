//! One event at a network, and the lines that report it.

ghost use Rattle.std.specs.Prelude.{◌≡◌, IfErr, IfOk, Result};
ghost use Rattle.std.specs.Io.KnownBytes.{Appends};
ghost use Rattle.ipx_net.specs.AnswerView.{AnswerView};
ghost use Rattle.ipx_net.specs.NetEvents.{IsOwed};
ghost use Rattle.ipx_net.specs.declared.fault.NetFault.{NetFault};
ghost use Rattle.ipx_sim.specs.Act.{IsActOwed, Stepped, outcome_view};
ghost use Rattle.ipx_sim.specs.ActLine.{act_lines, act_status, moment_of};

use crate::lines::outcome_to_lines;
use ipx_inspect::write_lines;
use ipx_net::{Answer, Event, Net, NetFault};
use std::alloc::Global;
use std::io::Write;

/// The time that an event sets, if it sets one.
fn moment_of(event: &Event) -> Option<u64>
    ensures { result ≡ moment_of event.now }
{
    match event {
        Event::Tick { now } => Some(*now),
        _ => None,
    }
}

/// The step itself. Its result is what the network's own contract says of that event.
pub fn step(alloc: Global, net: &mut Net, event: Event) -> Result<Answer, NetFault>
    requires { IsOwed event }
    ensures { Stepped net.old event (outcome_view result) net.new }
{
    net.step(alloc, event)
}

/// Does one event at a network and writes the lines that report it: those of its answer, or of the
/// fault that refused it.
///
/// The caller must pass what the caller of `Net::step` must, and an event other than `Take`, which has
/// no line. `Ok` is the status of the line: 1 if an end refused, or the network met a fault,
/// otherwise 0. `Err` is always 1, with which the command ends. After a write fault nothing more is
/// written. If out of memory while printing, it writes `fault (14) OutOfMemory`. The event took
/// place in both cases.
pub fn act<W: Write>(alloc: Global, net: &mut Net, event: Event, writer: &mut W) -> Result<u8, u8>
    requires { IsActOwed event }
    ensures written { (outcome : Result AnswerView NetFault) × Stepped net.old event outcome net.new
        × IfOk result (λ status. (status ≡ act_status outcome)
        × Appends (W.contents writer.old) (W.contents writer.new)
        (act_lines (moment_of event) net.new.now.world.parcels outcome)) }
    ensures fault { IfErr result (λ status. status ≡ 1) }
{
    let moment = moment_of(&event);
    let outcome = step(alloc, net, event);
    write_lines(
        writer,
        outcome_to_lines(alloc, moment, net.parcels(), &outcome),
    )
}
