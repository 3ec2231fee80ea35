//! The second part of a turn: the core is asked for packets, and each is sent.

ghost use Rattle.std.specs.Prelude.{◌≡◌, ◌<◌, ◌≤◌, ◌+◌, ◌*◌, ◌^◌, IfOk, IfErr, length};
ghost use Rattle.ipx_carrier.specs.RunFaultNumbers.{failures_after};
ghost use Rattle.ipx_carrier.specs.PortDrivers.{count_in};
ghost use Rattle.ipx_carrier.specs.Readiness.{MarksStay};
ghost use Rattle.ipx_carrier.specs.SendingView.{with_one_packet, copies_view};
ghost use Rattle.ipx_carrier.specs.Parts.{SendsAll, SendsNext, SendsSome};

use crate::cores::Core;
use crate::fault::RunFault;
use crate::port_driver::{PacketSent, PortDriver};
use crate::report::SendCounts;
use std::alloc::Global;

/// Asks a core for a packet, and sends it if there is one.
fn send_next<C: Core, S: PortDriver>(
    alloc: Global,
    core: &mut C,
    driver: &mut S,
    now: u64,
    room: &mut [u8],
) -> Result<Option<PacketSent>, RunFault>
    requires ports { S.port_count driver.old ≡ C.port_count core.old }
    requires countable { S.failed driver.old + 1 < 2 ^ 64 }
    requires room { 1536 ≤ length room.old }
    ensures sent { IfOk result (λ sent. SendsNext C.gives S.sends now (S.transmissions driver.old)
        (S.traffic driver.old) (S.traffic driver.new) driver.old driver.new
        core.old core.new (copies_view sent)) }
    ensures fault { IfErr result (λ f. SendsSome C.gives C.next_out_of_memory S.sends S.fails_to_send 1 now
        (S.transmissions driver.old) (S.traffic driver.old) (S.traffic driver.new) f
        driver.old driver.new core.old core.new) }
    ensures waiting { S.waiting driver.new ≡ S.waiting driver.old }
    ensures failures { S.failed driver.new ≡ failures_after result (S.failed driver.old) }
    ensures core_ports { C.port_count core.new ≡ C.port_count core.old }
    ensures driver_ports { S.port_count driver.new ≡ S.port_count driver.old }
    ensures transmissions { S.transmissions driver.new ≡ S.transmissions driver.old }
    ensures access { S.access driver.new ≡ S.access driver.old }
    ensures filtered { S.filtered driver.old ≤ S.filtered driver.new }
    ensures marks { MarksStay (S.marked driver.old) (S.marked driver.new) }
    ensures kept { S.kept driver.new ≡ S.kept driver.old }
{
    let Some((port, node, count)) = core.next(alloc, now, room)? else {
        return Ok(None);
    };
    let sent = driver.send(port, node, &room[..count])?;
    Ok(Some(sent))
}

/// The counts with one more packet.
fn with_packet(totals: SendCounts, sent: PacketSent) -> SendCounts
    requires sent { totals.sent + 2 ^ 64 < 2 ^ 128 }
    requires unmapped { totals.unmapped + 1 < 2 ^ 128 }
    ensures added { result ≡ with_one_packet totals (count_in sent) }
    ensures sent { result.sent ≤ totals.sent + 2 ^ 64 }
    ensures unmapped { result.unmapped ≤ totals.unmapped + 1 }
{
    match sent {
        PacketSent::Unmapped => SendCounts {
            sent: totals.sent,
            unmapped: totals.unmapped + 1,
        },
        PacketSent::Transmitted(count) => SendCounts {
            sent: totals.sent + count as u128,
            unmapped: totals.unmapped,
        },
    }
}

/// Asks a core for packets until it gives none, or gave 64, and sends each.
pub fn send_all<C: Core, S: PortDriver>(
    alloc: Global,
    core: &mut C,
    driver: &mut S,
    now: u64,
    room: &mut [u8],
) -> Result<SendCounts, RunFault>
    requires ports { S.port_count driver.old ≡ C.port_count core.old }
    requires countable { S.failed driver.old + 1 < 2 ^ 64 }
    requires room { 1536 ≤ length room.old }
    ensures sent { IfOk result (λ totals. SendsAll C.gives S.sends now (S.transmissions driver.old)
        (S.traffic driver.old) (S.traffic driver.new) driver.old driver.new
        core.old core.new totals) }
    ensures few { IfOk result (λ totals. totals.sent ≤ 64 * 2 ^ 64) }
    ensures few_unmapped { IfOk result (λ totals. totals.unmapped ≤ 64) }
    ensures fault { IfErr result (λ f. SendsSome C.gives C.next_out_of_memory S.sends S.fails_to_send 64 now
        (S.transmissions driver.old) (S.traffic driver.old) (S.traffic driver.new) f
        driver.old driver.new core.old core.new) }
    ensures waiting { S.waiting driver.new ≡ S.waiting driver.old }
    ensures failures { S.failed driver.new ≡ failures_after result (S.failed driver.old) }
    ensures core_ports { C.port_count core.new ≡ C.port_count core.old }
    ensures driver_ports { S.port_count driver.new ≡ S.port_count driver.old }
    ensures transmissions { S.transmissions driver.new ≡ S.transmissions driver.old }
    ensures access { S.access driver.new ≡ S.access driver.old }
    ensures filtered { S.filtered driver.old ≤ S.filtered driver.new }
    ensures marks { MarksStay (S.marked driver.old) (S.marked driver.new) }
    ensures kept { S.kept driver.new ≡ S.kept driver.old }
{
    let mut totals = SendCounts {
        sent: 0,
        unmapped: 0,
    };
    for _asked in 0..64_u32 {
        let Some(sent) = send_next(alloc, core, driver, now, room)? else {
            return Ok(totals);
        };
        totals = with_packet(totals, sent);
    }
    Ok(totals)
}
