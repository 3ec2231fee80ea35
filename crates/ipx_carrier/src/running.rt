//! A run: turns of a core over a device.

ghost use Rattle.std.specs.Prelude.{◌≡◌, ◌<◌, ◌≤◌, ◌+◌, ◌*◌, ◌^◌, IfOk, IfErr, length};
ghost use Rattle.ipx_carrier.specs.RunFaultNumbers.{failures_after};
ghost use Rattle.ipx_carrier.specs.Turns.{peers_of};
ghost use Rattle.ipx_carrier.specs.Counts.{plus};
ghost use Rattle.ipx_carrier.specs.MarkedTurns.{BreaksMarkedTurn, TakesMarkedTurn};
ghost use Rattle.ipx_carrier.specs.Parts.{TakesFromDevice};
ghost use Rattle.ipx_carrier.specs.Runs.{EndsEarly, EndsEarlyBy, Runs, RunsBy};
ghost use Rattle.ipx_carrier.specs.Waits.{DrainsDevice};

use crate::clock::Clock;
use crate::cores::Core;
use crate::datagrams::Datagrams;
use crate::fault::RunFault;
use crate::hearing::hear_ports;
use crate::port_driver::PortDriver;
use crate::report::Report;
use crate::rfc1234_ports::Rfc1234Ports;
use crate::sending::send_all;
use std::alloc::Global;

/// The length of the buffers that a datagram is received into, and that a packet is given in.
pub const MAX_DATAGRAM: usize = 1536;

fn add(a: Report, b: Report) -> Report
    requires turns { a.turns + b.turns < 2 ^ 128 }
    requires heard { a.heard + b.heard < 2 ^ 128 }
    requires sent { a.sent + b.sent < 2 ^ 128 }
    requires unmapped { a.unmapped + b.unmapped < 2 ^ 128 }
    ensures { result ≡ plus a b }
{
    Report {
        turns: a.turns + b.turns,
        heard: a.heard + b.heard,
        sent: a.sent + b.sent,
        unmapped: a.unmapped + b.unmapped,
    }
}

/// Takes one turn with borrowed buffers. It reads the clock, passes one datagram of each port to
/// the core, and sends what the core gives.
pub fn run_once_in<C: Core, S: PortDriver, K: Clock>(
    alloc: Global,
    core: &mut C,
    driver: &mut S,
    clock: &mut K,
    room: &mut [u8],
) -> Result<Report, RunFault>
    requires ports { S.port_count driver.old ≡ C.port_count core.old }
    requires countable { S.failed driver.old + 1 < 2 ^ 64 }
    requires room { 1536 ≤ length room.old }
    ensures turn { IfOk result (λ report.
        RunsBy C.hears C.gives K.tells (C.port_count core.old) (S.transmissions driver.old) 1
        (S.traffic driver.old) (S.traffic driver.new) clock.old clock.new
        core.old core.new report) }
    ensures one { IfOk result (λ report. report.turns ≡ 1) }
    ensures heard { IfOk result (λ report. report.heard < 2 ^ 64) }
    ensures sent { IfOk result (λ report. report.sent ≤ 64 * 2 ^ 64) }
    ensures unmapped { IfOk result (λ report. report.unmapped ≤ 64) }
    ensures fault { IfErr result (λ f. EndsEarlyBy C.hears C.hear_out_of_memory C.gives C.next_out_of_memory K.tells
        (C.port_count core.old) (S.transmissions driver.old) 1
        (S.traffic driver.old) (S.traffic driver.new) clock.old clock.new
        f core.old core.new) }
    ensures waiting { TakesFromDevice (length room.old)
        (S.traffic driver.old) (S.traffic driver.new)
        (S.waiting driver.old) (S.waiting driver.new) }
    ensures failures { S.failed driver.new ≡ failures_after result (S.failed driver.old) }
    ensures core_ports { C.port_count core.new ≡ C.port_count core.old }
    ensures driver_ports { S.port_count driver.new ≡ S.port_count driver.old }
    ensures transmissions { S.transmissions driver.new ≡ S.transmissions driver.old }
    ensures access { S.access driver.new ≡ S.access driver.old }
    ensures filtered { S.filtered driver.old ≤ S.filtered driver.new }
    ensures marks { IfOk result (λ report.
        TakesMarkedTurn C.hears C.gives K.tells S.receives S.sends S.marked (C.port_count core.old)
        (length room.old) (S.transmissions driver.old) driver.old driver.new clock.old clock.new
        core.old core.new report) }
    ensures marks_fault { IfErr result (λ f.
        BreaksMarkedTurn C.hears C.hear_out_of_memory C.gives C.next_out_of_memory K.tells
        S.receives S.sends S.fails_to_receive S.fails_to_send S.marked (C.port_count core.old)
        (length room.old)
        (S.transmissions driver.old) f driver.old driver.new clock.old clock.new
        core.old core.new) }
    ensures kept { S.kept driver.new ≡ S.kept driver.old }
{
    let now = clock.now();
    let heard = hear_ports(alloc, core, driver, now, room)?;
    let totals = send_all(alloc, core, driver, now, room)?;
    Ok(Report {
        turns: 1,
        heard,
        sent: totals.sent,
        unmapped: totals.unmapped,
    })
}

/// Runs a core over a port driver for this many turns.
///
/// A turn reads the clock once. It asks each port for a datagram, in order, and passes it to the
/// core. Then it asks the core for packets until it gives none, or gave 64, and sends each by its
/// port.
///
/// The caller must pass a port driver with as many ports as the core, and at most 1,000,000 turns. The
/// driver's count of failures must be able to rise. A fault ends the run, and what was done before
/// it remains. It is `Device` if the port driver failed, and `OutOfMemory` if the core ran out of
/// memory.
pub fn run_over_ports<C: Core, S: PortDriver, K: Clock>(
    alloc: Global,
    core: &mut C,
    driver: &mut S,
    clock: &mut K,
    turns: u64,
) -> Result<Report, RunFault>
    requires turns { turns ≤ 1000000 }
    requires ports { S.port_count driver.old ≡ C.port_count core.old }
    requires countable { S.failed driver.old + 1 < 2 ^ 64 }
    // What was received and sent, the times and the core after are those of this many turns.
    ensures turns { IfOk result (λ report.
        RunsBy C.hears C.gives K.tells (C.port_count core.old) (S.transmissions driver.old) turns
        (S.traffic driver.old) (S.traffic driver.new) clock.old clock.new
        core.old core.new report) }
    // At a fault they are those of fewer turns, and of a part of the next one that the fault ends.
    ensures fault { IfErr result (λ f. EndsEarlyBy C.hears C.hear_out_of_memory C.gives C.next_out_of_memory K.tells
        (C.port_count core.old) (S.transmissions driver.old) turns
        (S.traffic driver.old) (S.traffic driver.new) clock.old clock.new
        f core.old core.new) }
    // Each port gave the first datagrams that waited there, each cut to 1,536 bytes, and the others
    // still wait. This holds at a fault too.
    ensures waiting { DrainsDevice 1536 (S.traffic driver.old) (S.traffic driver.new)
        (S.waiting driver.old) (S.waiting driver.new) }
    // The fault is `Device` exactly if the port driver failed.
    ensures failures { S.failed driver.new ≡ failures_after result (S.failed driver.old) }
    ensures core_ports { C.port_count core.new ≡ C.port_count core.old }
    ensures driver_ports { S.port_count driver.new ≡ S.port_count driver.old }
    // How packets are sent and who may send stay, and the count of what is filtered continues.
    ensures transmissions { S.transmissions driver.new ≡ S.transmissions driver.old }
    ensures access { S.access driver.new ≡ S.access driver.old }
    ensures filtered { S.filtered driver.old ≤ S.filtered driver.new }
    ensures kept { S.kept driver.new ≡ S.kept driver.old }
{
    let mut room = [0; MAX_DATAGRAM];
    let mut report = Report {
        turns: 0,
        heard: 0,
        sent: 0,
        unmapped: 0,
    };
    for _turn in 0..turns {
        let turn = run_once_in(alloc, core, driver, clock, &mut room)?;
        report = add(report, turn);
    }
    Ok(report)
}

/// Runs a core over a device for this many turns.
///
/// A turn reads the clock once. It asks each port for a datagram, in order, and passes it to the
/// core. Then it asks the core for packets until it gives none, or gave 64, and sends each. A
/// broadcast goes to each peer of its port, in order, another packet to the IP address of its node.
/// A packet is not sent if its node has no IP address.
///
/// `peers` has the IP addresses of the other nodes, for each port of the core. The caller must pass
/// that, a device with as many ports as the core, and at most 1,000,000 turns. The device's count
/// of failures must be able to rise. A fault ends the run, and what was done before it remains. It
/// is `Device` if the device failed, and `OutOfMemory` if the core ran out of memory.
pub fn run<C: Core, D: Datagrams, K: Clock>(
    alloc: Global,
    core: &mut C,
    datagrams: &mut D,
    peers: &[Vec<[u8; 4]>],
    clock: &mut K,
    turns: u64,
) -> Result<Report, RunFault>
    requires turns { turns ≤ 1000000 }
    requires ports { D.port_count datagrams.old ≡ C.port_count core.old }
    requires peers { length peers.now ≡ C.port_count core.old }
    requires countable { D.failed datagrams.old + 1 < 2 ^ 64 }
    // What was received and sent, the times and the core after are those of this many turns.
    ensures turns { IfOk result (λ report.
        Runs C.hears C.gives K.tells (C.port_count core.old) (peers_of peers.now) turns
        (D.traffic datagrams.old) (D.traffic datagrams.new) clock.old clock.new
        core.old core.new report) }
    // At a fault they are those of fewer turns, and of a part of the next one that the fault ends.
    ensures fault { IfErr result (λ f. EndsEarly C.hears C.hear_out_of_memory C.gives C.next_out_of_memory K.tells
        (C.port_count core.old) (peers_of peers.now) turns
        (D.traffic datagrams.old) (D.traffic datagrams.new) clock.old clock.new
        f core.old core.new) }
    // Each port gave the first datagrams that waited there, each cut to 1,536 bytes, and the others
    // still wait. This holds at a fault too.
    ensures waiting { DrainsDevice 1536 (D.traffic datagrams.old) (D.traffic datagrams.new)
        (D.waiting datagrams.old) (D.waiting datagrams.new) }
    // The fault is `Device` exactly if the device failed.
    ensures failures { D.failed datagrams.new ≡ failures_after result (D.failed datagrams.old) }
    ensures core_ports { C.port_count core.new ≡ C.port_count core.old }
    ensures device_ports { D.port_count datagrams.new ≡ D.port_count datagrams.old }
    // Who may send stays, and the count of what the device filters continues.
    ensures access { D.access datagrams.new ≡ D.access datagrams.old }
    ensures filtered { D.filtered datagrams.old ≤ D.filtered datagrams.new }
{
    let mut driver = Rfc1234Ports { datagrams, peers };
    run_over_ports(alloc, core, &mut driver, clock, turns)
}
