//! Turns of a core over a device: a single turn, or turns for as long as there is work.

ghost use Rattle.std.specs.Prelude.{◌≡◌, ◌⊎◌, ◌≤◌, ◌↔◌, ◌+◌, ◌<◌, ◌^◌, IfOk, IfErr, IsTrue, OnOk, Err, length};
ghost use Rattle.ipx_carrier.specs.Driving.{BurstsBy, CanBegin, CanBeginBy, TakesTurn, TakesTurnBy, failed_after, refused};
ghost use Rattle.ipx_carrier.specs.MarkedTurns.{BreaksMarkedTurn, TakesMarkedTurn};
ghost use Rattle.ipx_carrier.specs.RunFaultNumbers.{failures_after};
ghost use Rattle.ipx_carrier.specs.Runs.{EndsEarly, EndsEarlyBy, Runs, RunsBy};
ghost use Rattle.ipx_carrier.specs.Turns.{peers_of};

use crate::clock::Clock;
use crate::cores::Core;
use crate::datagrams::Datagrams;
use crate::fault::RunFault;
use crate::port_driver::{PortDriver, PortDriverFilters};
use crate::report::{Batch, Report};
use crate::running::{MAX_DATAGRAM, run, run_once_in};
use std::alloc::Global;

/// Whether a turn with this report received and sent nothing.
fn is_idle(report: Report) -> bool
    ensures { IsTrue result ↔ (report.heard ≡ 0) × (report.sent ≡ 0) }
{
    report.heard == 0 && report.sent == 0
}

/// Whether a turn can begin.
fn can_begin<C: Core, D: Datagrams>(core: &C, device: &D, peers: &[Vec<[u8; 4]>]) -> bool
    ensures { IsTrue result ↔ CanBegin (C.port_count core.now) (D.port_count device.now)
        (length peers.now) (D.failed device.now) }
{
    let ports = core.ports();
    device.ports() == ports && peers.len() == ports && device.failures() < u64::MAX
}

/// Whether a turn can begin over this port driver.
fn can_begin_over<C: Core, S: PortDriver>(core: &C, driver: &S) -> bool
    ensures { IsTrue result ↔ CanBeginBy (C.port_count core.now) (S.port_count driver.now)
        (S.failed driver.now) }
{
    driver.ports() == core.ports() && driver.failures() < u64::MAX
}

/// Takes one turn with borrowed buffers, as `run_once_over_ports` does.
fn run_once_lent<C: Core, S: PortDriver, K: Clock>(
    alloc: Global,
    core: &mut C,
    driver: &mut S,
    clock: &mut K,
    room: &mut [u8],
) -> Result<Report, RunFault>
    requires room { 1536 ≤ length room.old }
    ensures turn { IfOk result (λ report.
        RunsBy C.hears C.gives K.tells (C.port_count core.old) (S.transmissions driver.old) 1
        (S.traffic driver.old) (S.traffic driver.new) clock.old clock.new
        core.old core.new report) }
    ensures fault { IfErr result (λ f.
        ((core.new ≡ core.old) × ((f ≡ RunFault.Device) × ((driver.new ≡ driver.old)
        × (CanBeginBy (C.port_count core.old) (S.port_count driver.old) (S.failed driver.old)
        → ⊥)) × (clock.new ≡ clock.old)))
        ⊎ EndsEarlyBy C.hears C.hear_out_of_memory C.gives C.next_out_of_memory K.tells
        (C.port_count core.old) (S.transmissions driver.old) 1
        (S.traffic driver.old) (S.traffic driver.new) clock.old clock.new
        f core.old core.new) }
    // If a turn can begin, one is taken; otherwise nothing happens.
    ensures begins { CanBeginBy (C.port_count core.old) (S.port_count driver.old)
        (S.failed driver.old) → TakesTurnBy C.hears C.hear_out_of_memory C.gives C.next_out_of_memory K.tells
        (C.port_count core.old) (S.transmissions driver.old)
        (S.traffic driver.old) (S.traffic driver.new) clock.old clock.new
        core.old core.new result }
    ensures refused { (CanBeginBy (C.port_count core.old) (S.port_count driver.old)
        (S.failed driver.old) → ⊥) → (result ≡ Err RunFault.Device)
        × (core.new ≡ core.old) × (driver.new ≡ driver.old) × (clock.new ≡ clock.old) }
    ensures begun { OnOk result (CanBeginBy (C.port_count core.old) (S.port_count driver.old)
        (S.failed driver.old)) }
    ensures failures { CanBeginBy (C.port_count core.old) (S.port_count driver.old)
        (S.failed driver.old)
        → S.failed driver.new ≡ failures_after result (S.failed driver.old) }
    ensures ports { C.port_count core.new ≡ C.port_count core.old }
    ensures driver_ports { S.port_count driver.new ≡ S.port_count driver.old }
    ensures transmissions { S.transmissions driver.new ≡ S.transmissions driver.old }
    ensures access { S.access driver.new ≡ S.access driver.old }
    ensures filtered { S.filtered driver.old ≤ S.filtered driver.new }
    ensures marks { IfOk result (λ report.
        TakesMarkedTurn C.hears C.gives K.tells S.receives S.sends S.marked (C.port_count core.old)
        (length room.old) (S.transmissions driver.old) driver.old driver.new clock.old clock.new
        core.old core.new report) }
    ensures marks_fault { CanBeginBy (C.port_count core.old) (S.port_count driver.old)
        (S.failed driver.old) → IfErr result (λ f.
        BreaksMarkedTurn C.hears C.hear_out_of_memory C.gives C.next_out_of_memory K.tells
        S.receives S.sends S.fails_to_receive S.fails_to_send S.marked (C.port_count core.old)
        (length room.old)
        (S.transmissions driver.old) f driver.old driver.new clock.old clock.new
        core.old core.new) }
    ensures kept { S.kept driver.new ≡ S.kept driver.old }
{
    if !can_begin_over(core, driver) {
        return Err(RunFault::Device);
    }
    run_once_in(alloc, core, driver, clock, room)
}

/// Takes one turn, as `run_over_ports` does. The error is `Device`, and nothing happens, if the
/// port driver has another number of ports than the core. The same holds if its count of failures
/// can't rise.
pub fn run_once_over_ports<C: Core, S: PortDriver, K: Clock>(
    alloc: Global,
    core: &mut C,
    driver: &mut S,
    clock: &mut K,
) -> Result<Report, RunFault>
    ensures turn { IfOk result (λ report.
        RunsBy C.hears C.gives K.tells (C.port_count core.old) (S.transmissions driver.old) 1
        (S.traffic driver.old) (S.traffic driver.new) clock.old clock.new
        core.old core.new report) }
    ensures fault { IfErr result (λ f.
        ((core.new ≡ core.old) × ((f ≡ RunFault.Device) × ((driver.new ≡ driver.old)
        × (CanBeginBy (C.port_count core.old) (S.port_count driver.old) (S.failed driver.old)
        → ⊥)) × (clock.new ≡ clock.old)))
        ⊎ EndsEarlyBy C.hears C.hear_out_of_memory C.gives C.next_out_of_memory K.tells
        (C.port_count core.old) (S.transmissions driver.old) 1
        (S.traffic driver.old) (S.traffic driver.new) clock.old clock.new
        f core.old core.new) }
    // If a turn can begin, one is taken; otherwise nothing happens.
    ensures begins { CanBeginBy (C.port_count core.old) (S.port_count driver.old)
        (S.failed driver.old) → TakesTurnBy C.hears C.hear_out_of_memory C.gives C.next_out_of_memory K.tells
        (C.port_count core.old) (S.transmissions driver.old)
        (S.traffic driver.old) (S.traffic driver.new) clock.old clock.new
        core.old core.new result }
    ensures refused { (CanBeginBy (C.port_count core.old) (S.port_count driver.old)
        (S.failed driver.old) → ⊥) → (result ≡ Err RunFault.Device)
        × (core.new ≡ core.old) × (driver.new ≡ driver.old) × (clock.new ≡ clock.old) }
    ensures begun { OnOk result (CanBeginBy (C.port_count core.old) (S.port_count driver.old)
        (S.failed driver.old)) }
    ensures failures { CanBeginBy (C.port_count core.old) (S.port_count driver.old)
        (S.failed driver.old)
        → S.failed driver.new ≡ failures_after result (S.failed driver.old) }
    ensures ports { C.port_count core.new ≡ C.port_count core.old }
    ensures driver_ports { S.port_count driver.new ≡ S.port_count driver.old }
    ensures transmissions { S.transmissions driver.new ≡ S.transmissions driver.old }
    ensures access { S.access driver.new ≡ S.access driver.old }
    ensures filtered { S.filtered driver.old ≤ S.filtered driver.new }
    // What the ports answered in this turn, which the core heard, explains their marks. The driver
    // gave these answers, and then sent what the core gave.
    ensures marks { IfOk result (λ report.
        TakesMarkedTurn C.hears C.gives K.tells S.receives S.sends S.marked (C.port_count core.old)
        1536 (S.transmissions driver.old) driver.old driver.new clock.old clock.new
        core.old core.new report) }
    ensures marks_fault { CanBeginBy (C.port_count core.old) (S.port_count driver.old)
        (S.failed driver.old) → IfErr result (λ f.
        BreaksMarkedTurn C.hears C.hear_out_of_memory C.gives C.next_out_of_memory K.tells
        S.receives S.sends S.fails_to_receive S.fails_to_send S.marked (C.port_count core.old) 1536
        (S.transmissions driver.old) f driver.old driver.new clock.old clock.new
        core.old core.new) }
    ensures kept { S.kept driver.new ≡ S.kept driver.old }
{
    let mut room = [0; MAX_DATAGRAM];
    run_once_lent(alloc, core, driver, clock, &mut room)
}

/// Takes turns until one is idle, a fault ends one, or `most` turns were taken. An idle turn
/// receives, sends and filters nothing.
///
/// The last turn of a quiet batch was idle. The caller then waits, unless packets are queued in a
/// router, as `PriorityRouterCore::queued` tells. After a batch that is not quiet, the caller takes
/// the next. If no turn can begin, as for `run_once_over_ports`, the fault is `Device` and nothing
/// happens.
pub fn run_batch<C: Core, S: PortDriverFilters, K: Clock>(
    alloc: Global,
    core: &mut C,
    driver: &mut S,
    clock: &mut K,
    most: u32,
) -> Batch
    // If turns can begin, the core, the clock and the driver after come of whole turns, which are
    // counted. If a fault ended a turn, that part of a turn follows them. In each turn the driver
    // gave what the core heard, and sent what the core gave. A port loses its mark only in a turn in
    // which it answered None, and gains none.
    ensures turns { CanBeginBy (C.port_count core.old) (S.port_count driver.old)
        (S.failed driver.old)
        → BurstsBy C.hears C.hear_out_of_memory C.gives C.next_out_of_memory K.tells S.receives S.sends
        S.fails_to_receive S.fails_to_send S.filtered S.marked (C.port_count core.old) 1536 (S.transmissions driver.old) most result
        driver.old driver.new clock.old clock.new core.old core.new }
    // If none can begin, nothing happens.
    ensures refused { (CanBeginBy (C.port_count core.old) (S.port_count driver.old)
        (S.failed driver.old) → ⊥) → (result ≡ refused most)
        × (core.new ≡ core.old) × (driver.new ≡ driver.old) × (clock.new ≡ clock.old) }
    ensures failures { CanBeginBy (C.port_count core.old) (S.port_count driver.old)
        (S.failed driver.old)
        → S.failed driver.new ≡ failed_after result.fault (S.failed driver.old) }
    ensures ports { C.port_count core.new ≡ C.port_count core.old }
    ensures driver_ports { S.port_count driver.new ≡ S.port_count driver.old }
    // How packets are sent, who may send, and what no call changes all stay.
    ensures transmissions { S.transmissions driver.new ≡ S.transmissions driver.old }
    ensures access { S.access driver.new ≡ S.access driver.old }
    ensures kept { S.kept driver.new ≡ S.kept driver.old }
{
    let mut room = [0; MAX_DATAGRAM];
    let mut batch = Batch::none();
    for _turn in 0..most {
        let kept = driver.filtered();
        let report = match run_once_lent(alloc, core, driver, clock, &mut room) {
            Ok(report) => report,
            Err(fault) => return batch.ended_by(fault),
        };
        batch = batch.with(report);
        if is_idle(report) && driver.filtered() == kept {
            return batch.quieted();
        }
    }
    batch
}

/// Takes one turn, as `run` does. The error is `Device`, and nothing happens, if the device or the
/// lists of peers are for another number of ports than the core. The same holds if the device's
/// count of failures can't rise.
pub fn turn<C: Core, D: Datagrams, K: Clock>(
    alloc: Global,
    core: &mut C,
    device: &mut D,
    peers: &[Vec<[u8; 4]>],
    clock: &mut K,
) -> Result<Report, RunFault>
    ensures turn { IfOk result (λ report.
        Runs C.hears C.gives K.tells (C.port_count core.old) (peers_of peers.now) 1
        (D.traffic device.old) (D.traffic device.new) clock.old clock.new
        core.old core.new report) }
    ensures fault { IfErr result (λ f.
        ((core.new ≡ core.old) × ((f ≡ RunFault.Device) × ((device.new ≡ device.old)
        × (CanBegin (C.port_count core.old) (D.port_count device.old) (length peers.now)
        (D.failed device.old) → ⊥)) × (clock.new ≡ clock.old)))
        ⊎ EndsEarly C.hears C.hear_out_of_memory C.gives C.next_out_of_memory K.tells
        (C.port_count core.old) (peers_of peers.now) 1
        (D.traffic device.old) (D.traffic device.new) clock.old clock.new
        f core.old core.new) }
    // If a turn can begin, one is taken; otherwise nothing happens.
    ensures begins { CanBegin (C.port_count core.old) (D.port_count device.old)
        (length peers.now) (D.failed device.old)
        → TakesTurn C.hears C.hear_out_of_memory C.gives C.next_out_of_memory K.tells
        (C.port_count core.old) (peers_of peers.now)
        (D.traffic device.old) (D.traffic device.new) clock.old clock.new
        core.old core.new result }
    ensures refused { (CanBegin (C.port_count core.old) (D.port_count device.old)
        (length peers.now) (D.failed device.old) → ⊥) → (result ≡ Err RunFault.Device)
        × (core.new ≡ core.old) × (device.new ≡ device.old) × (clock.new ≡ clock.old) }
    ensures begun { OnOk result (CanBegin (C.port_count core.old) (D.port_count device.old)
        (length peers.now) (D.failed device.old)) }
    ensures failures { CanBegin (C.port_count core.old) (D.port_count device.old)
        (length peers.now) (D.failed device.old)
        → D.failed device.new ≡ failures_after result (D.failed device.old) }
    ensures ports { C.port_count core.new ≡ C.port_count core.old }
    ensures device_ports { D.port_count device.new ≡ D.port_count device.old }
    ensures access { D.access device.new ≡ D.access device.old }
    ensures filtered { D.filtered device.old ≤ D.filtered device.new }
{
    if !can_begin(core, device, peers) {
        return Err(RunFault::Device);
    }
    run(alloc, core, device, peers, clock, 1)
}
