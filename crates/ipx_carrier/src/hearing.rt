//! The first part of a turn: each port is asked for a datagram, and the core receives it.

ghost use Rattle.std.specs.Prelude.{◌≡◌, ◌<◌, ◌≤◌, ◌+◌, ◌^◌, IfOk, IfErr, length};
ghost use Rattle.ipx_carrier.specs.RunFaultNumbers.{failures_after};
ghost use Rattle.ipx_carrier.specs.MarkedTurns.{AsksMarkedPorts, AsksSomeMarkedPorts};
ghost use Rattle.ipx_carrier.specs.Readiness.{AsksPortWithMark, FailsWithMark};
ghost use Rattle.ipx_carrier.specs.Parts.{PollFails, AsksPort, AsksPorts, AsksSomePorts, TakesFromDevice};

use crate::cores::Core;
use crate::fault::RunFault;
use crate::port_driver::PortDriver;
use std::alloc::Global;

/// Asks a port for a datagram, and passes it to the core. Returns whether there was one.
fn hear_port<C: Core, S: PortDriver>(
    alloc: Global,
    core: &mut C,
    driver: &mut S,
    port: usize,
    now: u64,
    room: &mut [u8],
) -> Result<bool, RunFault>
    requires core { port < C.port_count core.old }
    requires there { port < S.port_count driver.old }
    requires countable { S.failed driver.old + 1 < 2 ^ 64 }
    ensures heard { IfOk result (λ heard. AsksPort C.hears S.receives now (length room.old) port
        (S.traffic driver.old) (S.traffic driver.new) driver.old driver.new core.old core.new heard) }
    ensures fault { IfErr result (λ f. PollFails C.hear_out_of_memory S.receives S.fails_to_receive
        now (length room.old) port
        (S.traffic driver.old) (S.traffic driver.new) f driver.old driver.new core.old core.new) }
    ensures waiting { TakesFromDevice (length room.old)
        (S.traffic driver.old) (S.traffic driver.new)
        (S.waiting driver.old) (S.waiting driver.new) }
    ensures failures { S.failed driver.new ≡ failures_after result (S.failed driver.old) }
    ensures core_ports { C.port_count core.new ≡ C.port_count core.old }
    ensures driver_ports { S.port_count driver.new ≡ S.port_count driver.old }
    ensures transmissions { S.transmissions driver.new ≡ S.transmissions driver.old }
    ensures access { S.access driver.new ≡ S.access driver.old }
    ensures filtered { S.filtered driver.old ≤ S.filtered driver.new }
    ensures marks { IfOk result (λ heard.
        AsksPortWithMark port heard (S.marked driver.old) (S.marked driver.new)) }
    ensures marks_stay { IfErr result (λ f.
        FailsWithMark port f (S.marked driver.old) (S.marked driver.new)) }
    ensures kept { S.kept driver.new ≡ S.kept driver.old }
{
    let Some(count) = driver.receive(port, room)? else {
        return Ok(false);
    };
    core.hear(alloc, port, &room[..count], now)?;
    Ok(true)
}

/// Asks each port once, in order, and passes what it gave to the core. Returns how many datagrams
/// there were.
pub fn hear_ports<C: Core, S: PortDriver>(
    alloc: Global,
    core: &mut C,
    driver: &mut S,
    now: u64,
    room: &mut [u8],
) -> Result<u128, RunFault>
    requires ports { S.port_count driver.old ≡ C.port_count core.old }
    requires countable { S.failed driver.old + 1 < 2 ^ 64 }
    ensures heard { IfOk result (λ count. AsksPorts C.hears now (C.port_count core.old)
        (S.traffic driver.old) (S.traffic driver.new) core.old core.new count) }
    ensures fault { IfErr result (λ f. AsksSomePorts C.hears C.hear_out_of_memory now (C.port_count core.old)
        (S.traffic driver.old) (S.traffic driver.new) f core.old core.new) }
    ensures waiting { TakesFromDevice (length room.old)
        (S.traffic driver.old) (S.traffic driver.new)
        (S.waiting driver.old) (S.waiting driver.new) }
    ensures failures { S.failed driver.new ≡ failures_after result (S.failed driver.old) }
    ensures few { IfOk result (λ count. count < 2 ^ 64) }
    ensures core_ports { C.port_count core.new ≡ C.port_count core.old }
    ensures driver_ports { S.port_count driver.new ≡ S.port_count driver.old }
    ensures transmissions { S.transmissions driver.new ≡ S.transmissions driver.old }
    ensures access { S.access driver.new ≡ S.access driver.old }
    ensures filtered { S.filtered driver.old ≤ S.filtered driver.new }
    // What the ports gave explains their marks, and is what the core heard.
    ensures marks { IfOk result (λ count. AsksMarkedPorts C.hears S.receives S.marked now
        (length room.old) (C.port_count core.old) driver.old driver.new core.old core.new count) }
    ensures marks_fault { IfErr result (λ f.
        AsksSomeMarkedPorts C.hears C.hear_out_of_memory S.receives S.fails_to_receive S.marked now
        (length room.old) (C.port_count core.old) f driver.old driver.new core.old core.new) }
    ensures kept { S.kept driver.new ≡ S.kept driver.old }
{
    let mut heard = 0;
    for port in 0..core.ports() {
        if hear_port(alloc, core, driver, port, now, room)? {
            heard += 1;
        }
    }
    Ok(heard)
}
