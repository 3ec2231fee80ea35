//! Units that are taken from ends.

ghost use Rattle.std.specs.Prelude.{◌≡◌, List, Result, length};
ghost use Rattle.std.specs.List.{range_with_len};
ghost use Rattle.spx_messages.specs.Taking.{taken_view};
ghost use Rattle.ipx_net.specs.AnswerView.{AnswerView};
ghost use Rattle.ipx_net.specs.Ends.{TellsEnds, told_of};
ghost use Rattle.ipx_net.specs.declared.endinfo.EndInfo.{EndInfo};
ghost use Rattle.ipx_net.specs.declared.event.Event.TheVariants as Events;
ghost use Rattle.ipx_net.specs.declared.fault.NetFault.{NetFault};
ghost use Rattle.ipx_sim.specs.Act.{Stepped, outcome_view};
ghost use Rattle.ipx_sim.specs.ScriptDoing.{DoesEach};
ghost use Rattle.ipx_sim.specs.Going.{Drains, DrainsAll, DrainsIf, DrainsPresent, TakesOnce, is_unit, take_result, taken_result};

use crate::acting::step;
use crate::stop::LineFault;
use ipx_net::{Answer, Event, Net, NetFault};
use spx_link::State;
use spx_messages::Taken;
use std::alloc::Global;

/// What was taken, or why nothing could be.
fn taken_from(outcome: Result<Answer, NetFault>) -> Result<Taken, LineFault>
    ensures { taken_result result ≡ take_result (outcome_view outcome) }
{
    match outcome? {
        Answer::Taken(taken) => Ok(taken),
        Answer::Refused(fault) => Err(LineFault::Refused(fault)),
        _ => Ok(Taken::Nothing),
    }
}

/// Takes from an end once.
pub fn take_one(net: &mut Net, alloc: Global, end: usize) -> Result<Taken, LineFault>
    ensures { (outcome : Result AnswerView NetFault)
        × Stepped net.old (Events.Take end) outcome net.new
        × (taken_result result ≡ take_result outcome) }
{
    taken_from(step(alloc, net, Event::Take { who: end }))
}

/// Whether what was taken is a unit.
pub fn is_unit(taken: &Taken) -> bool
    ensures { result ≡ is_unit (taken_view taken.now) }
{
    match taken {
        Taken::Nothing => false,
        _ => true,
    }
}

/// Takes from an end once, and returns whether a unit was held.
fn take_some(alloc: Global, net: &mut Net, end: usize) -> Result<bool, LineFault>
    ensures { TakesOnce end net.old result net.new }
{
    let taken = take_one(net, alloc, end)?;
    Ok(is_unit(&taken))
}

/// Takes from an end until nothing is held, and returns whether a unit was taken.
fn drain(alloc: Global, net: &mut Net, end: usize) -> Result<bool, LineFault>
    ensures { Drains end net.old result net.new }
{
    let mut any = false;
    for _ in 0..u64::MAX {
        let taken = take_some(alloc, net, end)?;
        if !taken {
            return Ok(any);
        }
        any = true;
    }
    Ok(any)
}

/// The state of an end, if it has one: a released end has none.
fn state_of(net: &Net, end: usize) -> Option<State>
    ensures { (infos : List EndInfo) × TellsEnds net.now infos
        × (result ≡ (told_of infos end).state) }
{
    net.ends().get(end)?.state
}

/// Takes from an end as `drain` does, unless it was released.
fn drain_present(alloc: Global, net: &mut Net, end: usize) -> Result<bool, LineFault>
    ensures { DrainsPresent end net.old result net.new }
{
    match state_of(net, end) {
        Some(_) => drain(alloc, net, end),
        None => Ok(false),
    }
}

/// How many ends there are.
fn count_of(net: &Net) -> usize
    ensures { (infos : List EndInfo) × TellsEnds net.now infos × (result ≡ length infos) }
{
    net.ends().len()
}

/// Takes from the first `count` ends, from end 0 on, each until nothing is held there.
fn drain_each(alloc: Global, net: &mut Net, count: usize) -> Result<bool, LineFault>
    ensures { DoesEach DrainsPresent (range_with_len 0 count) net.old result net.new }
{
    let mut any = false;
    for end in 0..count {
        any |= drain_present(alloc, net, end)?;
    }
    Ok(any)
}

/// Takes from each end that was not released until nothing is held there.
fn drain_all(alloc: Global, net: &mut Net) -> Result<bool, LineFault>
    ensures { DrainsAll net.old result net.new }
{
    let count = count_of(net);
    drain_each(alloc, net, count)
}

/// Takes from each end, if the round takes.
pub fn drain_if(alloc: Global, net: &mut Net, takes: bool) -> Result<bool, LineFault>
    ensures { DrainsIf takes net.old result net.new }
{
    if takes {
        return drain_all(alloc, net);
    }
    Ok(false)
}
