//! A network in memory, step by step.

ghost use Rattle.std.specs.Prelude.{◌≡◌, ◌≢◌, ◌<◌, ◌↔◌, All, Err, IfErr, IfOk, IsTrue, None, OnOk, Some, false, length, true, unwrap_or};
ghost use Rattle.spx_theory.specs.LogPremises.{IsEnd, LogPremises, ReadsRecent};
ghost use Rattle.ipx_router.specs.declared.fault.NewFault.TheVariants as NewFaults;
ghost use Rattle.ipx_net.specs.AnswerView.{answer_view};
ghost use Rattle.ipx_net.specs.NetBeginnings.{ArePortsOwed, IsHostOwed, IsNewNet, first_refusal};
ghost use Rattle.ipx_net.specs.Begins.{Begins};
ghost use Rattle.ipx_net.specs.Ends.{TellsClosed, TellsEnded, TellsEnds, TellsNext, TellsOpened, TellsReleased};
ghost use Rattle.ipx_net.specs.LogEntries.{entry_notes};
ghost use Rattle.ipx_net.specs.NetEvents.{Happens, IsOwed, LeavesMarks};
ghost use Rattle.ipx_net.specs.NetFaults.{first_fault};
ghost use Rattle.ipx_net.specs.Parcels.{parcel_views};
ghost use Rattle.ipx_net.specs.EventMemory.{EventNeedsMemory};
ghost use Rattle.ipx_net.specs.Theorems.{Theorems};
ghost use Rattle.ipx_net.specs.declared.fault.NetFault.TheVariants as NetFaults;

use crate::answer::Answer;
use crate::endinfo::EndInfo;
use crate::entry::Entry;
use crate::event::Event;
use crate::fault::NetFault;
use crate::host::Host;
use crate::net_state::NetState;
use crate::parcel::Parcel;
use crate::told::EndSummaries;
use ipx_router::{NewFault, Port};
use spx_theory::peer_is_found;
use std::alloc::Global;
use std::marker::Model;

/// A network in memory: its hosts and routers, the packets on their way, the log, and what is
/// reported of its ends.
#[derive(Drop)]
pub struct Net {
    course: NetState,
    told: EndSummaries,
}

impl Model for Net {
    ghost use Rattle.ipx_net.specs.Ends.{TellsEnds};
    ghost use Rattle.ipx_net.specs.NetView.{NetView};

    ghost Value = { NetView };

    ghost view = { λ n. n.course };

    ghost invariant = { λ n. TellsEnds n.course n.told.infos.items };
}

/// Does an event that has no fault so far, and updates what is reported of the ends.
fn go_on(
    course: &mut NetState,
    told: &mut EndSummaries,
    alloc: Global,
    event: Event,
) -> Result<Answer, NetFault>
    requires owed { IsOwed event }
    requires sound { first_fault course.old event ≡ None }
    requires tells { TellsEnds course.old told.old.infos.items }
    ensures ok { IfOk result (λ a. Happens event (answer_view a) course.old.now course.new.now) }
    ensures going { OnOk result (course.new.spent ≡ false) }
    ensures fault { IfErr result (λ f. f ≡ NetFaults.OutOfMemory) }
    ensures log { IfErr result (λ f. course.new.now.world.log ≡ course.old.now.world.log) }
    ensures parcels { IfErr result
        (λ f. course.new.now.world.parcels ≡ course.old.now.world.parcels) }
    ensures marks { IfErr result
        (λ f. LeavesMarks event course.old.now.world.ends course.new.now.world.ends) }
    ensures spent { IfErr result (λ f. course.new.spent ≡ true) }
    ensures memory { IfErr result (λ f. EventNeedsMemory course.old.now event) }
    ensures tells { TellsEnds course.new told.new.infos.items }
{
    let from = course.log().len();
    let host = course.touched(&event);
    course.holds();
    course.stand(told, host, true);
    match course.go_on(told, alloc, event) {
        Ok(answer) => {
            course.tell(told, from);
            course.holds();
            course.stand(told, host, false);
            Ok(answer)
        }
        Err(fault) => Err(fault),
    }
}

/// Takes one event, and returns its answer.
fn take_in(
    course: &mut NetState,
    told: &mut EndSummaries,
    alloc: Global,
    event: Event,
) -> Result<Answer, NetFault>
    requires owed { IsOwed event }
    requires tells { TellsEnds course.old told.old.infos.items }
    ensures ok { IfOk result (λ a. Happens event (answer_view a) course.old.now course.new.now) }
    ensures sound { OnOk result (first_fault course.old event ≡ None) }
    ensures going { OnOk result (course.new.spent ≡ false) }
    ensures fault { IfErr result (λ f. f ≢ NetFaults.OutOfMemory
        → (first_fault course.old event ≡ Some f) × (course.new ≡ course.old)) }
    ensures memory { result ≡ Err NetFaults.OutOfMemory
        → (first_fault course.old event ≡ None) × (course.new.spent ≡ true) }
    ensures wanted { result ≡ Err NetFaults.OutOfMemory → EventNeedsMemory course.old.now event }
    ensures log { result ≡ Err NetFaults.OutOfMemory
        → course.new.now.world.log ≡ course.old.now.world.log }
    ensures parcels { result ≡ Err NetFaults.OutOfMemory
        → course.new.now.world.parcels ≡ course.old.now.world.parcels }
    ensures marks { result ≡ Err NetFaults.OutOfMemory
        → LeavesMarks event course.old.now.world.ends course.new.now.world.ends }
    ensures tells { TellsEnds course.new told.new.infos.items }
{
    if let Some(fault) = course.first_fault(&event) {
        return Err(fault);
    }
    go_on(course, told, alloc, event)
}

impl Net {
    /// A network of these hosts and routers, numbered from 0 in their order, at time 0. Nothing has
    /// happened in it, its routers know nothing, and its hosts have no connections.
    ///
    /// The caller must pass networks other than 0 and FFFFFFFF, for hosts and for ports. If a host
    /// listens, the caller must pass 1 to 8,192 buffers. It is refused with the fault of the first
    /// router that is refused, otherwise only if out of memory.
    pub fn new(alloc: Global, hosts: Vec<Host>, routers: Vec<Vec<Port>>) -> Result<Net, NewFault>
        requires hosts { All IsHostOwed hosts.items }
        requires ports { All ArePortsOwed routers.items }
        ensures new { IfOk result (λ n. IsNewNet hosts.items routers.items n) }
        ensures sound { OnOk result (first_refusal routers.items ≡ None) }
        ensures fault { IfErr result
            (λ f. f ≡ unwrap_or (first_refusal routers.items) NewFaults.OutOfMemory) }
        ensures theorems { IfOk result (λ n. Theorems n) }
    {
        match NetState::new(alloc, hosts, routers) {
            Ok(course) => {
                course.holds();
                Ok(Net {
                    course,
                    told: EndSummaries::new(alloc),
                })
            }
            Err(fault) => Err(fault),
        }
    }

    /// Takes one event, and returns its answer.
    ///
    /// The caller must pass 1 to 8,192 buffers for a dial. It is refused as `Spent` if memory was
    /// refused before. Otherwise it is refused as `Full` if the log holds 1,000,000 entries, or
    /// with a fault if it names something that does not exist, or as out of memory. If out of
    /// memory, the log and the parcels remain, and so do the ends, with what is known of messages
    /// that grew too long. Only a dial or a delivery to a host may then add one end. No further
    /// step is taken. Any other refusal leaves everything unchanged.
    pub fn step(&mut self, alloc: Global, event: Event) -> Result<Answer, NetFault>
        requires { IsOwed event }
        ensures ok { IfOk result (λ a. Happens event (answer_view a) self.old.now self.new.now) }
        ensures sound { OnOk result (first_fault self.old event ≡ None) }
        ensures going { OnOk result (self.new.spent ≡ false) }
        ensures fault { IfErr result (λ f. f ≢ NetFaults.OutOfMemory
            → (first_fault self.old event ≡ Some f) × (self.new ≡ self.old)) }
        ensures memory { result ≡ Err NetFaults.OutOfMemory
            → (first_fault self.old event ≡ None) × (self.new.spent ≡ true) }
        // Only an event that makes an entry or a parcel, or a router's table grow, needs memory.
        ensures wanted { result ≡ Err NetFaults.OutOfMemory
            → EventNeedsMemory self.old.now event }
        ensures log { result ≡ Err NetFaults.OutOfMemory
            → self.new.now.world.log ≡ self.old.now.world.log }
        ensures parcels { result ≡ Err NetFaults.OutOfMemory
            → self.new.now.world.parcels ≡ self.old.now.world.parcels }
        // Every end is still there, and whether a message of it grew too long is still known.
        ensures marks { result ≡ Err NetFaults.OutOfMemory
            → LeavesMarks event self.old.now.world.ends self.new.now.world.ends }
        ensures theorems { Theorems self.new }
    {
        let result = take_in(&mut self.course, &mut self.told, alloc, event);
        self.course.holds();
        result
    }

    /// What holds for every network. It does nothing.
    pub fn holds(&self)
        ensures { Theorems self.now }
    {
        NetState::holds(&self.course);
    }

    /// The log: everything that happened, from the start on.
    pub fn log(&self) -> &[Entry]
        ensures entries { entry_notes result.now ≡ self.now.now.world.log }
        ensures theorems { Theorems self.now }
    {
        self.course.holds();
        self.course.log()
    }

    /// The parcels, by their numbers from 0.
    pub fn parcels(&self) -> &[Parcel]
        ensures parcels { parcel_views result.now ≡ self.now.now.world.parcels }
        ensures theorems { Theorems self.now }
    {
        self.course.holds();
        self.course.parcels()
    }

    /// Whether what an end handed out is a prefix of what its peer handed in. If it has no peer,
    /// whether it handed out nothing. It is false for a number of no end.
    pub fn begins(&self, end: usize) -> bool
        ensures begins { IsTrue result ↔ Begins self.now.now.world.log end }
        // The main theorem, also after running out of memory: under its premises this holds for
        // every end.
        ensures headline { LogPremises self.now.now.world.log → IsEnd self.now.now.world.log end
            → IsTrue result }
        ensures theorems { Theorems self.now }
    {
        self.course.holds();
        self.course.begins(end)
    }

    /// Whether every packet that an end read from its peer was fresh: after it was sent and before
    /// it was read, each of the two sent fewer than 32,768 units.
    pub fn fresh(&self) -> bool
        ensures fresh { IsTrue result ↔ ReadsRecent self.now.now.world.log }
        ensures theorems { Theorems self.now }
    {
        self.course.holds();
        self.course.fresh()
    }

    /// What is reported of each end, by its number. A released end keeps what it had, and has no
    /// state. After running out of memory nothing is reported of hosts and states.
    pub fn ends(&self) -> &[EndInfo]
        ensures told { TellsEnds self.now result.now }
        ensures count { self.now.spent ≡ false
            → length result.now ≡ length self.now.now.world.ends }
        ensures next { self.now.spent ≡ false → TellsNext self.now.now.world result.now }
        ensures opened { self.now.spent ≡ false → TellsOpened self.now.now.world result.now }
        ensures released { self.now.spent ≡ false → TellsReleased self.now.now.world result.now }
        // The theorem about closing, in terms of what is reported.
        ensures closed { self.now.spent ≡ false → TellsClosed self.now.now.world result.now }
        ensures ended { TellsEnded self.now.now.world result.now }
        ensures theorems { Theorems self.now }
    {
        self.course.holds();
        peer_is_found();
        &self.told.infos
    }
}
