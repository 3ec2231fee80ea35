//! Each turn of the core of `ipx send` and of `ipx listen`, and what they do between turns, is a
//! list of calls of a host.

ghost use Rattle.std.specs.Prelude.{◌≡◌, ◌≢◌, ◌≤◌, ◌∷◌, ◌++◌, ℕ, IfSome, List, Option, [], length};
ghost use Rattle.std.specs.Io.KnownBytes.{Appends};
ghost use Rattle.ipx_wire.specs.declared.address.Address.{Address};
ghost use Rattle.spx_messages.specs.EndpointView.{EndpointView, held_at};
ghost use Rattle.spx_theory.specs.Deeds.{Reached};
ghost use Rattle.spx_theory.specs.Peers.{IsFresh};
ghost use Rattle.spx_theory.specs.Scene.{Scene};
ghost use Rattle.ipx_carrier.specs.Device.{Datagram};
ghost use Rattle.ipx_carrier.specs.Turns.{FailsMidTurn, Given, Turn, Turns, Ways, packets_of, received_of};
ghost use Rattle.ipx_carrier.specs.declared.fault.RunFault.{RunFault};
ghost use Rattle.ipx_carrier.specs.declared.fault.RunFault.TheVariants.{OutOfMemory};
ghost use Rattle.ipx_config.specs.declared.host.HostConfig.{HostConfig};
ghost use Rattle.ipx_host.specs.Barring.{HearAllowedOutOfMemory, HearsAllowed};
ghost use Rattle.ipx_host.specs.Dropping.{DropsCame};
ghost use Rattle.ipx_host.specs.Feeding.{HandsOn, QueuesEnd};
ghost use Rattle.ipx_host.specs.Paced.{GivesOnceTold};
ghost use Rattle.ipx_host.specs.Passing.{PassesOne, takes_from};
ghost use Rattle.ipx_host.specs.Sessions.{Asks, LetsLinkGo};
ghost use Rattle.ipx_host.specs.Turning.{gives, hear_out_of_memory, hears, next_out_of_memory};
ghost use Rattle.ipx_host.specs.declared.paced_host_core.PacedHostCore.{PacedHostCore};
ghost use Rattle.ipx_host.specs.declared.sessions.Session.{Session};
ghost use Rattle.theory_processes.specs.Course.{Call, Course, IsNewSite};
ghost use Rattle.theory_processes.specs.HostCalls.{Closes, DoesHostCall, HandsIn, Releases};
ghost use Rattle.theory_processes.specs.Loops.{HostRuns, answers_in, if_given};
ghost use Rattle.theory_processes.specs.Processes.{IdsDiffer};
ghost use Rattle.theory_processes.specs.Shows.{Shows};
ghost use Rattle.theory_processes.specs.Site.{Site};
ghost use Rattle.theory_processes.specs.Timely.{AreSpaced, IsNewTimed, TimedCall, TimedSite, TimelyCourse, untimed};
ghost use Rattle.theory_processes.specs.BetweenTurns.{DoesOrFails, TakesAre, TakesOf, hands_on, message_of};
ghost use Rattle.theory_processes.specs.ListeningCalls.{ListensAt, ListensWellByCalls, OutputIsInput};
ghost use Rattle.theory_processes.specs.PacedRuns.{PacedCoresGiveSeldom, PacedHostsAreSpaced};
ghost use Rattle.theory_processes.specs.SendingCalls.{InputIsRead, RunsAt, SendsByCalls};
ghost use Rattle.theory_processes.specs.TurnCalls.{MakesCalls};

use crate::laws::{
    courses_are_scenes, processes_hand_on, senders_hand_in, status_zero_is_read,
    timely_courses_are_fresh,
};
use spx_congestion::laws::units_are_capped;

/// Whatever a datagram or a poll does to the core of a host is calls of its endpoint. A barred
/// request is none, and so is a poll before the host has noted an accepted connection. A plan of
/// the pacer is calls before the poll.
pub fn paced_calls_are_host_calls()
    ensures hears { (old new : PacedHostCore) (bytes : List ℕ) (now : ℕ)
        → HearsAllowed old bytes now new → MakesCalls old new (bytes ∷ []) [] }
    ensures loses { (old new : PacedHostCore) (bytes : List ℕ) (now : ℕ)
        → HearAllowedOutOfMemory old bytes now new → MakesCalls old new [] [] }
    ensures gives { (old new : PacedHostCore) (now : ℕ) (given : Option Given)
        → GivesOnceTold old now given new → MakesCalls old new [] (if_given given) }
{}

/// What a host does between two turns is calls of its endpoint.
pub fn work_between_turns_is_calls()
    ensures hands_on { (old new : EndpointView) (id : ℕ) (bytes : List ℕ)
        → HandsOn old new id bytes → HostRuns (hands_on id bytes) old new }
    ensures closes { (old new : EndpointView) (id : ℕ)
        → QueuesEnd old new id → DoesHostCall (Closes id) old new }
    ensures drops { (old new : EndpointView) (id : ℕ)
        → DropsCame old new id → TakesOf id old new }
    ensures passes { (old new : EndpointView) (waiting left : List ℕ) (written writes : Option (List ℕ))
        (c c' : Session) → (p : PassesOne old new waiting left written writes c c')
        → TakesAre (takes_from (held_at old c.id) (held_at new c.id) waiting left written writes c c' p.from)
        old new }
    ensures probes { (now : ℕ) (old new : EndpointView) (c c' : Session)
        → Asks now old new c c' → DoesOrFails (HandsIn c.id (message_of [])) old new }
    ensures releases { (old new : EndpointView) (id : ℕ)
        → LetsLinkGo old new id → DoesOrFails (Releases id) old new }
{}

/// Turns of a host over a device are calls of its endpoint, which received and gave the same, in
/// the same order. A turn that a fault ends is calls too. Of what its port gave, at most one datagram
/// may be missing, and only if the fault is out of memory.
pub fn paced_turns_are_calls()
    ensures turns { (course : List Turn) (old new : PacedHostCore)
        → Turns hears gives 1 course old new
        → MakesCalls old new (answers_in (λ port bytes. bytes) (received_of course)) (packets_of course) }
    ensures faults { (ways : Ways Datagram) (t : Turn) (sent : List Datagram) (fault : RunFault)
        (old new : PacedHostCore)
        → FailsMidTurn hears hear_out_of_memory gives next_out_of_memory 1 ways t sent fault old new
        → (received lost : List (List ℕ)) × (answers_in (λ port bytes. bytes) t.answers ≡ received ++ lost)
        × (length lost ≤ 1) × (lost ≢ [] → fault ≡ OutOfMemory) × MakesCalls old new received t.packets }
{}

/// Take a run of `ipx send` that ended with status 0 among the calls of any hosts and routers.
/// Assume that nothing arrives except what they sent, and that no id is given twice at one network
/// and node. If what is read is recent, a peer at the address that was dialled took exactly the
/// input, or has the rest of it whole.
pub fn sent_input_is_read()
    ensures { (file : HostConfig) (to : Address) (input : Option (List ℕ)) (run : SendsByCalls file to input)
        (start site : Site) (calls : List Call) (host : ℕ)
        → Course calls start site → IdsDiffer site → site.outside ≡ []
        → RunsAt run calls site host
        → (s : Scene) → Reached s → Shows s site → IsFresh s.log
        → InputIsRead s site host run.id run.whole.held.link to input }
{
    status_zero_is_read();
}

/// Take a run of `ipx listen` that ended with status 0 among the calls of any hosts and routers,
/// under the same premises. Its writer then took all that the peer of one connection handed in.
/// If that peer is a run of `ipx send` that ended with status 0, the writer took just its input.
pub fn listened_output_is_input()
    ensures output { (file : HostConfig) (written writes : Option (List ℕ)) (run : ListensWellByCalls file written writes)
        (start site : Site) (calls : List Call) (host : ℕ)
        → IsNewSite start → Course calls start site → IdsDiffer site → site.outside ≡ []
        → ListensAt run calls site host
        → (s : Scene) → Reached s → Shows s site → IsFresh s.log
        → OutputIsInput s site host run.id written writes }
    ensures both_end_well { (file : HostConfig) (to : Address) (input : Option (List ℕ)) (run : SendsByCalls file to input)
        (start site : Site) (calls : List Call) (host : ℕ)
        → Course calls start site → IdsDiffer site → RunsAt run calls site host
        → (s : Scene) (reader id : ℕ) (written writes : Option (List ℕ))
        → (o : OutputIsInput s site reader id written writes)
        → o.sender.host ≡ host → o.sender.id ≡ run.id
        → IfSome input (λ bytes. Appends written writes bytes) }
{
    courses_are_scenes();
    processes_hand_on();
    senders_hand_in();
}

/// The same by one clock, with these premises: nothing arrives except what hosts and routers sent,
/// no id is given twice at one network and node, all that a connection reads was sent by a host at
/// most a second before, and no host gives 32,768 new units within any second.
pub fn timely_input_is_read()
    ensures { (file : HostConfig) (to : Address) (input : Option (List ℕ)) (run : SendsByCalls file to input)
        (start last : TimedSite) (calls : List TimedCall) (host : ℕ)
        → IsNewTimed start → TimelyCourse calls start last → AreSpaced last
        → IdsDiffer last.site → last.site.outside ≡ [] → RunsAt run (untimed calls) last.site host
        → (s : Scene) × Reached s × Shows s last.site × InputIsRead s last.site host run.id run.whole.held.link to input }
{
    timely_courses_are_fresh();
    sent_input_is_read();
}

/// Of a run of `ipx listen` under the same premises. If the peer of its connection is a run of
/// `ipx send` that ended with status 0, the clause `both_end_well` of `listened_output_is_input`
/// says that the writer took just its input.
pub fn timely_output_is_input()
    ensures { (file : HostConfig) (written writes : Option (List ℕ)) (run : ListensWellByCalls file written writes)
        (start last : TimedSite) (calls : List TimedCall) (host : ℕ)
        → IsNewTimed start → TimelyCourse calls start last → AreSpaced last
        → IdsDiffer last.site → last.site.outside ≡ [] → ListensAt run (untimed calls) last.site host
        → (s : Scene) × Reached s × Shows s last.site × OutputIsInput s last.site host run.id written writes }
{
    timely_courses_are_fresh();
    listened_output_is_input();
}

/// The core of `ipx send` gives fewer than 32,767 units of its connection within any 1,000 ms,
/// first or again, whatever it receives, and whatever its host does between turns.
pub fn paced_cores_give_seldom()
    ensures { PacedCoresGiveSeldom }
{
    units_are_capped();
}

/// So in a course by one clock new units are spaced, if each host that gives any is such a core,
/// whose clock began at some moment and goes on as the one clock does.
pub fn paced_hosts_are_spaced()
    ensures { PacedHostsAreSpaced }
{
    paced_cores_give_seldom();
}
