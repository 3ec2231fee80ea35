//! Each call of the core of `ipx route` is calls of some routers, and hosts and such routers
//! together take a course.

ghost use Rattle.theory_processes.specs.Lives.{SiteCallsAreRouterCalls};
ghost use Rattle.theory_processes.specs.SiteCalls.{SiteFaultsAreCalls, SiteTurnsAreCalls};
ghost use Rattle.theory_processes.specs.Together.{HandOnOverRoutes, RunningRoutersTakeCourses};
ghost use Rattle.theory_processes.specs.Transfers.{BothEndOverRoutes, ListenedOverRoutes, SentOverRoutes};

use crate::hosts::{listened_output_is_input, sent_input_is_read};
use crate::laws::{courses_are_scenes, processes_hand_on};
use ipx_control::{bytes_are_one_rip, bytes_are_one_sap};
use ipx_wire::bytes_are_one_packet;

/// Whatever the core of `ipx route` does in a call, some routers with its ports do: new ones, which
/// receive nothing but what this call receives. Each packet that it gives, or that waits after the
/// call, is given by one of these, or waited before. Drops and static entries are no calls.
pub fn site_calls_are_router_calls()
    ensures { SiteCallsAreRouterCalls }
{
    bytes_are_one_packet();
    bytes_are_one_rip();
    bytes_are_one_sap();
}

/// Turns of this core over ports are calls of it, which received and gave the same, in the same
/// order. A turn that a fault ends is calls too. Of what its ports gave, at most one datagram
/// may be missing, and only if memory ran out.
pub fn site_turns_are_calls()
    ensures turns { SiteTurnsAreCalls }
    ensures faults { SiteFaultsAreCalls }
{}

/// Take hosts and routers of `ipx route`, each with its own calls, in whatever way these interleave.
/// Then the hosts, with just these calls, and some routers, each a `RouterCore`, take a course
/// together. This requires that each datagram that arrives was given before, or is marked as from
/// outside.
pub fn running_routers_take_courses()
    ensures { RunningRoutersTakeCourses }
{
    site_calls_are_router_calls();
}

/// So the headline and the close hold of hosts whose datagrams pass through `ipx route`.
pub fn hosts_hand_on_over_routes()
    ensures { HandOnOverRoutes }
{
    courses_are_scenes();
    processes_hand_on();
}

/// Runs of `ipx send` and of `ipx listen` that ended with status 0 may be among these hosts. Then
/// what they sent was read, and what they wrote was handed in, as if no `ipx route` were between
/// them.
pub fn transfers_pass_over_routes()
    ensures sent { SentOverRoutes }
    ensures listened { ListenedOverRoutes }
    ensures both_end_well { BothEndOverRoutes }
{
    sent_input_is_read();
    listened_output_is_input();
}
