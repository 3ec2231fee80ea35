//! Laws on what joined servers learn, on who is a client, on who is noted, on who is pinged how
//! often, on how often a client floods, on how many copies are sent, and on what an address without a
//! client gets. They do nothing.

ghost use Rattle.ipxnet_server.specs.CopyRuns.{CopiesAreLimited};
ghost use Rattle.ipxnet_server.specs.FloodRuns.{ClientsFloodSeldom};
ghost use Rattle.ipxnet_server.specs.JoinedLearns.{NoGivenPacketShowsAClient};
ghost use Rattle.ipxnet_server.specs.JoinedRuns.{JoinedRoutersKeepNobodyOut};
ghost use Rattle.ipxnet_server.specs.NotedPlaces.{RegistrationsKeepOtherNotes};
ghost use Rattle.ipxnet_server.specs.Pings.{AsksAreLate, AsksAreTwo, OnlySilentArePinged, PingsAreSeldom};
ghost use Rattle.ipxnet_server.specs.Restarts.{RestartAsksAreApart};
ghost use Rattle.ipxnet_server.specs.ServerRuns.{ClientsShowedTheirNodes, WhoStaysNotedIsAsked};
ghost use Rattle.ipxnet_server.specs.Unshown.{WhoShowsNothingGetsLittle};

/// A joined server takes no packet of the core of another router for one of that router's clients.
pub fn no_given_packet_shows_a_client()
    ensures { NoGivenPacketShowsAClient }
{}

/// A client that is pinged was silent for 25 seconds.
pub fn only_silent_clients_are_pinged()
    ensures { OnlySilentArePinged }
{}

/// A silent client gets at most one ping for each 25 seconds of its silence, however often there is
/// a turn.
pub fn pings_are_seldom()
    ensures { PingsAreSeldom }
{}

/// An address that is noted and shows nothing gets at most two pings each time that it is noted,
/// however often there is a turn.
pub fn asks_are_two()
    ensures { AsksAreTwo }
{}

/// It gets none earlier than 5.5 s after the registration that it is noted by, or 1 s after the
/// restart.
pub fn asks_are_late()
    ensures { AsksAreLate }
{}

/// Who registers and stays noted has been pinged by the first turn that is 5.5 s later, however often
/// anybody registers in its name meanwhile.
pub fn who_stays_noted_is_asked()
    ensures { WhoStaysNotedIsAsked }
{}

/// Registrations from one IP address, however many, keep the notes of all others, while there are at
/// most 48 of these.
pub fn registrations_keep_other_notes()
    ensures { RegistrationsKeepOtherNotes }
{}

/// Whoever a new server notes again, at one time: no two of them are pinged at one time, but each 20
/// ms after the one before, so 50 in a second.
pub fn restart_asks_are_apart()
    ensures { RestartAsksAreApart }
{}

/// Who is a client of a server has shown its node: after any calls of a new server, a datagram came
/// from its address with that node as its source.
pub fn clients_showed_their_nodes()
    ensures { ClientsShowedTheirNodes }
{}

/// Nobody is kept out by what comes from joined routers, in any course of calls. Whatever they send at
/// the same times, and whatever a server knows of their clients, after each call the same are its
/// own clients, and the same are noted. Each registration has the same answer.
pub fn joined_routers_keep_nobody_out()
    ensures { JoinedRoutersKeepNobodyOut }
{}

/// From one time to another, at most 256 floods of a client are passed on, and 128 more for each
/// second between the two, in any course of calls.
pub fn clients_flood_seldom()
    ensures { ClientsFloodSeldom }
{}

/// From one time to another, at most 200,000 copies of floods are sent by a port, whoever sent them,
/// and 100,000 more for each second between the two, in any course of calls of a new server.
pub fn copies_are_limited()
    ensures { CopiesAreLimited }
{}

/// An address from which no datagram shows its node gets at most three datagrams for each
/// registration from there, whoever forged these, and two for each time that it is noted again after
/// a restart, in any course of calls of a new server.
pub fn who_shows_nothing_gets_little()
    ensures { WhoShowsNothingGetsLittle }
{}
