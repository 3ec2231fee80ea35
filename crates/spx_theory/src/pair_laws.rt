//! The laws of one link.

ghost use Rattle.spx_theory.specs.Allowances.{AllowanceLaws};
ghost use Rattle.spx_theory.specs.Confirmed.{CloseLaws};
ghost use Rattle.spx_theory.specs.Lasting.{LastingLaws};
ghost use Rattle.spx_theory.specs.Names.{NameLaws};
ghost use Rattle.spx_theory.specs.PacedLinks.{PaceLaws};
ghost use Rattle.spx_theory.specs.PairQueues.{QueueLaws};
ghost use Rattle.spx_theory.specs.States.{StateLaws};
ghost use Rattle.spx_theory.specs.PairSteps.{StepLaws};

/// Each call of a link that follows its end of the machine is a step of that end. A recent packet
/// is received, a poll sends or does nothing, a take takes a unit, and an offer or an end adds
/// units.
pub fn calls_are_steps()
    ensures { StepLaws }
{}

/// No call puts a link into the opening state. A link that is opening or lost gives only requests,
/// reads only a reply, and is offered nothing.
pub fn states_go_on()
    ensures { StateLaws }
{}

/// A link sends the units that it was offered, in order and unchanged. Its next number is that of
/// the first one that it has not sent, and its queue is the rest of them.
pub fn links_send_their_queue()
    ensures { QueueLaws }
{}

/// A link keeps its ids, its socket and the remote address, except that joining gives it its peer's
/// id. Its packets are from its own id, and to its peer's.
pub fn calls_keep_names()
    ensures { NameLaws }
{}

/// What a link is made with stays. Its next number changes only if a unit is sent for the first
/// time.
pub fn calls_keep_what_lasts()
    ensures { LastingLaws }
{}

/// A change of the window, and a request to retransmit, do not change what the machine, the names
/// and the units of a link speak of.
pub fn pacing_changes_no_core()
    ensures { PaceLaws }
{}

/// A confirmed link has queued its end, and everything that it sent is acknowledged.
pub fn confirmed_links_are_done()
    ensures { CloseLaws }
{}

/// The number that a link expects is that after the units that were taken from it and that it
/// holds. So each of its packets allows as many units as were taken, plus its number of buffers.
pub fn packets_allow_what_was_taken()
    ensures { AllowanceLaws }
{}
