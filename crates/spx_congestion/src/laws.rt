//! Theorems about pacers, from their contracts alone.

ghost use Rattle.spx_congestion.specs.Capping.{UnitsAreCapped};
ghost use Rattle.spx_congestion.specs.Sampling.{SamplesAreSinceGiven};
ghost use Rattle.spx_congestion.specs.Saving.{PlansGoOn};
ghost use Rattle.spx_congestion.specs.Timeouts.{GivesUpAfterTen};
ghost use Rattle.spx_congestion.specs.Waiting.{NothingElsePostpones, TimeoutsLast};
ghost use Rattle.spx_congestion.specs.Waiting.{WaitsAreBounded};

/// A unit that is held back only for lack of credit is sent a quarter of a second later. However
/// often the pacer plans, 256 ms after a plan it has credit for a unit, if none was given since. If
/// nothing is outstanding, it allows one.
pub fn plans_go_on()
    ensures { PlansGoOn }
{}

/// A connection is given up exactly after ten timeouts in a row, since anything new was
/// acknowledged or the pacer was made. It may plan, hear and give anything else between.
pub fn ten_timeouts_give_up()
    ensures { GivesUpAfterTen }
{}

/// A packet that acknowledges nothing new and takes no unit out of flight delays no timeout. After
/// a timeout, only a new acknowledgement delays the next one. So a peer that only asks whether the
/// sender is there does not keep it waiting. When the timeout expires, a plan counts it, and the
/// first outstanding unit is to be sent again.
pub fn nothing_else_postpones()
    ensures { NothingElsePostpones }
{}

/// Each wait for an acknowledgement lasts 200 ms to 60 s.
pub fn waits_are_bounded()
    ensures { WaitsAreBounded }
{}

/// So ten timeouts in a row last two seconds at least.
pub fn timeouts_last()
    ensures { TimeoutsLast }
{}

/// Within any 1,000 ms a pacer lets go fewer than 32,767 units, first or again, whatever it hears
/// and however often it plans. So of the numbers of 16 bits less than half are sent in a second.
pub fn units_are_capped()
    ensures { UnitsAreCapped }
{}

/// If at most 8,192 units are outstanding, a sample is the time since the last unit that was
/// acknowledged was given, and that was given only once.
pub fn samples_are_since_given()
    ensures { SamplesAreSinceGiven }
{}
