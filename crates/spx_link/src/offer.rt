//! What an application gives a link to send, and what it takes from it.

ghost use Rattle.std.specs.Prelude.{◌≡◌, ◌<◌, [], All, Err, IsOk, IsOkUnless, None, OnErr, OnOk};
ghost use Rattle.std.specs.Prelude.{Some, option_copied};
ghost use Rattle.spx_link.specs.Limits.{end_stream};
ghost use Rattle.spx_link.specs.Offer as spec;
ghost use Rattle.spx_link.specs.declared.fault.OfferFault.{OfferFault};
ghost use Rattle.spx_link.specs.declared.fault.OfferFault.TheVariants as OfferFaults;

use crate::fault::OfferFault;
use crate::limits::END_STREAM;
use crate::link::Link;
use crate::state::State;
use crate::unit::Unit;
use ipx_wire::Fragment;
use std::alloc::Global;

/// Why a state refuses units.
fn refusal(state: State) -> Option<OfferFault>
    ensures { result ≡ spec.refusal state }
{
    match state {
        State::Opening => Some(OfferFault::NotLive),
        State::Live => None,
        _ => Some(OfferFault::Ended),
    }
}

/// The unit that ends the connection.
fn the_end() -> Unit
    ensures { result ≡ spec.the_end }
{
    Unit {
        stream: END_STREAM,
        last: false,
        body: Fragment::new(),
    }
}

impl Link {
    /// Queues the units, all or none. The caller must pass streams under FE.
    ///
    /// It is refused as `NotLive` while the link is opening, as `Ended` in any other state but
    /// Live, and if out of memory.
    pub fn offer(&mut self, _alloc: Global, units: Vec<Unit>) -> Result<(), OfferFault>
        requires { All (λ u. u.stream < end_stream) units.items }
        ensures ok { OnOk result (self.new ≡ spec.offer_link self.old units.items) }
        ensures refused { (f : OfferFault) → spec.refusal self.old.state ≡ Some f → result ≡ Err f }
        ensures memory { spec.refusal self.old.state ≡ None
            → IsOkUnless result OfferFaults.OutOfMemory }
        ensures empty { spec.refusal self.old.state ≡ None → units.items ≡ [] → IsOk result }
        ensures unchanged { OnErr result (self.new ≡ self.old) }
    {
        if let Some(fault) = refusal(self.state) {
            return Err(fault);
        }
        self.queue.push_all(units)?;
        Ok(())
    }

    /// Queues the end of the connection. It is refused as `offer` is.
    pub fn end(&mut self, _alloc: Global) -> Result<(), OfferFault>
        ensures ok { OnOk result (self.new ≡ spec.end_link self.old) }
        ensures refused { (f : OfferFault) → spec.refusal self.old.state ≡ Some f → result ≡ Err f }
        ensures memory { spec.refusal self.old.state ≡ None
            → IsOkUnless result OfferFaults.OutOfMemory }
        ensures unchanged { OnErr result (self.new ≡ self.old) }
    {
        if let Some(fault) = refusal(self.state) {
            return Err(fault);
        }
        self.queue.push(the_end())?;
        self.end_queued = true;
        self.state = State::Ending;
        Ok(())
    }

    /// The first unit that was received and not taken. It needs no memory.
    pub fn peek(&self) -> Option<&Unit>
        ensures { option_copied result ≡ spec.peek_link self.now }
    {
        self.buffers.first()
    }

    /// Takes that unit. It needs no memory.
    pub fn take(&mut self) -> Option<Unit>
        ensures gives { result ≡ (spec.take_link self.old).0 }
        ensures leaves { self.new ≡ (spec.take_link self.old).1 }
    {
        if self.buffers.held() > 0 && self.is_working() {
            self.owes_ack = true;
        }
        self.buffers.take()
    }

    /// Drops that unit, if there is one: use it instead of `take` after `peek`, to avoid a copy. It
    /// needs no memory.
    pub fn discard(&mut self)
        ensures { self.new ≡ (spec.take_link self.old).1 }
    {
        if self.buffers.held() == 0 {
            return;
        }
        self.buffers.drop_first();
        if self.is_working() {
            self.owes_ack = true;
        }
    }
}
