//! Cores that can ask their neighbours once more.

ghost use Rattle.std.specs.Prelude.{◌≡◌, false};
ghost use Rattle.ipx_metrics.specs.MeteredRouter.{CountedView};

use ipx_carrier::Core;
use ipx_metrics::MeteredRouter;

/// A router, alone or below other cores, that can ask its neighbours once more.
pub trait RestartDiscovery: Core {
    /// What the core is then.
    ghost asking_again: { Self → Self };

    /// The router asks its neighbours once more, as for `PriorityRouterCore::restart_discovery`.
    fn restart_discovery(&mut self)
        ensures again { self.new ≡ asking_again self.old }
        ensures ports { Self.port_count self.new ≡ Self.port_count self.old };
}

impl RestartDiscovery for MeteredRouter {
    ghost asking_again = { λ (c : CountedView). record c { started = false } };

    fn restart_discovery(&mut self) {
        MeteredRouter::restart_discovery(self);
    }
}
