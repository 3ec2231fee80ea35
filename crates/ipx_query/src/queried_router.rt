//! A router that is asked.

ghost use Rattle.std.specs.Prelude.{◌≡◌, ◌<◌, IfSome, length, map, position};
ghost use Rattle.std.specs.List.{list_any};
ghost use Rattle.ipx_query.specs.QueryAnswers.{router_heard, was_asked};
ghost use Rattle.ipx_query.specs.AskQueries.{is_ask_due};
ghost use Rattle.ipx_query.specs.QueryView.{unasked};

use ipx_wire::Node;

/// A router that is asked, and its state.
#[derive(Clone, Copy, Debug, PartialEq, Eq)]
pub struct QueriedRouter {
    /// Its node on the host's network.
    pub node: Node,
    /// The last round in which it was asked: 1 to 3, or 0 before the first.
    pub rounds: u8,
    /// Whether it answered.
    pub answered: bool,
    /// Whether the last packet of its answer was received, which is one that is not full.
    pub ended: bool,
}

impl QueriedRouter {
    /// A router that was not asked yet.
    pub(crate) fn new(node: Node) -> QueriedRouter
        ensures { result ≡ unasked node }
    {
        QueriedRouter {
            node,
            rounds: 0,
            answered: false,
            ended: false,
        }
    }

    /// The router, asked in a round.
    pub(crate) fn asked_in(self, rounds: u8) -> QueriedRouter
        ensures { result ≡ record self { rounds = rounds } }
    {
        QueriedRouter { rounds, ..self }
    }

    /// Whether it has that node, and was asked.
    fn was_asked_at(&self, node: Node) -> bool
        ensures { result ≡ was_asked node self.now }
    {
        self.rounds > 0 && self.node == node
    }

    /// Whether it is to be asked in a round.
    fn is_due(&self, rounds: u8) -> bool
        ensures { result ≡ is_ask_due rounds self.now }
    {
        !self.answered && self.rounds < rounds
    }

    /// Notes that the router of that node answered, if it is this one and was asked.
    fn hear(&mut self, node: Node, ended: bool)
        ensures { self.new ≡ router_heard node ended self.old }
    {
        if self.was_asked_at(node) {
            self.answered = true;
            self.ended |= ended;
        }
    }
}

/// The position of the first router that is to be asked in a round.
pub fn due_place(routers: &[QueriedRouter], rounds: u8) -> Option<usize>
    ensures first { result ≡ position (is_ask_due rounds) routers.now }
    ensures there { IfSome result (λ place. place < length routers.now) }
{
    routers.iter().position(|router| router.is_due(rounds))
}

/// Whether the router of that node was asked.
pub fn has_asked(routers: &[QueriedRouter], node: Node) -> bool
    ensures { result ≡ list_any (was_asked node) routers.now }
{
    routers.iter().any(|router| router.was_asked_at(node))
}

/// Notes that the router of that node answered.
pub fn hear_router(routers: &mut [QueriedRouter], node: Node, ended: bool)
    ensures { routers.new ≡ map (router_heard node ended) routers.old }
{
    for router in routers.iter_mut() {
        router.hear(node, ended);
    }
}
