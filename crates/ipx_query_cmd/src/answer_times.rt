//! How long it took until routers answered.

ghost use Rattle.std.specs.Prelude.{◌≡◌, IfOk, map};
ghost use Rattle.ipx_query_cmd.specs.OperatorLines.{answering_nodes};

use crate::stop_watch::StopWatch;
use ipx_query::QueriedRouter;
use ipx_wire::Node;
use std::alloc::{AllocError, Global};
use std::rt::Clock;

/// A router that answered, and the time until then in tenths of a millisecond.
#[derive(Clone, Copy, PartialEq, Eq)]
pub struct AnswerTime {
    pub node: Node,
    pub tenths: u64,
}

/// When routers first answered, by the system's clock, in the order in which they are asked.
/// Nothing is proved about the times.
#[derive(Drop)]
pub struct AnswerTimes<'a, R: Clock> {
    watch: StopWatch<'a, R>,
    tenths: Vec<Option<u64>>,
}

impl<'a, R: Clock> AnswerTimes<'a, R> {
    /// The times of `count` routers, measured from now.
    pub fn new(
        system: &'a R,
        alloc: Global,
        count: usize,
    ) -> Result<AnswerTimes<'a, R>, AllocError> {
        let mut tenths = Vec::new(alloc);
        for _router in 0..count {
            tenths.push(None)?;
        }
        Ok(AnswerTimes {
            watch: StopWatch::new(system),
            tenths,
        })
    }

    /// Records the routers that have answered by now.
    pub fn note(&mut self, routers: &[QueriedRouter]) {
        let now = self.watch.tenths();
        for (time, router) in self.tenths.iter_mut().zip(routers.iter()) {
            if router.answered && time.is_none() {
                *time = Some(now);
            }
        }
    }

    /// The time until the router at an index answered, in tenths of a millisecond.
    fn at(&self, place: usize) -> u64 {
        match self.tenths.get(place) {
            Some(Some(tenths)) => *tenths,
            _ => 0,
        }
    }

    /// The routers that answered, in their order.
    pub fn answers(
        &self,
        alloc: Global,
        routers: &[QueriedRouter],
    ) -> Result<Vec<AnswerTime>, AllocError>
        ensures { IfOk result (λ v. map (λ a. a.node) v.items ≡ answering_nodes routers.now) }
    {
        let mut answers = Vec::new(alloc);
        for (place, router) in routers.iter().enumerate() {
            if router.answered {
                let node = router.node;
                let tenths = self.at(place);
                answers.push(AnswerTime { node, tenths })?;
            }
        }
        Ok(answers)
    }
}
