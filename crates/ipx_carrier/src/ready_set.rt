//! Marks of the ports that may have something to read.

ghost use Rattle.std.specs.Prelude.{◌≡◌, ◌++◌, ◌∷◌, [], IfOk, OnErr, OnOk, false, length, replicate, slice_set, true};
ghost use Rattle.ipx_carrier.specs.Readiness.{AsksPortWithMark};
ghost use Rattle.ipx_carrier.specs.ReadySet.{is_any_marked, is_port_marked};

use std::alloc::{AllocError, Global};
use std::marker::Model;

/// A mark for each port of a device, numbered from 0: whether something may wait there. A device
/// that the system notifies of readable ports reads only those.
#[derive(Drop)]
pub struct ReadySet {
    marks: Vec<bool>,
}

impl Model for ReadySet {
    ghost use Rattle.std.specs.Prelude.{Bool, List};

    ghost Value = { List Bool };

    ghost view = { λ m. m.marks.items };
}

impl ReadySet {
    /// Marks of no ports.
    pub fn new(alloc: Global) -> ReadySet
        ensures { result ≡ [] }
    {
        ReadySet {
            marks: Vec::new(alloc),
        }
    }

    /// Marks of this many ports, all set: the system doesn't notify of what arrived earlier.
    pub fn all(alloc: Global, ports: usize) -> Result<ReadySet, AllocError>
        ensures { IfOk result (λ marks. marks ≡ replicate ports true) }
    {
        let marks = vec![in alloc; true; ports]?;
        Ok(ReadySet { marks })
    }

    /// Adds one more port after the others. It is marked.
    pub fn add(&mut self) -> Result<(), AllocError>
        ensures added { OnOk result (self.new ≡ self.old ++ true ∷ []) }
        ensures refused { OnErr result (self.new ≡ self.old) }
    {
        self.marks.push(true)?;
        Ok(())
    }

    /// How many ports there are.
    pub fn ports(&self) -> usize
        ensures { result ≡ length self.now }
    {
        self.marks.len()
    }

    /// Whether something may wait at a port.
    pub fn is_marked(&self, port: usize) -> bool
        ensures { result ≡ is_port_marked self.now port }
    {
        match self.marks.get(port) {
            Some(mark) => *mark,
            None => false,
        }
    }

    /// Whether something may wait at some port.
    pub fn is_any_marked(&self) -> bool
        ensures { result ≡ is_any_marked self.now }
    {
        self.marks.iter().any(|mark| *mark)
    }

    /// Marks a port: something may wait there from now on. Nothing happens if the port does not
    /// exist.
    pub fn set_ready(&mut self, port: usize)
        ensures { self.new ≡ slice_set self.old port true }
    {
        if let Some(mark) = self.marks.get_mut(port) {
            *mark = true;
        }
    }

    /// Clears a port's mark: the system said that nothing waits there.
    #[tactic(auto, using(crate::proofs::Marking::cleared_asks))]
    pub fn clear_ready(&mut self, port: usize)
        ensures cleared { self.new ≡ slice_set self.old port false }
        ensures asked { AsksPortWithMark port false
            (is_port_marked self.old) (is_port_marked self.new) }
    {
        if let Some(mark) = self.marks.get_mut(port) {
            *mark = false;
        }
    }

    /// Marks each port.
    pub fn mark_all(&mut self)
        ensures { self.new ≡ replicate (length self.old) true }
    {
        self.marks.fill(true);
    }
}
