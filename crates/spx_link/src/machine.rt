//! Theorems about a connection whose numbers never wrap, after every list of steps from its start,
//! with any number of buffers at the two ends. Packets may be read late, more than once, in any
//! order or never.

ghost use Rattle.std.specs.Prelude.{ℕ, ◌<◌, ◌≤◌, List, All, Contains};
ghost use Rattle.spx_link.specs.Limits.{max_allocation_ahead};
ghost use Rattle.spx_link.specs.Machine.{AreSound, End, Grows, IsChain, IsRun, IsStep, IsWithin};
ghost use Rattle.spx_link.specs.Machine.{Machine, Packet, Step, WasSent, got, new_end, start};
ghost use Rattle.spx_link.specs.Machine.Act.{Gets};
ghost use Rattle.spx_link.specs.Machine.Step.{One, Two};
ghost use Rattle.spx_link.specs.Fresh.{IsRecentPacket, TellsPositions};

/// What an end counts as acknowledged was read by its peer, what was read was sent, and what was
/// sent was allowed.
pub fn chain()
    ensures one { (steps : List Step) (a b : ℕ) (m : Machine) → IsRun steps (start a b) m
        → IsChain m.one m.two }
    ensures two { (steps : List Step) (a b : ℕ) (m : Machine) → IsRun steps (start a b) m
        → IsChain m.two m.one }
{}

/// Outstanding units fit the peer's buffers, and held units fit the end's own. No more is sent or
/// read than there are units.
pub fn within()
    ensures one { (steps : List Step) (a b : ℕ) (m : Machine) → IsRun steps (start a b) m
        → IsWithin m.one m.two }
    ensures two { (steps : List Step) (a b : ℕ) (m : Machine) → IsRun steps (start a b) m
        → IsWithin m.two m.one }
{}

/// Every packet says what was true when it was sent.
pub fn packets()
    ensures one { (steps : List Step) (a b : ℕ) (m : Machine) → IsRun steps (start a b) m
        → All (WasSent m.one m.two) m.one.bag }
    ensures two { (steps : List Step) (a b : ℕ) (m : Machine) → IsRun steps (start a b) m
        → All (WasSent m.two m.one) m.two.bag }
{}

/// All of this holds for two new ends, and each step keeps it. Use it to go one step at a time, or
/// if the machine has other steps between.
pub fn soundness()
    ensures start { (a b : ℕ) → AreSound (new_end a) (new_end b) }
    ensures step { (s : Step) (m n : Machine) → IsStep s m n → AreSound m.one m.two
        → AreSound n.one n.two }
    // An end may get any packet that says what was true, whether a bag holds it or not.
    ensures gets { (c d : End) (p : Packet) → AreSound c d → WasSent d c p → AreSound (got p c) d }
{}

/// Numbers only grow, from any machine on.
pub fn growth()
    ensures one { (steps : List Step) (m n : Machine) → IsRun steps m n → Grows m.one n.one }
    ensures two { (steps : List Step) (m n : Machine) → IsRun steps m n → Grows m.two n.two }
{}

/// A position that an end may send was allowed by a packet of its peer that it got before.
pub fn allowances()
    ensures one { (steps : List Step) (a b : ℕ) (m : Machine) (n : ℕ) → IsRun steps (start a b) m
        → n < m.one.limit
        → (p : Packet) × Contains steps (One (Gets p)) × Contains m.two.bag p × (n < p.allows) }
    ensures two { (steps : List Step) (a b : ℕ) (m : Machine) (n : ℕ) → IsRun steps (start a b) m
        → n < m.two.limit
        → (p : Packet) × Contains steps (Two (Gets p)) × Contains m.one.bag p × (n < p.allows) }
{}

/// The 16-bit numbers of a fresh packet identify its positions, if neither end has more than 16,383
/// buffers.
pub fn fresh_packets()
    ensures one { (steps : List Step) (a b : ℕ) (m : Machine) (p : Packet) → a ≤ max_allocation_ahead
        → b ≤ max_allocation_ahead → IsRun steps (start a b) m → Contains m.two.bag p → IsRecentPacket m.one m.two p
        → TellsPositions m.one p }
    ensures two { (steps : List Step) (a b : ℕ) (m : Machine) (p : Packet) → a ≤ max_allocation_ahead
        → b ≤ max_allocation_ahead → IsRun steps (start a b) m → Contains m.one.bag p → IsRecentPacket m.two m.one p
        → TellsPositions m.two p }
{}
