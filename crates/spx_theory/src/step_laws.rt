//! What an event does to a world is a list of deeds of its scene, and it leaves the world in order.

ghost use Rattle.spx_theory.specs.Deeds.{Reached};
ghost use Rattle.spx_theory.specs.World.{World, InOrder, scene_of};
ghost use Rattle.spx_theory.specs.WorldStep.{WorldStep};
ghost use Rattle.spx_theory.specs.DeedRuns.{Deeds};
ghost use Rattle.spx_theory.specs.Reach.{CameTo};
ghost use Rattle.spx_theory.specs.InStep.{PeersAreInStep};

use crate::laws::peers_are_in_step;

/// Each step of a network changes its scene by deeds, and leaves the world in order. So its scene
/// is still one that deeds reach.
pub fn steps_are_deeds()
    ensures deeds { (old new : World) → InOrder old → WorldStep old new
        → Deeds (scene_of old) (scene_of new) }
    ensures order { (old new : World) → InOrder old → WorldStep old new → InOrder new }
    ensures reached { (old new : World)
        → InOrder old → Reached (scene_of old) → WorldStep old new → Reached (scene_of new) }
{}

/// A law of scenes is one of worlds: whatever events a network took, its peers are in step.
pub fn peers_of_worlds_are_in_step()
    ensures reached { (w : World) → CameTo w → InOrder w × Reached (scene_of w) }
    ensures in_step { (w : World) → CameTo w → PeersAreInStep (scene_of w) }
{
    peers_are_in_step();
}
