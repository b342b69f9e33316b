//! The world and its steps.
ghost use Rattle.std.specs.Prelude.{◌≡◌, ◌≤◌, Err, IfOk, IsErrOf, None, Some};
ghost use Rattle.sync_world.specs.Beginning.{IsNewStage};
ghost use Rattle.sync_world.specs.Doing.{DoesBy};
ghost use Rattle.sync_world.specs.Leaving.{IsSame};
ghost use Rattle.sync_world.specs.Refusing.{refuses};
ghost use Rattle.sync_world.specs.Standing.{AllLinksStand, IsManyDevices};
ghost use Rattle.world_devices.specs.Refusals.{RefusedBy};
ghost use Rattle.sync_world.specs.Moving.{fault_after};
ghost use Rattle.world_devices.specs.declared.stop.StepFault.{StepFault};

use crate::stage::Stage;
use std::alloc::Global;
use std::hash::RandomState;
use std::marker::Model;
use world_devices::{Device, StepFault};
use world_laws::many_devices;
use world_scripts::WorldStep;

/// Several devices and the links between them. Each device has a contact for each other one.
/// Contracts see the stage on which its steps are made.
#[derive(Drop)]
pub struct World {
    stage: Stage,
}

impl Model for World {
    ghost use Rattle.sync_world.specs.declared.stage.Stage.{Stage};
    ghost use Rattle.sync_world.specs.Codes.{stage_code};

    ghost Value = { Stage };

    ghost coded = { stage_code };

    ghost use Rattle.sync_world.specs.Standing.{IsWorld};

    ghost view = { λ w. w.stage };

    ghost invariant = { λ w. IsWorld w.stage };
}

impl World {
    /// A world of so many devices, with empty stores and no links.
    ///
    /// # Errors
    /// `Memory` for want of memory.
    pub fn new(alloc: Global, hasher: RandomState, devices: u8) -> Result<World, StepFault>
        requires least { 2 ≤ devices }
        requires most { devices ≤ 8 }
        ensures new { IfOk result (IsNewStage devices) }
        ensures many { IfOk result (λ world. IsManyDevices world.devices.items) }
    {
        many_devices();
        let stage = Stage::new(alloc, hasher, devices)?;
        links_stand_on(stage.devices.as_slice());
        Ok(World { stage })
    }

    /// The devices, by their numbers.
    pub fn devices(&self) -> &[Device]
        ensures { result.now ≡ self.now.devices.items }
    {
        self.stage.devices.as_slice()
    }

    /// Many devices: there is a journal for each device, for which its files as they read stand,
    /// and whose facts its store has where it runs. Each journal is legal; what a device counts as
    /// seen by another one is held by that other; each held message was written by some device; and
    /// where a session is at rest all that is to reach its contact is held there. So it is at any
    /// time, whatever the steps before answered. It does nothing.
    pub fn many_devices_stand(&self)
        ensures { IsManyDevices self.now.devices.items }
    {
        links_stand_on(self.stage.devices.as_slice());
        many_devices();
    }

    /// Makes a step. After `Refused` the world is as before; after `Memory` or `Full` it answers
    /// that fault for good. Whatever it answers, there is then a journal for each device, for which
    /// its files as they read stand, and whose facts its store has where it runs; each is legal,
    /// what a device counts as seen by another one is held by that other, each held message was
    /// written by some device, and where a session is at rest all that is to reach its contact is
    /// held there.
    ///
    /// `Refused` comes exactly where the rules of worlds refuse the step (`refuses`), but for want
    /// of memory. `Ok` comes where the step was made as these rules have it, and `Full` where a
    /// device in it would pass the limit of its journal (`DoesBy`).
    pub fn step(&mut self, step: &WorldStep) -> Result<(), StepFault>
        ensures for_good { (fault : StepFault) → self.old.fault ≡ Some fault
            → (result ≡ Err fault) × (self.new ≡ self.old) }
        ensures fault { self.old.fault ≡ None → self.new.fault ≡ fault_after result }
        ensures many { IsManyDevices self.new.devices.items }
        ensures refused { self.old.fault ≡ None → RefusedBy (refuses step.now self.old) result }
        ensures same { self.old.fault ≡ None → IsErrOf result StepFault.Refused
            → IsSame self.old self.new }
        ensures does { self.old.fault ≡ None → DoesBy step.now result self.old self.new }
    {
        many_devices();
        links_stand_on(self.stage.devices.as_slice());
        let made = self.stage.step(step);
        links_stand_on(self.stage.devices.as_slice());
        made
    }
}

// What stands on the links of each device, and in its store. It does nothing.
fn links_stand_on(devices: &[Device])
    ensures { AllLinksStand devices.now }
{
    'devices: for d in 0..devices.len() {
        devices[d].links_stand();
    }
}
