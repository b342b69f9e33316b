//! A world that is played, with the devices that are to be shown.
ghost use Rattle.std.specs.Prelude.{◌≡◌, ◌+◌, ◌<◌, ◌^◌, ◌≤◌, ◌++◌, IfErr, IfOk, IfSome, OnOk, Some};
ghost use Rattle.std.specs.Prelude.{slice_get};
ghost use Rattle.std.specs.String.{string_bytes};
ghost use Rattle.sync_words.specs.Outcomes.{came_to};
ghost use Rattle.sync_world.specs.Playing.{AnswersAction, IsFirst};
ghost use Rattle.sync_world.specs.Replay.{PrintsWorld};
ghost use Rattle.sync_world.specs.Showing.{AddsDevice, CountsOne, HasCounted, device_line};
ghost use Rattle.sync_world.specs.Showing.{device_lines, facts_of, is_marked, player_lines};
ghost use Rattle.sync_world.specs.Showing.{total_of};

use crate::world::World;
use outside::{Sink, write_text};
use std::alloc::{AllocError, Global};
use std::hash::RandomState;
use store_commands::{Listing, add_listing};
use sync_rules::{Fate, View};
use sync_store::Store;
use sync_words::{Outcome, device_line};
use world_devices::StepFault;
use world_scripts::{Action, MAX_DEVICES, MIN_DEVICES, WorldStep};

/// A world that is played.
#[derive(Drop)]
pub(crate) struct Player {
    world: World,
    // How many devices there are, and which of them are to be shown.
    devices: u8,
    shown: [bool; 8],
}

// How many messages of a store are in each state.
#[derive(Clone, Copy, Debug)]
struct States {
    delivered: u32,
    invalid: u32,
    pending: u32,
    unknown: u32,
}

impl Player {
    /// A new world of so many devices, none of which is to be shown.
    pub(crate) fn new(alloc: Global, hasher: RandomState, devices: u8) -> Result<Player, Outcome>
        requires least { MIN_DEVICES ≤ devices }
        requires most { devices ≤ MAX_DEVICES }
        ensures ok { IfOk result (IsFirst devices) }
        ensures err { IfErr result (λ came. came ≡ Outcome.Memory) }
    {
        match World::new(alloc, hasher, devices) {
            Ok(world) => Ok(Player {
                world,
                devices,
                shown: [false; 8],
            }),
            Err(_) => Err(Outcome::Memory),
        }
    }

    /// Does what a line says.
    pub(crate) fn act(&mut self, action: &Action) -> Result<(), StepFault>
        requires { self.old.devices ≤ MAX_DEVICES }
        ensures { AnswersAction action.now self.old self.new result }
    {
        match action {
            Action::Step(step) => self.step(step),
            Action::Show(device) => self.show(*device),
        }
    }

    // Makes a step.
    fn step(&mut self, step: &WorldStep) -> Result<(), StepFault>
        ensures { AnswersAction (Action.Step step.now) self.old self.new result }
    {
        self.world.step(step)
    }

    // Marks a device.
    fn show(&mut self, device: u8) -> Result<(), StepFault>
        requires { self.old.devices ≤ MAX_DEVICES }
        ensures { AnswersAction (Action.Show device) self.old self.new result }
    {
        if device >= self.devices {
            return Err(StepFault::Refused);
        }
        self.shown[device as usize] = true;
        Ok(())
    }

    /// Prints what each device holds: the lines that the journals of the devices make.
    pub(crate) fn print<W: Sink>(&self, alloc: Global, out: &mut W) -> Result<(), Outcome>
        ensures { PrintsWorld self.now (W.tells out.old) (W.tells out.new) (came_to result) }
    {
        self.world.many_devices_stand();
        let text = self.text(alloc)?;
        match write_text(out, text.as_str()) {
            Ok(()) => Ok(()),
            Err(_) => Err(Outcome::WriteFault),
        }
    }

    // What each device holds.
    fn text(&self, alloc: Global) -> Result<String, AllocError>
        ensures { IfOk result (λ text. player_lines self.now ≡ Some (string_bytes text)) }
    {
        let mut text = String::new(alloc);
        'devices: for number in 0..self.devices {
            self.add_device(alloc, number, &mut text)?;
        }
        Ok(text)
    }

    // Adds the lines of a device. It lacks its store only behind a call that found no memory.
    fn add_device(&self, alloc: Global, number: u8, to: &mut String) -> Result<(), AllocError>
        ensures { OnOk result (AddsDevice self.now number (string_bytes to.old)
            (string_bytes to.new)) }
    {
        match self.store(number) {
            Some(store) => add_lines(alloc, number, self.is_shown(number), store, to),
            None => Err(AllocError),
        }
    }

    fn store(&self, number: u8) -> Option<&Store>
        ensures { IfSome result (λ store. facts_of (slice_get self.now.world.devices.items number)
            ≡ Some store.now.state.facts) }
    {
        match self.world.devices().get(number as usize) {
            Some(device) => device.store(),
            None => None,
        }
    }

    fn is_shown(&self, number: u8) -> bool
        ensures { result ≡ is_marked (slice_get self.now.shown number) }
    {
        match self.shown.get(number as usize) {
            Some(shown) => *shown,
            None => false,
        }
    }
}

// Adds the lines of a device with this store.
fn add_lines(
    alloc: Global,
    number: u8,
    is_shown: bool,
    store: &Store,
    to: &mut String,
) -> Result<(), AllocError>
    ensures { OnOk result (string_bytes to.new ≡ string_bytes to.old ++ device_lines number is_shown
        store.now.state.facts) }
{
    add_line(number, store, to)?;
    if is_shown {
        add_listing(alloc, store, Listing::Store, to)?;
    }
    Ok(())
}

// Adds the line of a device with this store.
fn add_line(number: u8, store: &Store, to: &mut String) -> Result<(), AllocError>
    ensures { OnOk result (string_bytes to.new ≡ string_bytes to.old ++ device_line number
        store.now.state.facts) }
{
    let states = states_of(store);
    device_line(
        number,
        store.held(),
        states.delivered,
        states.invalid,
        states.pending,
        states.unknown,
        to,
    )
}

// How many messages of a store are in each state.
fn states_of(store: &Store) -> States
    ensures { HasCounted store.now.state.facts store.now.state.facts.held result }
{
    let mut states = States {
        delivered: 0,
        invalid: 0,
        pending: 0,
        unknown: 0,
    };
    'messages: for n in 0..store.held() {
        states.count(store.fate(n));
    }
    states
}

impl States {
    // One more message is in this state.
    fn count(&mut self, fate: Fate)
        requires { total_of self.old + 1 < 2 ^ 32 }
        ensures counted { CountsOne fate self.old self.new }
        ensures total { total_of self.new ≡ total_of self.old + 1 }
    {
        match fate {
            Fate::Delivered => self.delivered += 1,
            Fate::Invalid => self.invalid += 1,
            Fate::Pending => self.pending += 1,
            Fate::Unknown => self.unknown += 1,
        }
    }
}
