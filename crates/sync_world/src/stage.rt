//! The devices of a world and the links between them, and what steps do to these.
ghost use Rattle.std.specs.Prelude.{◌≡◌, ◌≢◌, ◌<◌, ◌≤◌, ℕ, true, Err, IfOk, IsErrOf, None};
ghost use Rattle.std.specs.Prelude.{OnOk, Some};
ghost use Rattle.std.specs.Prelude.{is_none, length, map, slice_get};
ghost use Rattle.std.specs.List.{list_any};
ghost use Rattle.sync_world.specs.Beginning.{IsNewStage};
ghost use Rattle.sync_world.specs.Shown.{link_arrived};
ghost use Rattle.sync_world.specs.Turning.{is_moving};
ghost use Rattle.sync_world.specs.Staging.{HasFreshEnd, IsCallMade, after_ran, attached_at, begun_with};
ghost use Rattle.world_laws.specs.Worlds as W;
ghost use Rattle.sync_world.specs.Standing.{LeadsFromShown, IsWorld, is_fatal};
ghost use Rattle.sync_rules.specs.Legal.{suits_nonce};
ghost use Rattle.sync_world.specs.Moving.{BecomesOne, fault_after, link_cut, link_moved};
ghost use Rattle.sync_world.specs.Doing.{DoesBy, LinkBecomes, ground_of};
ghost use Rattle.sync_world.specs.Parts.{AttachesBy, DialsBy, RoundBy, TurnsBy, TurnsLinkedBy};
ghost use Rattle.sync_world.specs.Leaving.{IsSame};
ghost use Rattle.sync_world.specs.Naming.{IsMade};
ghost use Rattle.sync_world.specs.Posting.{message_for};
ghost use Rattle.sync_world.specs.Refusing.{KnowContacts, has_links, has_room, refuses};
ghost use Rattle.sync_world.specs.Refusing.{refuses_to_attach};
ghost use Rattle.world_devices.specs.Refusals.{IsNotRefused, RefusedBy};
ghost use Rattle.world_devices.specs.declared.stop.StepFault.{StepFault};

use crate::laws::cite_laws;
use crate::naming::{contact_for, group_def, nonce_for};
use crate::posting::{body_of, ids_of};
use crate::turning::{carry_all, leave_all, look_all, plan_all};
use outside::{LINKS, Pick};
use std::alloc::{AllocError, Global};
use std::hash::RandomState;
use sync_ids::{Message, MessageId, Nonce, group_id};
use sync_node::Plan;
use sync_rules::{Level, Mode, id_of};
use world_devices::{Device, Ran, StepFault};
use world_links::{Link, Move, Side};
use world_scripts::{
    GroupLabels, Labels, MAX_DEVICES, MAX_ROUNDS, WorldStep, are_made, suits_kind,
};

// The time at which a world begins, in milliseconds.
const FIRST_CLOCK: u64 = 1_000;

/// Several devices and the links between them. Each device has a contact for each other one.
#[derive(Drop)]
pub struct Stage {
    pub(crate) alloc: Global,
    pub(crate) devices: Vec<Device>,
    pub(crate) links: Vec<Link>,
    pub(crate) groups: GroupLabels,
    pub(crate) posts: Vec<MessageId>,
    pub(crate) fault: Option<StepFault>,
}

// What became of a round.
#[derive(Clone, Copy, Debug, PartialEq, Eq)]
enum Round {
    // Something came, was sent or was carried.
    Moving,
    // Nothing was.
    Still,
    // A disk stopped in it.
    Crashed,
}

impl Stage {
    /// A world of so many devices, with empty stores and no links.
    ///
    /// # Errors
    /// `Memory` for want of memory.
    pub fn new(alloc: Global, hasher: RandomState, devices: u8) -> Result<Stage, StepFault>
        requires least { 2 ≤ devices }
        requires most { devices ≤ 8 }
        ensures new { IfOk result (IsNewStage devices) }
        ensures world { IfOk result IsWorld }
    {
        let mut all = Vec::new(alloc);
        'devices: for _device in 0..devices {
            all.push(Device::new(alloc, hasher, devices - 1, FIRST_CLOCK)?)?;
        }
        Ok(Stage {
            alloc,
            devices: all,
            links: Vec::new(alloc),
            groups: GroupLabels::new(alloc),
            posts: Vec::new(alloc),
            fault: None,
        })
    }

    /// Makes a step. After `Refused` the world is as before; after `Memory` or `Full` it answers
    /// that fault for good.
    pub fn step(&mut self, step: &WorldStep) -> Result<(), StepFault>
        ensures goes { self.old.fault ≡ None → LeadsFromShown (is_fatal result) self.old self.new }
        ensures for_good { (fault : StepFault) → self.old.fault ≡ Some fault
            → (result ≡ Err fault) × (self.new ≡ self.old) }
        ensures fault { self.old.fault ≡ None → self.new.fault ≡ fault_after result }
        ensures refused { self.old.fault ≡ None → KnowContacts self.old.devices.items
            → RefusedBy (refuses step.now self.old) result }
        ensures same { self.old.fault ≡ None → KnowContacts self.old.devices.items
            → IsErrOf result StepFault.Refused → IsSame self.old self.new }
        ensures does { self.old.fault ≡ None → DoesBy step.now result self.old self.new }
    {
        if let Some(fault) = self.fault {
            return Err(fault);
        }
        let made = self.make(step);
        match made {
            Ok(()) | Err(StepFault::Refused) => {}
            Err(fault) => self.fault = Some(fault),
        }
        made
    }

    fn make(&mut self, step: &WorldStep) -> Result<(), StepFault>
        ensures fault { self.new.fault ≡ self.old.fault }
        ensures goes { LeadsFromShown (is_fatal result) self.old self.new }
        ensures refused { KnowContacts self.old.devices.items
            → RefusedBy (refuses step.now self.old) result }
        ensures same { KnowContacts self.old.devices.items → IsErrOf result StepFault.Refused
            → IsSame self.old self.new }
        ensures does { DoesBy step.now result self.old self.new }
    {
        match step {
            WorldStep::Group(d, kind, descriptor) => {
                self.add_group(*d, *kind, descriptor.as_str())
            }
            WorldStep::Share(d, e, group, level) => self.share(*d, *e, *group, *level),
            WorldStep::Post(d, group, time, parents, text) => {
                self.post(*d, *group, *time, parents, text.as_slice())
            }
            WorldStep::Link(d, e, mode, latency) => self.link(*d, *e, *mode, *latency),
            WorldStep::Turn(d) => self.turn_once(*d),
            WorldStep::Carry(link, d) => self.move_first(*link, *d, Move::Carry),
            WorldStep::Lose(link, d) => self.move_first(*link, *d, Move::Lose),
            WorldStep::Repeat(link, d) => self.move_first(*link, *d, Move::Repeat),
            WorldStep::Swap(link, d) => self.move_first(*link, *d, Move::Swap),
            WorldStep::Cut(link) => self.cut(*link),
            WorldStep::Clock(at) => self.set_clock(*at),
            WorldStep::Stop(d, calls, pick) => self.stop(*d, *calls, *pick),
            WorldStep::Restart(d) => self.restart(*d),
            WorldStep::Rest(rounds) => self.rest(*rounds),
        }
    }
}

// What devices do by themselves.
impl Stage {
    fn add_group(&mut self, d: u8, kind: u8, descriptor: &str) -> Result<(), StepFault>
        ensures fault { self.new.fault ≡ self.old.fault }
        ensures goes { LeadsFromShown (is_fatal result) self.old self.new }
        ensures refused { RefusedBy (refuses (WorldStep.Group d kind descriptor.now) self.old)
            result }
        ensures same { IsErrOf result StepFault.Refused → IsSame self.old self.new }
        ensures does { DoesBy (WorldStep.Group d kind descriptor.now) result self.old self.new }
    {
        cite_laws();
        let def = group_def(self.alloc, kind, descriptor)?;
        if d as usize >= self.devices.len() {
            return Err(StepFault::Refused);
        }
        let device = &mut self.devices[d as usize];
        let ran = device.add_group(def)?;
        self.groups.label(self.alloc, kind, descriptor)?;
        self.came(d, ran);
        Ok(())
    }

    fn share(&mut self, d: u8, e: u8, group: u64, level: Level) -> Result<(), StepFault>
        ensures fault { self.new.fault ≡ self.old.fault }
        ensures goes { LeadsFromShown (is_fatal result) self.old self.new }
        ensures refused { KnowContacts self.old.devices.items
            → RefusedBy (refuses (WorldStep.Share d e group level) self.old) result }
        ensures same { KnowContacts self.old.devices.items → IsErrOf result StepFault.Refused
            → IsSame self.old self.new }
        ensures does { DoesBy (WorldStep.Share d e group level) result self.old self.new }
    {
        cite_laws();
        if d == e || e as usize >= self.devices.len() {
            return Err(StepFault::Refused);
        }
        let Some((kind, descriptor)) = self.groups.get(group) else {
            return Err(StepFault::Refused);
        };
        let id = group_id(&group_def(self.alloc, kind, descriptor)?);
        if d as usize >= self.devices.len() {
            return Err(StepFault::Refused);
        }
        let device = &mut self.devices[d as usize];
        let ran = device.set_level(contact_for(d, e), &id, level)?;
        self.came(d, ran);
        Ok(())
    }

    fn post(
        &mut self,
        d: u8,
        group: u64,
        time: u64,
        parents: &Labels,
        text: &[u8],
    ) -> Result<(), StepFault>
        ensures fault { self.new.fault ≡ self.old.fault }
        ensures goes { LeadsFromShown (is_fatal result) self.old self.new }
        ensures refused { RefusedBy (refuses (WorldStep.Post d group time parents.now text.now)
            self.old) result }
        ensures same { IsErrOf result StepFault.Refused → IsSame self.old self.new }
        ensures does { DoesBy (WorldStep.Post d group time parents.now text.now) result self.old
            self.new }
    {
        cite_laws();
        let message = self.message_of(group, time, parents, text)?;
        let id = id_of(&message);
        self.posts.reserve(1)?;
        if d as usize >= self.devices.len() {
            return Err(StepFault::Refused);
        }
        let device = &mut self.devices[d as usize];
        let ran = device.author(message)?;
        self.posts.push(id)?;
        self.came(d, ran);
        Ok(())
    }

    // The message of a post; it is refused where the labels do not suit it.
    fn message_of(
        &self,
        group: u64,
        time: u64,
        parents: &Labels,
        text: &[u8],
    ) -> Result<Message, StepFault>
        ensures { IsMade (message_for self.now.groups self.now.posts.items group time parents.now
            text.now) result }
    {
        let Some((kind, descriptor)) = self.groups.get(group) else {
            return Err(StepFault::Refused);
        };
        let posts = self.posts.as_slice();
        if text.is_empty() || !are_made(parents, posts.len() as u64) || !suits_kind(kind, parents) {
            return Err(StepFault::Refused);
        }
        let id = group_id(&group_def(self.alloc, kind, descriptor)?);
        let ids = ids_of(self.alloc, posts, parents.as_slice())?;
        let body = body_of(self.alloc, kind, ids.as_slice(), text)?;
        match Message::new(id, time, body) {
            Ok(message) => Ok(message),
            Err(_) => Err(StepFault::Refused),
        }
    }

    fn set_clock(&mut self, at: u64) -> Result<(), StepFault>
        ensures fault { self.new.fault ≡ self.old.fault }
        ensures goes { LeadsFromShown (is_fatal result) self.old self.new }
        ensures refused { RefusedBy (refuses (WorldStep.Clock at) self.old) result }
        ensures same { IsErrOf result StepFault.Refused → IsSame self.old self.new }
        ensures does { DoesBy (WorldStep.Clock at) result self.old self.new }
    {
        cite_laws();
        'devices: for d in 0..self.devices.len() {
            let device = &mut self.devices[d];
            device.set_clock(at)?;
        }
        Ok(())
    }

    fn stop(&mut self, d: u8, calls: u64, pick: Pick) -> Result<(), StepFault>
        ensures fault { self.new.fault ≡ self.old.fault }
        ensures goes { LeadsFromShown (is_fatal result) self.old self.new }
        ensures refused { RefusedBy (refuses (WorldStep.Stop d calls pick) self.old) result }
        ensures same { IsErrOf result StepFault.Refused → IsSame self.old self.new }
        ensures does { DoesBy (WorldStep.Stop d calls pick) result self.old self.new }
    {
        cite_laws();
        if d as usize >= self.devices.len() {
            return Err(StepFault::Refused);
        }
        let device = &mut self.devices[d as usize];
        device.stop_at(calls, pick)?;
        Ok(())
    }

    fn restart(&mut self, d: u8) -> Result<(), StepFault>
        ensures fault { self.new.fault ≡ self.old.fault }
        ensures goes { LeadsFromShown (is_fatal result) self.old self.new }
        ensures refused { RefusedBy (refuses (WorldStep.Restart d) self.old) result }
        ensures same { IsErrOf result StepFault.Refused → IsSame self.old self.new }
        ensures does { DoesBy (WorldStep.Restart d) result self.old self.new }
    {
        cite_laws();
        if d as usize >= self.devices.len() {
            return Err(StepFault::Refused);
        }
        let device = &mut self.devices[d as usize];
        device.restart()?;
        self.came(d, Ran::Crashed);
        Ok(())
    }

    // What came of a call of a device: where it crashed it has its links no more.
    fn came(&mut self, d: u8, ran: Ran)
        ensures links { self.new.links.items ≡ after_ran ran d self.old.links.items }
        ensures devices { self.new.devices.items ≡ self.old.devices.items }
        ensures fault { self.new.fault ≡ self.old.fault }
        ensures groups { self.new.groups ≡ self.old.groups }
        ensures posts { self.new.posts.items ≡ self.old.posts.items }
    {
        match ran {
            Ran::Done => {}
            Ran::Crashed => leave_all(d, self.links.as_mut_slice()),
        }
    }
}

// What goes over links.
impl Stage {
    fn link(&mut self, d: u8, e: u8, mode: Mode, latency: u32) -> Result<(), StepFault>
        ensures fault { self.new.fault ≡ self.old.fault }
        ensures goes { LeadsFromShown (is_fatal result) self.old self.new }
        ensures refused { KnowContacts self.old.devices.items
            → RefusedBy (refuses (WorldStep.Link d e mode latency) self.old) result }
        ensures same { KnowContacts self.old.devices.items → IsErrOf result StepFault.Refused
            → IsSame self.old self.new }
        ensures does { DoesBy (WorldStep.Link d e mode latency) result self.old self.new }
    {
        cite_laws();
        if d == e || latency == 0 || !self.has_room(d) || !self.has_room(e) {
            return Err(StepFault::Refused);
        }
        let link = self.dial(d, e)?;
        let near = plan_for(d, e, mode, latency);
        match self.attach(d, link, &near, nonce_for(mode, link))? {
            Ran::Crashed => return Ok(()),
            Ran::Done => {}
        }
        let far = plan_for(e, d, mode, latency);
        self.attach(e, link, &far, None)?;
        Ok(())
    }

    // A link more, between two devices. Answers its number.
    fn dial(&mut self, d: u8, e: u8) -> Result<usize, StepFault>
        requires two { d ≢ e }
        requires near { d < length self.old.devices.items }
        requires far { e < length self.old.devices.items }
        ensures fault { self.new.fault ≡ self.old.fault }
        ensures goes { LeadsFromShown (is_fatal result) self.old self.new }
        ensures fresh { IfOk result (λ link. HasFreshEnd d e link self.new.links.items) }
        ensures other { IfOk result (λ link. HasFreshEnd e d link self.new.links.items) }
        ensures devices { self.new.devices.items ≡ self.old.devices.items }
        ensures unrefused { IsNotRefused result }
        ensures dials { DialsBy d e result (ground_of self.old) (ground_of self.new) }
        ensures groups { self.new.groups ≡ self.old.groups }
        ensures posts { self.new.posts.items ≡ self.old.posts.items }
    {
        let link = self.links.len();
        self.links.push(Link::new(self.alloc, d, e))?;
        Ok(link)
    }

    // Whether a device may have a further link.
    fn has_room(&self, d: u8) -> bool
        ensures within { result ≡ true → d < length self.now.devices.items }
        ensures exact { result ≡ has_room (slice_get self.now.devices.items d) }
    {
        match self.devices.get(d as usize) {
            Some(device) => (device.links() as usize) < LINKS,
            None => false,
        }
    }

    // Whether a device has had a link since it was started.
    fn has_links(&self, d: u8) -> bool
        ensures { result ≡ has_links (slice_get self.now.devices.items d) }
    {
        match self.devices.get(d as usize) {
            Some(device) => device.links() > 0,
            None => false,
        }
    }

    // Begins a session of a device on a link, and looks at what it sent.
    fn attach(
        &mut self,
        d: u8,
        link: usize,
        plan: &Plan,
        nonce: Option<Nonce>,
    ) -> Result<Ran, StepFault>
        requires latency { 1 ≤ plan.now.latency }
        requires nonce { suits_nonce plan.now.mode nonce ≡ true }
        ensures fault { self.new.fault ≡ self.old.fault }
        ensures goes { (far : ℕ) → plan.now.contact ≡ W.contact_for d far
            → HasFreshEnd d far link self.old.links.items
            → LeadsFromShown (is_fatal result) self.old self.new }
        ensures fresh { (k far : ℕ) → k ≢ d → HasFreshEnd k far link self.old.links.items
            → IsCallMade result → HasFreshEnd k far link self.new.links.items }
        ensures devices { length self.new.devices.items ≡ length self.old.devices.items }
        ensures refused { RefusedBy (refuses_to_attach plan.now.contact
            (slice_get self.old.devices.items d)) result }
        ensures same { IsErrOf result StepFault.Refused → IsSame self.old self.new }
        ensures others { (k : ℕ) → k ≢ d
            → slice_get self.new.devices.items k ≡ slice_get self.old.devices.items k }
        ensures attaches { AttachesBy d link plan.now nonce result (ground_of self.old)
            (ground_of self.new) }
        ensures groups { self.new.groups ≡ self.old.groups }
        ensures posts { self.new.posts.items ≡ self.old.posts.items }
    {
        cite_laws();
        if d as usize >= self.devices.len() {
            return Err(StepFault::Refused);
        }
        let device = &mut self.devices[d as usize];
        let at = device.links();
        let Some(session) = device.attach(plan, nonce)? else {
            self.came(d, Ran::Crashed);
            return Ok(Ran::Crashed);
        };
        device.links_stand();
        begin_at(d, at, session, link, self.links.as_mut_slice());
        look_all(device, d, self.links.as_mut_slice())?;
        Ok(Ran::Done)
    }

    // A turn of a device.
    fn turn_once(&mut self, d: u8) -> Result<(), StepFault>
        ensures fault { self.new.fault ≡ self.old.fault }
        ensures goes { LeadsFromShown (is_fatal result) self.old self.new }
        ensures refused { RefusedBy (refuses (WorldStep.Turn d) self.old) result }
        ensures same { IsErrOf result StepFault.Refused → IsSame self.old self.new }
        ensures does { DoesBy (WorldStep.Turn d) result self.old self.new }
    {
        let _still = self.turn(d)?;
        Ok(())
    }

    // A turn of a device. Answers whether all its links were still, or nothing where it crashed.
    fn turn(&mut self, d: u8) -> Result<Option<bool>, StepFault>
        ensures fault { self.new.fault ≡ self.old.fault }
        ensures goes { LeadsFromShown (is_fatal result) self.old self.new }
        ensures refused { RefusedBy (is_none (slice_get self.old.devices.items d)) result }
        ensures same { IsErrOf result StepFault.Refused → IsSame self.old self.new }
        ensures turns { TurnsBy d result (ground_of self.old) (ground_of self.new) }
        ensures groups { self.new.groups ≡ self.old.groups }
        ensures posts { self.new.posts.items ≡ self.old.posts.items }
    {
        cite_laws();
        if d as usize >= self.devices.len() {
            return Err(StepFault::Refused);
        }
        let device = &mut self.devices[d as usize];
        plan_all(device, d, self.links.as_mut_slice())?;
        let Some(still) = device.turn()? else {
            self.came(d, Ran::Crashed);
            return Ok(None);
        };
        device.links_stand();
        look_all(device, d, self.links.as_mut_slice())?;
        Ok(Some(still))
    }

    // The first records in flight from a device move.
    fn move_first(&mut self, link: u64, d: u8, how: Move) -> Result<(), StepFault>
        ensures becomes { LinkBecomes link (link_moved how d (slice_get self.old.links.items link))
            result (ground_of self.old) (ground_of self.new) }
        ensures fault { self.new.fault ≡ self.old.fault }
        ensures goes { LeadsFromShown (is_fatal result) self.old self.new }
        ensures groups { self.new.groups ≡ self.old.groups }
        ensures posts { self.new.posts.items ≡ self.old.posts.items }
    {
        cite_laws();
        if link >= self.links.len() as u64 {
            return Err(StepFault::Refused);
        }
        move_on(&mut self.links[link as usize], d, how)
    }

    fn cut(&mut self, link: u64) -> Result<(), StepFault>
        ensures becomes { LinkBecomes link (link_cut (slice_get self.old.links.items link)) result
            (ground_of self.old) (ground_of self.new) }
        ensures fault { self.new.fault ≡ self.old.fault }
        ensures goes { LeadsFromShown (is_fatal result) self.old self.new }
        ensures groups { self.new.groups ≡ self.old.groups }
        ensures posts { self.new.posts.items ≡ self.old.posts.items }
    {
        cite_laws();
        if link >= self.links.len() as u64 {
            return Err(StepFault::Refused);
        }
        cut_link(&mut self.links[link as usize])
    }

    fn rest(&mut self, rounds: u32) -> Result<(), StepFault>
        ensures fault { self.new.fault ≡ self.old.fault }
        ensures goes { LeadsFromShown (is_fatal result) self.old self.new }
        ensures refused { RefusedBy (refuses (WorldStep.Rest rounds) self.old) result }
        ensures same { IsErrOf result StepFault.Refused → IsSame self.old self.new }
        ensures does { DoesBy (WorldStep.Rest rounds) result self.old self.new }
    {
        if rounds == 0 || u64::from(rounds) > MAX_ROUNDS {
            return Err(StepFault::Refused);
        }
        'rounds: for _round in 0..rounds {
            match self.round()? {
                Round::Moving => {}
                Round::Still | Round::Crashed => return Ok(()),
            }
        }
        Ok(())
    }

    // A turn of each device that has had a link since it was started, and then all that is in
    // flight arrives.
    fn round(&mut self) -> Result<Round, StepFault>
        ensures fault { self.new.fault ≡ self.old.fault }
        ensures goes { LeadsFromShown (is_fatal result) self.old self.new }
        ensures unrefused { IsNotRefused result }
        ensures made { RoundBy result (ground_of self.old) (ground_of self.new) }
        ensures groups { self.new.groups ≡ self.old.groups }
        ensures posts { self.new.posts.items ≡ self.old.posts.items }
    {
        cite_laws();
        let mut still = true;
        'devices: for d in 0..MAX_DEVICES as u8 {
            match self.turn_if_linked(d)? {
                Some(quiet) => still &= quiet,
                None => return Ok(Round::Crashed),
            }
        }
        let carried = self.arrive()?;
        Ok(if still && !carried {
            Round::Still
        } else {
            Round::Moving
        })
    }

    // A turn of a device that has had a link since it was started; another one is still.
    fn turn_if_linked(&mut self, d: u8) -> Result<Option<bool>, StepFault>
        ensures fault { self.new.fault ≡ self.old.fault }
        ensures goes { LeadsFromShown (is_fatal result) self.old self.new }
        ensures unrefused { IsNotRefused result }
        ensures turns { TurnsLinkedBy d result (ground_of self.old) (ground_of self.new) }
        ensures groups { self.new.groups ≡ self.old.groups }
        ensures posts { self.new.posts.items ≡ self.old.posts.items }
    {
        if !self.has_links(d) {
            return Ok(Some(true));
        }
        self.turn(d)
    }

    // All that is in flight on links arrives. Answers whether that was anything.
    fn arrive(&mut self) -> Result<bool, AllocError>
        ensures links { OnOk result (self.new.links.items ≡ map link_arrived self.old.links.items) }
        ensures devices { self.new.devices.items ≡ self.old.devices.items }
        ensures fault { self.new.fault ≡ self.old.fault }
        ensures some { IfOk result (λ some. some ≡ list_any is_moving self.old.links.items) }
        ensures groups { self.new.groups ≡ self.old.groups }
        ensures posts { self.new.posts.items ≡ self.old.posts.items }
    {
        carry_all(self.links.as_mut_slice())
    }
}

// What a device's session with another one is to be.
fn plan_for(d: u8, e: u8, mode: Mode, latency: u32) -> Plan
    requires { e ≢ d }
    ensures contact { result.contact ≡ W.contact_for d e }
    ensures mode { result.mode ≡ mode }
    ensures latency { result.latency ≡ latency }
{
    Plan {
        contact: contact_for(d, e),
        mode,
        latency,
    }
}

// A device has the link at this place under a number, and this session began on it.
fn begin_at(d: u8, at: u8, session: u32, link: usize, links: &mut [Link])
    ensures { links.new ≡ begun_with d at session link (slice_get links.old link) links.old }
{
    if link < links.len() {
        begin_on(d, at, session, &mut links[link]);
    }
}

// A device has a link under this number, and this session began on it.
fn begin_on(d: u8, at: u8, session: u32, link: &mut Link)
    ensures { link.new ≡ attached_at d at session link.old }
{
    match link.side_of(d) {
        Some(Side::Near) => link.near.attach(at, session),
        Some(Side::Far) => link.far.attach(at, session),
        None => {}
    }
}

// The first records in flight on a link from a device move.
fn move_on(link: &mut Link, d: u8, how: Move) -> Result<(), StepFault>
    ensures { BecomesOne (link_moved how d (Some link.old)) link.old link.new result }
{
    let Some(side) = link.side_of(d) else {
        return Err(StepFault::Refused);
    };
    if link.make(how, side)? {
        Ok(())
    } else {
        Err(StepFault::Refused)
    }
}

// Cuts a link that is not cut.
fn cut_link(link: &mut Link) -> Result<(), StepFault>
    ensures { BecomesOne (link_cut (Some link.old)) link.old link.new result }
{
    if link.is_cut {
        return Err(StepFault::Refused);
    }
    link.cut();
    Ok(())
}
