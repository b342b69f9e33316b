//! The device and its calls.
ghost use Rattle.std.specs.Prelude.{◌≡◌, ◌+◌, ◌≤◌, ℕ, [], false, true, is_some, IfOk, IsErrOf};
ghost use Rattle.std.specs.Prelude.{◌⊎◌, MatchOption, MatchResult};
ghost use Rattle.std.specs.Prelude.{None, OnErr, OnOk, option_copied, option_map};
ghost use Rattle.outside.specs.HostTold.{host_told};
ghost use Rattle.sync_rules.specs.Legal.{suits_nonce};
ghost use Rattle.sync_rules.specs.declared.entries.Entry.TheVariants as entry_kind;
ghost use Rattle.sync_rules.specs.Facts.{Journal};
ghost use Rattle.world_devices.specs.Devices.{IsAnew, IsReadyStore};
ghost use Rattle.world_devices.specs.Devices.{MayAddEntry, links_made};
ghost use Rattle.world_devices.specs.Keeping.{StandsLegal};
ghost use Rattle.world_devices.specs.Linking.{DeviceLinksStand, IsNewDevice, IsUnlinked};
ghost use Rattle.world_devices.specs.Linking.{new_journal};
ghost use Rattle.world_devices.specs.Linking.{WhenDone};
ghost use Rattle.world_devices.specs.Linking.{KeepsLinks, LinksBy, LinksByAttach, LinksByPlan};
ghost use Rattle.world_devices.specs.Linking.{LinksByTurn, is_link_asked, end_at, is_shut};
ghost use Rattle.world_devices.specs.Refusals.{IsNotRefused, RefusedBy, refuses_group};
ghost use Rattle.world_devices.specs.Refusals.{refuses_level, refuses_link};
ghost use Rattle.world_devices.specs.Refusals.{refuses_message};
ghost use Rattle.world_devices.specs.Brought.{IsSilent, sent_by_host};
ghost use Rattle.world_devices.specs.Running.{DeviceRuns, HoldsAfterCrash, IsStill};
ghost use Rattle.world_devices.specs.Doing.{DeviceAddsEntry, DeviceBeginsSession, FallsAtStop, ComesOf, CrashesTo};
ghost use Rattle.world_devices.specs.Doing.{IsAhead, KeepsOwn, load_calls};
ghost use Rattle.world_devices.specs.Doing.{KeepsRest, DeviceRestarts};
ghost use Rattle.world_devices.specs.Doing.{Settles, SettlesFrom, DeviceMakesTurn, clocked, stopped};
ghost use Rattle.world_devices.specs.Doing.{StartCut, with_plan, with_stop};
ghost use Rattle.outside.specs.Script.{planned_of};

use crate::starting::{StartFault, begin, cite_laws, open_store};
use crate::stop::{Ran, StepFault, Stop};
use client_basic::Bundle;
use outside::{Answer, LINKS, MemHost, Pick};
use std::alloc::{AllocError, Global};
use std::hash::RandomState;
use std::marker::Model;
use sync_ids::{GroupDef, GroupId, Message, Nonce};
use sync_node::{LinkEnd, Node, NodeFault, Plan, Turned};
use sync_rules::{Batch, Entry, Level, View};
use sync_store::{PostFault, Store};

/// A device of a world: a host in memory and the node that runs on it.
#[derive(Drop)]
pub struct Device {
    alloc: Global,
    hasher: RandomState,
    host: MemHost,
    node: Option<Node>,
    links: u8,
    clock: u64,
    stop: Option<Stop>,
}

impl Model for Device {
    ghost use Rattle.world_devices.specs.Devices.{DeviceValue, device_code};

    ghost Value = { DeviceValue };

    ghost coded = { device_code };

    ghost use Rattle.world_devices.specs.Devices.{IsDevice};

    ghost view = { λ d. record {
      host = d.host;
      node = d.node;
      links = d.links;
      clock = d.clock;
      stop = d.stop;
    } };

    ghost invariant = { λ d. IsDevice d.node d.host d.links };
}

impl Device {
    /// A device with an empty store, so many contacts, and this time in milliseconds.
    ///
    /// # Errors
    /// `Memory` for want of memory.
    pub fn new(
        alloc: Global,
        hasher: RandomState,
        contacts: u8,
        clock: u64,
    ) -> Result<Device, StepFault>
        ensures { IfOk result (IsNewDevice contacts clock) }
    {
        let Ok(host) = begin(alloc) else {
            return Err(StepFault::Memory);
        };
        let mut device = Device {
            alloc,
            hasher,
            host,
            node: None,
            links: 0,
            clock,
            stop: None,
        };
        let Ok(()) = device.start() else {
            return Err(StepFault::Memory);
        };
        'contacts: for _added in 0..contacts {
            match device.add_contact()? {
                Ran::Done => {}
                // No stop is armed, so none falls.
                Ran::Crashed => return Err(StepFault::Memory),
            }
        }
        device.links_stand();
        Ok(device)
    }

    /// Its store; `None` only after a call of it failed.
    pub fn store(&self) -> Option<&Store>
        ensures { option_copied result ≡ option_map (λ n. n.store) self.now.node }
    {
        match &self.node {
            Some(node) => Some(node.store()),
            None => None,
        }
    }

    /// Whatever a crash leaves of its files now stands for a legal journal. It does nothing.
    pub fn files_stand(&self)
        ensures { StandsLegal (host_told self.now.host) }
    {
        cite_laws();
        let _links = self.links;
    }

    /// Where it runs: its store has the facts of the journal that its files hold; the session of
    /// each of its links is in that journal, and on each link that is not closed on this side all
    /// output of the session was sent; a link that it has not had brings nothing. It does nothing.
    pub fn links_stand(&self)
        ensures { DeviceLinksStand self.now }
    {
        cite_laws();
        let _links = self.links;
    }

    // Its store where it runs; its journal is settled, as it is between any two calls.
    fn ready(&self) -> Option<&Store>
        ensures { MatchOption result (Unit {0}) (λ store. IsReadyStore self.now.node store.now) }
    {
        match &self.node {
            Some(node) if node.store().state().is_settled() => Some(node.store()),
            _ => None,
        }
    }

    /// The number of links that it has had since it was started.
    pub fn links(&self) -> u8
        ensures { result ≡ self.now.links }
    {
        self.links
    }

    /// Its time, in milliseconds, until it is set anew.
    pub fn set_clock(&mut self, at: u64) -> Result<(), AllocError>
        ensures runs { DeviceRuns self.old self.new }
        ensures links { KeepsLinks self.old self.new }
        ensures node { self.new.node ≡ self.old.node }
        ensures clock { OnOk result (self.new.clock ≡ at) }
        ensures files { (host_told self.new.host).files ≡ (host_told self.old.host).files }
        ensures set { OnOk result (self.new ≡ clocked at self.old) }
        ensures same { OnErr result (self.new ≡ self.old) }
    {
        self.host.set_clock(at)?;
        self.clock = at;
        Ok(())
    }

    /// The call of its disk of this number from now on, counted from 0, fails; it then crashes to
    /// this image. That takes the place of an earlier stop.
    ///
    /// # Errors
    /// For want of memory: then no stop is left.
    pub fn stop_at(&mut self, calls: u64, pick: Pick) -> Result<(), AllocError>
        ensures runs { DeviceRuns self.old self.new }
        ensures links { KeepsLinks self.old self.new }
        ensures node { self.new.node ≡ self.old.node }
        ensures files { (host_told self.new.host).files ≡ (host_told self.old.host).files }
        ensures armed { OnOk result (self.new ≡ stopped calls pick self.old) }
        ensures disarmed { OnErr result (self.new ≡ with_stop None self.old) }
    {
        self.host.fail_none();
        self.stop = None;
        if let Some(call) = self.host.disk().calls().checked_add(calls) {
            self.host.fail_at(call)?;
            self.stop = Some(Stop { call, pick });
        }
        Ok(())
    }

    /// It is started again over its files.
    pub fn restart(&mut self) -> Result<(), StepFault>
        ensures runs { DeviceRuns self.old self.new }
        ensures running { OnOk result (is_some self.new.node ≡ true) }
        ensures links { OnOk result (IsUnlinked self.new) }
        ensures unrefused { IsNotRefused result }
        ensures restarts { DeviceRestarts result self.old self.new }
    {
        cite_laws();
        self.node = None;
        self.host.restart()?;
        match self.start() {
            Ok(()) => self.finish(()),
            Err(StartFault::DiskFault) => self.break_off(),
            Err(StartFault::Memory) => Err(StepFault::Memory),
        }
    }

    // Loads the store and sets a node on it, and dials all links that it may get: sessions take
    // them in order.
    fn start(&mut self) -> Result<(), StartFault>
        requires links { links_made self.old.host ≡ 0 }
        requires silent { IsSilent self.old.host }
        ensures starts { Settles load_calls self.old.host self.new.host }
        ensures cut { IsErrOf result StartFault.DiskFault → StartCut self.old.host self.new.host }
        ensures still { is_some self.new.node ≡ true → IsStill self.new.host }
        ensures links { OnOk result (IsUnlinked self.new) }
        ensures idle { OnErr result (self.new.node ≡ None) }
        ensures clock { self.new.clock ≡ self.old.clock }
        ensures stop { self.new.stop ≡ self.old.stop }
        ensures loads { (j : Journal) → HoldsAfterCrash j self.old.host
            → OnOk result (SettlesFrom j self.new.host) }
        ensures anew { OnOk result (IsAnew self.new.clock self.new.host) }
    {
        self.node = None;
        self.links = 0;
        let store = open_store(self.alloc, self.hasher, &mut self.host, self.clock)?;
        self.node = Some(Node::new(self.alloc, store)?);
        Ok(())
    }

    // A call on the disk failed: it stopped there, or there was no memory for that call. A stop
    // falls at the last call that was made, since whoever meets a failing call makes no other.
    fn break_off(&mut self) -> Result<(), StepFault>
        requires { self.old.node ≡ None }
        ensures still { is_some self.new.node ≡ true → IsStill self.new.host }
        ensures clock { self.new.clock ≡ self.old.clock }
        ensures to { MatchResult result (λ _. FallsAtStop self.old.stop self.old.host self.new)
            (λ e. e ≡ StepFault.Memory) }
        ensures left { ComesOf self.old.host self.new.host }
    {
        let made = self.host.disk().calls();
        match self.stop {
            Some(stop) if stop.call < made && made - stop.call == 1 => self.crash(stop.pick),
            _ => Err(StepFault::Memory),
        }
    }

    // It begins anew over this image of its files.
    fn crash(&mut self, pick: Pick) -> Result<(), StepFault>
        ensures still { is_some self.new.node ≡ true → IsStill self.new.host }
        ensures clock { self.new.clock ≡ self.old.clock }
        ensures to { MatchResult result (λ _. CrashesTo pick self.old.host self.new)
            (λ e. e ≡ StepFault.Memory) }
        ensures left { ComesOf self.old.host self.new.host }
    {
        self.node = None;
        self.stop = None;
        self.host.crash(pick)?;
        match self.start() {
            Ok(()) => Ok(()),
            Err(_) => Err(StepFault::Memory),
        }
    }

    // A call of its node failed: where its disk stopped it crashes, and answers this.
    fn fail<T: Copy>(&mut self, fault: NodeFault, crashed: T) -> Result<T, StepFault>
        requires { self.old.node ≡ None }
        ensures still { is_some self.new.node ≡ true → IsStill self.new.host }
        ensures clock { self.new.clock ≡ self.old.clock }
        ensures to { MatchResult result
            (λ a. (a ≡ crashed) × ((fault ≡ NodeFault.DiskFault)
            × FallsAtStop self.old.stop self.old.host self.new))
            (λ e. (e ≡ StepFault.Memory) ⊎ ((e ≡ StepFault.Full)
            × ((fault ≡ NodeFault.Full) × (self.new.host ≡ self.old.host)))) }
        ensures left { ComesOf self.old.host self.new.host }
    {
        match fault {
            NodeFault::DiskFault => {
                self.break_off()?;
                Ok(crashed)
            }
            NodeFault::Full => Err(StepFault::Full),
            NodeFault::Memory | NodeFault::Closed => Err(StepFault::Memory),
        }
    }

    // A call of its node was done: it answers this, where each call on its links and its clock
    // found memory, and the call at which its disk is to stop was not made.
    fn finish<T: Copy>(&self, done: T) -> Result<T, StepFault>
        ensures { MatchResult result (λ a. (a ≡ done) × IsAhead self.now.stop self.now.host)
            (λ e. e ≡ StepFault.Memory) }
    {
        if self.host.starved() > 0 || self.is_passed() {
            Err(StepFault::Memory)
        } else {
            Ok(done)
        }
    }

    // Whether the call was made at which its disk is to stop.
    fn is_passed(&self) -> bool
        ensures { result ≡ false → IsAhead self.now.stop self.now.host }
    {
        match self.stop {
            Some(stop) => stop.call < self.host.disk().calls(),
            None => false,
        }
    }
}

// The commands of a device.
impl Device {
    // Adds the next contact.
    fn add_contact(&mut self) -> Result<Ran, StepFault>
        ensures links { LinksBy result self.old self.new }
        ensures journal { (contacts : ℕ) → HoldsAfterCrash (new_journal contacts) self.old.host
            → WhenDone result (HoldsAfterCrash (new_journal (contacts + 1)) self.new.host) }
        ensures rest { WhenDone result (KeepsOwn self.old self.new × KeepsRest self.old self.new) }
    {
        self.links_stand();
        let Some(store) = self.ready() else {
            return Err(StepFault::Memory);
        };
        match store.may_contact() {
            Ok(number) => self.add(Entry::Contact(number)),
            Err(_) => Err(StepFault::Refused),
        }
    }

    /// Adds a group.
    pub fn add_group(&mut self, def: GroupDef) -> Result<Ran, StepFault>
        ensures runs { DeviceRuns self.old self.new }
        ensures running { OnOk result (is_some self.new.node ≡ true) }
        ensures links { LinksBy result self.old self.new }
        ensures refused { RefusedBy (refuses_group self.old.node def) result }
        ensures same { IsErrOf result StepFault.Refused → self.new ≡ self.old }
        ensures adds { DeviceAddsEntry (entry_kind.Group def) result self.old self.new }
    {
        let Some(store) = self.ready() else {
            return Err(StepFault::Memory);
        };
        match store.may_group(&Bundle::new(), &def) {
            Ok(_) => self.add(Entry::Group(def)),
            Err(_) => Err(StepFault::Refused),
        }
    }

    /// Sets the level of a group for a contact.
    pub fn set_level(
        &mut self,
        contact: u8,
        group: &GroupId,
        level: Level,
    ) -> Result<Ran, StepFault>
        ensures runs { DeviceRuns self.old self.new }
        ensures running { OnOk result (is_some self.new.node ≡ true) }
        ensures links { LinksBy result self.old self.new }
        ensures refused { RefusedBy (refuses_level self.old.node contact group.now) result }
        ensures same { IsErrOf result StepFault.Refused → self.new ≡ self.old }
        ensures adds { DeviceAddsEntry (entry_kind.Level contact group.now level) result self.old self.new }
    {
        let Some(store) = self.ready() else {
            return Err(StepFault::Memory);
        };
        match store.may_level(contact, group) {
            Ok(()) => self.add(Entry::Level(contact, *group, level)),
            Err(_) => Err(StepFault::Refused),
        }
    }

    /// Writes a message.
    pub fn author(&mut self, message: Message) -> Result<Ran, StepFault>
        ensures runs { DeviceRuns self.old self.new }
        ensures running { OnOk result (is_some self.new.node ≡ true) }
        ensures links { LinksBy result self.old self.new }
        ensures refused { RefusedBy (refuses_message self.old.node message) result }
        ensures same { IsErrOf result StepFault.Refused → self.new ≡ self.old }
        ensures adds { DeviceAddsEntry (entry_kind.Author message) result self.old self.new }
    {
        let Some(store) = self.ready() else {
            return Err(StepFault::Memory);
        };
        match store.may_post(&Bundle::new(), &message) {
            Ok(_) => self.add(Entry::Author(message)),
            Err(PostFault::Memory) => Err(StepFault::Memory),
            Err(PostFault::Refused(_)) => Err(StepFault::Refused),
        }
    }

    // Commits an entry and settles.
    fn add(&mut self, entry: Entry) -> Result<Ran, StepFault>
        requires { MayAddEntry self.old.node entry }
        ensures runs { DeviceRuns self.old self.new }
        ensures running { OnOk result (is_some self.new.node ≡ true) }
        ensures links { LinksBy result self.old self.new }
        ensures unrefused { IsNotRefused result }
        ensures adds { DeviceAddsEntry entry result self.old self.new }
    {
        cite_laws();
        let batch = Batch::single(self.alloc, entry)?;
        let Some(node) = &mut self.node else {
            return Err(StepFault::Memory);
        };
        match node.add(&mut self.host, &Bundle::new(), batch) {
            Ok(()) => self.finish(Ran::Done),
            Err(fault) => {
                self.node = None;
                self.fail(fault, Ran::Crashed)
            }
        }
    }
}

// The links of a device.
impl Device {
    /// Begins a session on its next link. Answers the number of that session, or nothing where the
    /// device crashed.
    pub fn attach(&mut self, plan: &Plan, nonce: Option<Nonce>) -> Result<Option<u32>, StepFault>
        requires latency { 1 ≤ plan.now.latency }
        requires nonce { suits_nonce plan.now.mode nonce ≡ true }
        ensures runs { DeviceRuns self.old self.new }
        ensures running { OnOk result (is_some self.new.node ≡ true) }
        ensures links { LinksByAttach plan.now.contact result self.old self.new }
        ensures refused { RefusedBy (refuses_link self.old.node self.old.links
            plan.now.contact) result }
        ensures same { IsErrOf result StepFault.Refused → self.new ≡ self.old }
        ensures attaches { DeviceBeginsSession plan.now nonce result self.old self.new }
    {
        let Some(store) = self.ready() else {
            return Err(StepFault::Memory);
        };
        if self.links as usize >= LINKS || u32::from(plan.contact) >= store.contacts() {
            return Err(StepFault::Refused);
        }
        cite_laws();
        let session = store.sessions();
        // Its end bounds how many sessions have begun.
        let _end = store.end();
        let Some(node) = &mut self.node else {
            return Err(StepFault::Memory);
        };
        match node.attach(&mut self.host, &Bundle::new(), self.links, plan, nonce) {
            Ok(()) => {
                self.links += 1;
                self.finish(Some(session))
            }
            Err(fault) => {
                self.node = None;
                self.fail(fault, None)
            }
        }
    }

    /// Whether a link is still asked.
    pub fn is_asked(&self, link: u8) -> bool
        ensures { result ≡ is_link_asked (end_at self.now link) }
    {
        match &self.node {
            Some(node) if link < self.links => node.ending(link) == LinkEnd::Going,
            _ => false,
        }
    }

    /// Whether a link was closed on this side.
    pub fn is_closed(&self, link: u8) -> bool
        ensures { result ≡ is_shut (end_at self.now link) }
    {
        match &self.node {
            Some(node) if link < self.links => {
                !matches!(node.ending(link), LinkEnd::Going | LinkEnd::Clean)
            }
            _ => false,
        }
    }

    /// Plans what a link is to answer next. A link that it has not had is left.
    pub fn plan(&mut self, link: u8, answer: Answer) -> Result<(), AllocError>
        ensures runs { DeviceRuns self.old self.new }
        ensures links { LinksByPlan link answer result self.old self.new }
        ensures files { (host_told self.new.host).files ≡ (host_told self.old.host).files }
        ensures planned { OnOk result (self.new ≡ with_plan link (planned_of answer) self.old) }
        ensures same { OnErr result (self.new ≡ self.old) }
    {
        if link < self.links {
            self.host.script(link, answer)?;
        }
        Ok(())
    }

    /// The bytes that were sent on a link since the device was started.
    pub fn sent(&self, link: u8) -> &[u8]
        ensures { result.now ≡ sent_by_host self.now.host link }
    {
        self.host.sent(link)
    }

    /// Makes a turn. Answers whether all links were still, or nothing where the device crashed.
    pub fn turn(&mut self) -> Result<Option<bool>, StepFault>
        ensures runs { DeviceRuns self.old self.new }
        ensures running { OnOk result (is_some self.new.node ≡ true) }
        ensures links { LinksByTurn result self.old self.new }
        ensures unrefused { IsNotRefused result }
        ensures turns { DeviceMakesTurn result self.old self.new }
    {
        cite_laws();
        let Some(node) = &mut self.node else {
            return Err(StepFault::Memory);
        };
        match node.turn(&mut self.host, &Bundle::new()) {
            Ok(turned) => self.finish(Some(turned == Turned::Still)),
            Err(fault) => {
                self.node = None;
                self.fail(fault, None)
            }
        }
    }
}
