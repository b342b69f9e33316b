//! A host in memory.
ghost use Rattle.std.specs.Prelude.{◌≡◌, ℕ, ◌<◌, ◌≤◌, ◌/◌, [], ◌∷◌, ◌++◌, None, Some, length, take};
ghost use Rattle.std.specs.Prelude.{replicate, slice_index, slice_index_or, IfOk, OnOk, OnErr};
ghost use Rattle.std.specs.Prelude.{if◌then◌else◌, is_err, vec_len};
ghost use Rattle.std.specs.Option.{option_map, ForSome};
ghost use Rattle.outside.specs.Faults.{HasCause, one_more};
ghost use Rattle.outside.specs.Files.{file_of};
ghost use Rattle.outside.specs.Links.{ToldLink, sent_of};
ghost use Rattle.outside.specs.Outside.{DiskCall, LinkCall, QuietCall};
ghost use Rattle.outside.specs.Made.{DoesCalls};
ghost use Rattle.outside.specs.Disk.{RelatesTold, ReadsBytes, WritesFile, CutsFile, SyncsFile};
ghost use Rattle.outside.specs.Host.{DialsLink, AsksNonce, HearsAnswer, IsAnswerCaused, SendsOnLink, SendsPart};
ghost use Rattle.outside.specs.Host.{ReadsClock};
ghost use Rattle.outside.specs.Planned.{reply_to, reply_in};
ghost use Rattle.outside.specs.MemDisk.{fails_next, wrote, wrote_not, cut, cut_not, synced};
ghost use Rattle.outside.specs.MemDisk.{dialled, sent as bytes_sent, reply_of, with_call};
ghost use Rattle.outside.specs.Script.{planned_of, FitsIn};
ghost use Rattle.outside.specs.MemHost.{fresh_host, links_of, script_of, with_script};
ghost use Rattle.outside.specs.MemHost.{PlansAnswer, LeavesBehind, CrashesHost, reading_added};
ghost use Rattle.outside.specs.MemHost.{reading_set, upcoming_of, OnDisk, MakesDial, MakesNonce};
ghost use Rattle.outside.specs.MemHost.{MakesAnswer, MakesSend, MakesReading, RaisesCount};

use crate::clock::Clock;
use crate::counts::raise_at;
use crate::failing::Failing;
use crate::script::Script;
use crate::{Answer, Disk, Failed, Heard, Host, LINKS, MemDisk, Pick, Reply};
use std::alloc::{AllocError, Global};
use std::collections::VecDeque;
use std::marker::Model;

/// A disk in memory with links that answer by scripts, a clock with given readings, and given
/// nonces. Its dials and sends fail at the calls of two lists. It tells all that it is asked, and
/// what it heard.
pub struct MemHost {
    alloc: Global,
    disk: MemDisk,
    sent: Vec<Vec<u8>>,
    scripts: Vec<Script>,
    silences: [u64; LINKS],
    faults: [u64; LINKS],
    clock: Clock,
    nonces: VecDeque<[u8; 16]>,
    dials: Failing,
    sends: Failing,
    starved: u64,
}

// Written out, so that whoever drops a host proves one call.
impl Drop for MemHost {
    fn drop(self) {
        let MemHost {
            alloc: _,
            disk: _,
            sent: _,
            scripts: _,
            silences: _,
            faults: _,
            clock: _,
            nonces: _,
            dials: _,
            sends: _,
            starved: _,
        } = self;
    }
}

impl Model for MemHost {
    ghost use Rattle.outside.specs.MemDisk.{bytes_each};
    ghost use Rattle.outside.specs.MemHost.{MemHostValue, AreLinksWired};

    ghost Value = { MemHostValue };

    ghost view = { λ h. record {
      disk = h.disk;
      scripts = h.scripts.items;
      silences = h.silences;
      faults = h.faults;
      clock = h.clock;
      nonces = h.nonces.items;
      dials = h.dials;
      sends = h.sends;
      starved = h.starved;
    } };

    ghost invariant = { λ h. AreLinksWired h.disk (bytes_each h.sent.items) h.scripts.items };
}

impl MemHost {
    /// A host over this disk without links, with scripts that are used up, no readings and no
    /// nonces.
    pub fn new(alloc: Global, disk: MemDisk) -> Result<MemHost, AllocError>
        ensures host { IfOk result (λ h. h ≡ fresh_host disk) }
        ensures no_links { IfOk result (λ h. links_of h.disk ≡ []) }
    {
        let mut disk = disk;
        disk.keep_hosted()?;
        Ok(MemHost {
            alloc,
            disk,
            sent: Vec::new(alloc),
            scripts: no_scripts(alloc)?,
            silences: [0; LINKS],
            faults: [0; LINKS],
            clock: Clock::new(alloc),
            nonces: VecDeque::new(alloc),
            dials: Failing::new(alloc),
            sends: Failing::new(alloc),
            starved: 0,
        })
    }

    /// Begins anew over the same files, as a program that is started again: links, scripts,
    /// readings, nonces and what was heard are gone; the calls of the disk, and which of them are
    /// to fail, stay.
    pub fn restart(&mut self) -> Result<(), AllocError>
        ensures ok { OnOk result (self.new ≡ fresh_host self.old.disk) }
        ensures no_links { OnOk result (links_of self.new.disk ≡ []) }
        ensures err { OnErr result (self.new ≡ self.old) }
    {
        let scripts = no_scripts(self.alloc)?;
        self.disk.keep_hosted()?;
        self.sent = Vec::new(self.alloc);
        self.scripts = scripts;
        self.silences = [0; LINKS];
        self.faults = [0; LINKS];
        self.clock = Clock::new(self.alloc);
        self.nonces = VecDeque::new(self.alloc);
        self.dials = Failing::new(self.alloc);
        self.sends = Failing::new(self.alloc);
        self.starved = 0;
        Ok(())
    }

    /// Begins anew over one of the images that a crash now may leave, of which no call was made.
    pub fn crash(&mut self, pick: Pick) -> Result<(), AllocError>
        ensures ok { OnOk result (CrashesHost pick self.old self.new) }
        ensures no_links { OnOk result (links_of self.new.disk ≡ []) }
        ensures err { OnErr result (self.new ≡ self.old) }
    {
        let disk = self.disk.image(pick)?;
        *self = MemHost::new(self.alloc, disk)?;
        Ok(())
    }

    /// The call of its disk of this number, counted from 0 over all calls made of a disk, is to
    /// fail.
    pub fn fail_at(&mut self, call: u64) -> Result<(), AllocError>
        ensures ok { OnOk result
            (self.new ≡ record self.old {
              disk = record self.old.disk { failing = self.old.disk.failing ++ call ∷ [] };
            }) }
        ensures err { OnErr result (self.new ≡ self.old) }
    {
        self.disk.fail_at(call)
    }

    /// From the call of its disk of this number on every call of its disk fails and leaves no
    /// trace.
    pub fn stop_at(&mut self, call: u64)
        ensures { self.new ≡ record self.old { disk = record self.old.disk { stop = Some call } } }
    {
        self.disk.stop_at(call);
    }

    /// No call of its disk from now on is to fail.
    pub fn fail_none(&mut self)
        ensures { self.new ≡ record self.old {
          disk = record self.old.disk { failing = []; stop = None };
        } }
    {
        self.disk.fail_none();
    }

    /// Adds an answer to the script of a link, made or not. Empty bytes are left out.
    pub fn script(&mut self, link: u8, answer: Answer) -> Result<(), AllocError>
        requires { link < LINKS }
        ensures ok { OnOk result
            (self.new ≡ record self.old {
              scripts = with_script link
                  (script_of link self.old.scripts ++ planned_of answer) self.old.scripts;
            }) }
        ensures planned { OnOk result (PlansAnswer link answer self.old.scripts self.new.scripts) }
        ensures err { OnErr result (self.new ≡ self.old) }
    {
        let script = &mut self.scripts[link as usize];
        script.add(answer)
    }

    /// Adds a reading of the clock, in milliseconds, behind those that were given and those that
    /// were made.
    pub fn reading(&mut self, at: u64) -> Result<(), AllocError>
        ensures ok { OnOk result
            (self.new ≡ record self.old { clock = reading_added at self.old.clock }) }
        ensures err { OnErr result (self.new ≡ self.old) }
    {
        self.clock.add(at)
    }

    /// Puts this one reading in the place of all that were not made.
    pub fn set_clock(&mut self, at: u64) -> Result<(), AllocError>
        ensures ok { OnOk result
            (self.new ≡ record self.old { clock = reading_set at self.old.clock }) }
        ensures upcoming { OnOk result (upcoming_of self.new.clock ≡ at ∷ []) }
        ensures err { OnErr result (self.new ≡ self.old) }
    {
        self.clock.set(at)
    }

    /// Gives a nonce, for the next call that no nonce was given for.
    pub fn give_nonce(&mut self, nonce: [u8; 16]) -> Result<(), AllocError>
        ensures ok { OnOk result
            (self.new ≡ record self.old { nonces = self.old.nonces ++ nonce ∷ [] }) }
        ensures err { OnErr result (self.new ≡ self.old) }
    {
        self.nonces.push_back(nonce)?;
        Ok(())
    }

    /// The dial of this number, counted from 0, is to fail.
    pub fn fail_dial(&mut self, k: u8) -> Result<(), AllocError>
        ensures ok { OnOk result
            (self.new ≡ record self.old {
              dials = record self.old.dials { failing = self.old.dials.failing ++ k ∷ [] };
            }) }
        ensures err { OnErr result (self.new ≡ self.old) }
    {
        self.dials.add(u64::from(k))
    }

    /// The send of this number, counted from 0 over all links, is to fail; the first half of its
    /// bytes goes out then.
    pub fn fail_send(&mut self, k: u64) -> Result<(), AllocError>
        ensures ok { OnOk result
            (self.new ≡ record self.old {
              sends = record self.old.sends { failing = self.old.sends.failing ++ k ∷ [] };
            }) }
        ensures err { OnErr result (self.new ≡ self.old) }
    {
        self.sends.add(k)
    }

    /// The bytes sent so far on a link, of which there are none where it was not made.
    pub fn sent(&self, link: u8) -> &[u8]
        ensures { result.now ≡ slice_index_or (sent_of (Some (links_of self.now.disk))) link [] }
    {
        match self.sent.get(link as usize) {
            Some(bytes) => bytes,
            None => &[],
        }
    }

    /// Its disk.
    pub fn disk(&self) -> &MemDisk
        ensures { result.now ≡ self.now.disk }
    {
        &self.disk
    }

    /// Its disk, alone.
    pub fn into_disk(self) -> MemDisk
        ensures { result ≡ self.disk }
    {
        let MemHost {
            disk,
            alloc: _,
            sent: _,
            scripts: _,
            silences: _,
            faults: _,
            clock: _,
            nonces: _,
            dials: _,
            sends: _,
            starved: _,
        } = self;
        disk
    }

    /// How many of its calls but those of its disk found no memory; it stands still at 2^64 - 1.
    pub fn starved(&self) -> u64
        ensures { result ≡ self.now.starved }
    {
        self.starved
    }
}

// Eight scripts that are used up.
fn no_scripts(alloc: Global) -> Result<Vec<Script>, AllocError>
    ensures { IfOk result (λ v. v.items ≡ replicate LINKS []) }
{
    let mut scripts = Vec::new(alloc);
    for i in 0..LINKS {
        scripts.push(Script::new(alloc))?;
    }
    Ok(scripts)
}

// The calls on its links and its clock.
impl MemHost {
    fn make_dial(&mut self, spec: &str) -> Result<u8, Failed>
        requires { length (links_of self.old.disk) < LINKS }
        ensures { MakesDial spec.now result self.old self.new }
    {
        let link = self.sent.len();
        if self.dials.next() {
            raise_at(&mut self.faults, link);
            return Err(Failed);
        }
        match self.disk.keep_dial(spec.as_bytes(), &mut self.sent) {
            Ok(()) => {
                self.silences[link] = 0;
                Ok(link as u8)
            }
            Err(_) => {
                self.starved = self.starved.saturating_add(1);
                raise_at(&mut self.faults, link);
                Err(Failed)
            }
        }
    }

    fn make_nonce(&mut self, link: u8) -> Result<[u8; 16], Failed>
        requires { link < length (links_of self.old.disk) }
        ensures { MakesNonce link result self.old self.new }
    {
        match self.nonces.pop_front() {
            Some(nonce) => Ok(nonce),
            None => {
                raise_at(&mut self.faults, link as usize);
                Err(Failed)
            }
        }
    }

    fn make_answer(&mut self, link: u8, buf: &mut [u8]) -> Heard
        requires link { link < length (links_of self.old.disk) }
        requires room { 0 < length buf.old }
        ensures makes { MakesAnswer link result buf.new self.old self.new }
        ensures answer { IsAnswerCaused result (length buf.new) (slice_index self.old.faults link)
            (slice_index self.new.faults link) }
    {
        let place = link as usize;
        let room = buf.len();
        match self.scripts[place].reply(self.alloc, room) {
            Ok(Some(reply)) => self.hear(link, reply, buf),
            Ok(None) => {
                pass(&mut self.scripts, place, room);
                raise_at(&mut self.silences, place);
                raise_at(&mut self.faults, place);
                Heard::Failed
            }
            Err(_) => self.hear_none(place),
        }
    }

    // Hears the reply of a link's script, or for want of memory nothing.
    fn hear(&mut self, link: u8, reply: Reply, buf: &mut [u8]) -> Heard
        requires link { link < length (links_of self.old.disk) }
        requires room { 0 < length buf.old }
        requires planned { reply_to (length buf.old) (script_of link self.old.scripts)
            ≡ Some (reply_of reply) }
        requires fits { FitsIn (length buf.old) (Some (reply_of reply)) }
        ensures makes { MakesAnswer link result buf.new self.old self.new }
        ensures answer { IsAnswerCaused result (length buf.new) (slice_index self.old.faults link)
            (slice_index self.new.faults link) }
    {
        let place = link as usize;
        let room = buf.len();
        let failures = self.silences[place];
        let heard = put(&reply, buf);
        match self.disk.keep_answer(link, failures, room, reply) {
            Ok(()) => {
                self.silences[place] = 0;
                pass(&mut self.scripts, place, room);
                heard
            }
            Err(_) => self.hear_none(place),
        }
    }

    // A call on a link that heard nothing for want of memory.
    fn hear_none(&mut self, link: usize) -> Heard
        requires { link < LINKS }
        ensures failed { result ≡ Heard.Failed }
        ensures rest { self.new ≡ record self.old {
          silences = self.new.silences;
          faults = self.new.faults;
          starved = one_more self.old.starved;
        } }
        ensures silences { RaisesCount link self.old.silences self.new.silences }
        ensures faults { RaisesCount link self.old.faults self.new.faults }
    {
        raise_at(&mut self.silences, link);
        raise_at(&mut self.faults, link);
        self.starved = self.starved.saturating_add(1);
        Heard::Failed
    }

    fn make_send(&mut self, link: u8, bytes: &[u8]) -> Result<(), Failed>
        requires { link < length (links_of self.old.disk) }
        ensures { MakesSend link bytes.now result self.old self.new }
    {
        let fails = self.sends.next();
        let out = if fails { bytes.len() / 2 } else { bytes.len() };
        let sent = &mut self.sent[link as usize];
        if self.disk.keep_send(link, &bytes[..out], sent).is_err() {
            self.starved = self.starved.saturating_add(1);
            raise_at(&mut self.faults, link as usize);
            return Err(Failed);
        }
        if fails {
            raise_at(&mut self.faults, link as usize);
            return Err(Failed);
        }
        Ok(())
    }

    fn make_reading(&mut self) -> u64
        ensures { MakesReading result self.old self.new }
    {
        self.clock.read()
    }
}

// Leaves the answer of one of several scripts to a buffer of so many bytes behind.
fn pass(scripts: &mut Vec<Script>, link: usize, room: usize)
    requires { link < vec_len scripts.old }
    ensures len { length scripts.new.items ≡ length scripts.old.items }
    ensures behind { LeavesBehind link room scripts.old.items scripts.new.items }
{
    let script = &mut scripts[link];
    script.pass(room);
}

// Puts what was heard into the front of the buffer.
fn put(reply: &Reply, buf: &mut [u8]) -> Heard
    requires room { 0 < length buf.old }
    requires fits { FitsIn (length buf.old) (Some (reply_of reply.now)) }
    ensures heard { reply_in result buf.new ≡ Some (reply_of reply.now) }
    ensures answer { (count : ℕ) → IsAnswerCaused result (length buf.new) count count }
{
    match reply {
        Reply::Got(bytes) => {
            let n = bytes.len();
            buf[..n].copy_from_slice(bytes);
            Heard::Got(n)
        }
        Reply::Idle => Heard::Idle,
        Reply::Ended => Heard::End,
    }
}

impl Disk for MemHost {
    ghost use Rattle.outside.specs.HostTold.{host_told};

    ghost tells = { host_told };

    fn len(&mut self, file: u8) -> Result<u64, Failed>
        requires { file < 2 }
        ensures call { DiskCall (host_told self.old) (host_told self.new) }
        ensures cause { HasCause self.old.disk.faults self.new.disk.faults result }
        ensures does { DoesCalls (None ∷ []) result (host_told self.old) (host_told self.new) }
        ensures same { (host_told self.new).files ≡ (host_told self.old).files }
        ensures length { IfOk result
            (λ n. ForSome (host_told self.old).files (λ two. n ≡ length (file_of two file).now)) }

        // It fails exactly where the list or the stop of its disk says so.
        ensures fails { is_err result ≡ fails_next self.old.disk }
        ensures makes { OnDisk None None result self.old self.new }
    {
        self.disk.len(file)
    }

    fn read_at(&mut self, file: u8, at: u64, buf: &mut [u8]) -> Result<usize, Failed>
        requires { file < 2 }
        ensures call { DiskCall (host_told self.old) (host_told self.new) }
        ensures cause { HasCause self.old.disk.faults self.new.disk.faults result }
        ensures does { DoesCalls (None ∷ []) result (host_told self.old) (host_told self.new) }
        ensures same { (host_told self.new).files ≡ (host_told self.old).files }
        ensures bound { IfOk result (λ n. n ≤ length buf.new) }
        ensures bytes { IfOk result
            (λ n. ForSome (host_told self.old).files
            (λ two. ReadsBytes (file_of two file).now at buf.new n)) }

        // It fails exactly where the list or the stop of its disk says so.
        ensures fails { is_err result ≡ fails_next self.old.disk }
        ensures makes { OnDisk None None result self.old self.new }
    {
        self.disk.read_at(file, at, buf)
    }

    fn write_at(&mut self, file: u8, at: u64, bytes: &[u8]) -> Result<(), Failed>
        requires file { file < 2 }
        requires place { ForSome (host_told self.old).files
            (λ two. at ≤ length (file_of two file).now) }
        ensures call { DiskCall (host_told self.old) (host_told self.new) }
        ensures cause { HasCause self.old.disk.faults self.new.disk.faults result }
        ensures does { DoesCalls (Some (wrote file at bytes.now) ∷ []) result (host_told self.old) (host_told self.new) }
        ensures written { RelatesTold (WritesFile file at bytes.now result) (host_told self.old).files
            (host_told self.new).files }

        // It fails exactly where its disk says so.
        ensures makes { OnDisk (Some (wrote file at bytes.now)) (Some (wrote_not file at bytes.now))
            result self.old self.new }
    {
        self.disk.write_at(file, at, bytes)
    }

    fn cut(&mut self, file: u8, len: u64) -> Result<(), Failed>
        requires file { file < 2 }
        requires length { ForSome (host_told self.old).files
            (λ two. len ≤ length (file_of two file).now) }
        ensures call { DiskCall (host_told self.old) (host_told self.new) }
        ensures cause { HasCause self.old.disk.faults self.new.disk.faults result }
        ensures does { DoesCalls (Some (cut file len) ∷ []) result (host_told self.old) (host_told self.new) }
        ensures cut { RelatesTold (CutsFile file len result) (host_told self.old).files
            (host_told self.new).files }

        // It fails exactly where its disk says so.
        ensures makes { OnDisk (Some (cut file len)) (Some (cut_not file len)) result self.old
            self.new }
    {
        self.disk.cut(file, len)
    }

    fn sync(&mut self, file: u8) -> Result<(), Failed>
        requires { file < 2 }
        ensures call { DiskCall (host_told self.old) (host_told self.new) }
        ensures cause { HasCause self.old.disk.faults self.new.disk.faults result }
        ensures does { DoesCalls (Some (synced file) ∷ []) result (host_told self.old) (host_told self.new) }
        ensures synced { RelatesTold (SyncsFile file result) (host_told self.old).files
            (host_told self.new).files }

        // It fails exactly where its disk says so.
        ensures makes { OnDisk (Some (synced file)) None result self.old self.new }
    {
        self.disk.sync(file)
    }
}

impl Host for MemHost {
    ghost use Rattle.outside.specs.HostTold.{host_told};

    fn dial(&mut self, spec: &str) -> Result<u8, Failed>
        requires { length (links_of self.old.disk) < LINKS }
        ensures call { QuietCall (host_told self.old) (host_told self.new) }
        ensures links { DialsLink spec.now result (host_told self.old).links
            (host_told self.new).links }

        // It fails exactly where the list says so, or there was no memory.
        ensures makes { MakesDial spec.now result self.old self.new }
    {
        self.make_dial(spec)
    }

    fn nonce(&mut self, link: u8) -> Result<[u8; 16], Failed>
        requires { link < length (links_of self.old.disk) }
        ensures call { QuietCall (host_told self.old) (host_told self.new) }
        ensures links { AsksNonce link result (host_told self.old).links
            (host_told self.new).links }

        // It is the first that was given, and fails exactly where there is none.
        ensures makes { MakesNonce link result self.old self.new }
    {
        self.make_nonce(link)
    }

    fn recv(&mut self, link: u8, buf: &mut [u8]) -> Heard
        requires link { link < length (links_of self.old.disk) }
        requires room { 0 < length buf.old }
        ensures call { QuietCall (host_told self.old) (host_told self.new) }
        ensures links { HearsAnswer link result buf.new (host_told self.old).links
            (host_told self.new).links }
        ensures answer { IsAnswerCaused result (length buf.new) (slice_index self.old.faults link)
            (slice_index self.new.faults link) }

        // It fails exactly where the script says so, or there was no memory.
        ensures makes { MakesAnswer link result buf.new self.old self.new }
    {
        self.make_answer(link, buf)
    }

    fn send(&mut self, link: u8, bytes: &[u8]) -> Result<(), Failed>
        requires { link < length (links_of self.old.disk) }
        ensures call { LinkCall (SendsPart (host_told self.old) link bytes.now)
            (host_told self.old) (host_told self.new) }
        ensures links { SendsOnLink link bytes.now result (host_told self.old).links
            (host_told self.new).links }

        // It fails exactly where the list says so, or there was no memory.
        ensures makes { MakesSend link bytes.now result self.old self.new }
    {
        self.make_send(link, bytes)
    }

    fn hang_up(&mut self, _link: u8)
        requires { _link < length (links_of self.old.disk) }
        ensures call { QuietCall (host_told self.old) (host_told self.new) }
        ensures links { (host_told self.new).links ≡ (host_told self.old).links }
        ensures same { self.new ≡ self.old }
    {
        // What is heard and sent afterwards is as before: a script answers whoever asks.
    }

    fn now(&mut self) -> u64
        ensures call { QuietCall (host_told self.old) (host_told self.new) }
        ensures links { ReadsClock result (host_told self.old).links (host_told self.new).links }

        // It is the next of the readings that were given, or the last one again.
        ensures makes { MakesReading result self.old self.new }
    {
        self.make_reading()
    }
}
