//! The files of a store, and lines by their numbers.
ghost use Rattle.std.specs.Prelude.{◌≡◌, ◌≢◌, ℕ, ◌<◌, ◌≤◌, vec_len, slice_index, IfOk};
ghost use Rattle.outside.specs.Faults.{one_more};
ghost use Rattle.stay_links.specs.declared.stay_host.TheConstants.{PLACES};

use crate::line::Line;
use crate::place::Place;
use link_host::LinkHost;
use outside::{Disk, Failed, Heard, Host};
use outside_real::{FileHost, random_bytes};
use std::alloc::{AllocError, Global};
use std::fs::{File, Files};
use std::mem;
use std::net::Net;
use std::rt::Runtime;

// How many places there are: a number of a link is a byte.
const PLACES: usize = 256;

// How many bytes are heard at once where nothing else is said.
const MOST_HEARD: usize = 65_536;

/// A host over the files of a `FileHost`, whose links are lines that are brought to it. It tells its
/// counts alone: of its links, and of the failures of the disk and of each link. No call on a link
/// waits: a receive answers `Idle` where nothing is there, and a send keeps what the stream does not
/// take. A link that was hung up ends; one that has failed fails from then on. It dials nobody.
#[derive(Drop)]
pub struct StayHost<R: Runtime + Net> {
    files: FileHost<R>,
    brought: Place,
    places: Vec<Place>,
    taken: u8,
    most_heard: usize,
    link_faults: [u64; PLACES],
    ghost whole: { vec_len places ≡ PLACES },
    ghost hears: { 0 < most_heard },
}

impl<R: Runtime + Files<File = File> + AllocGlobal + Net> StayHost<R> {
    /// A host without links over these files. It fails only for want of memory.
    pub fn new(files: FileHost<R>) -> Result<StayHost<R>, AllocError>
        ensures no_links { IfOk result (λ h. (⟦<StayHost<R> as Disk>⟧.tells h).links.dialled ≡ 0) }
        ensures files { IfOk result (λ h. (⟦<StayHost<R> as Disk>⟧.tells h).disk_faults
            ≡ (⟦<FileHost<R> as Disk>⟧.tells files).disk_faults) }
    {
        let places = no_lines(files.runtime().alloc())?;
        Ok(StayHost {
            files,
            brought: Place::Over,
            places,
            taken: 0,
            most_heard: MOST_HEARD,
            link_faults: [0; PLACES],
        })
    }
}

// A place for each number, and no line.
fn no_lines(alloc: Global) -> Result<Vec<Place>, AllocError>
    ensures { IfOk result (λ places. vec_len places ≡ PLACES) }
{
    let mut places = Vec::new(alloc);
    for i in 0..PLACES {
        places.push(Place::Over)?;
    }
    Ok(places)
}

impl<R: Runtime + Files<File = File> + Net> StayHost<R> {
    ghost use Rattle.stay_links.specs.Lines.{TellsAsBefore};

    /// The files, with what they run on.
    pub fn files(&self) -> &FileHost<R> {
        &self.files
    }

    /// Brings the line that the next `take_up` takes, also behind a `renew`; one that was brought before
    /// and not taken ends.
    pub fn bring(&mut self, line: Line)
        ensures { TellsAsBefore (⟦<StayHost<R> as Disk>⟧.tells self.old)
            (⟦<StayHost<R> as Disk>⟧.tells self.new) }
    {
        self.brought = Place::Open(line);
    }

    /// Lets a receive answer so many bytes at most; one at least.
    pub fn set_most_heard(&mut self, most: usize)
        ensures { TellsAsBefore (⟦<StayHost<R> as Disk>⟧.tells self.old)
            (⟦<StayHost<R> as Disk>⟧.tells self.new) }
    {
        self.most_heard = most.max(1);
    }

    /// The number of the stream of this link; -1 where it has none any more.
    pub fn number(&self, link: u8) -> i32 {
        self.places[link as usize].number()
    }

    /// Whether something waits to go out on this link.
    pub fn wants_write(&self, link: u8) -> bool {
        !self.is_clear(link)
    }

    /// Whether nothing waits to go out on this link.
    pub fn is_clear(&self, link: u8) -> bool {
        self.places[link as usize].is_clear()
    }

    /// Lets the stream of this link take some of what waits, at this reading of a clock that seldom
    /// goes back. A link whose stream can't has failed.
    pub fn write_some(&mut self, link: u8, now: u64)
        ensures { TellsAsBefore (⟦<StayHost<R> as Disk>⟧.tells self.old)
            (⟦<StayHost<R> as Disk>⟧.tells self.new) }
    {
        self.places[link as usize].write_some(now);
    }

    /// Whether something waits on this link of which nothing went out for half a minute before this
    /// reading of the clock, as `write_some` saw it.
    pub fn is_stuck(&self, link: u8, now: u64) -> bool {
        self.places[link as usize].is_stuck(now)
    }

    /// Gives this link up: it has failed.
    pub fn give_up(&mut self, link: u8)
        ensures { TellsAsBefore (⟦<StayHost<R> as Disk>⟧.tells self.old)
            (⟦<StayHost<R> as Disk>⟧.tells self.new) }
    {
        self.places[link as usize] = Place::Broken;
    }
}

impl<R: Runtime + Files<File = File> + Net> Disk for StayHost<R> {
    ghost use Rattle.outside.specs.Silent.{silent};

    ghost tells = { λ h. silent (⟦<FileHost<R> as Disk>⟧.tells h.files).disk_faults h.taken h.link_faults };

    fn len(&mut self, file: u8) -> Result<u64, Failed> {
        self.files.len(file)
    }

    fn read_at(&mut self, file: u8, at: u64, buf: &mut [u8]) -> Result<usize, Failed> {
        self.files.read_at(file, at, buf)
    }

    fn write_at(&mut self, file: u8, at: u64, bytes: &[u8]) -> Result<(), Failed> {
        self.files.write_at(file, at, bytes)
    }

    fn cut(&mut self, file: u8, len: u64) -> Result<(), Failed> {
        self.files.cut(file, len)
    }

    fn sync(&mut self, file: u8) -> Result<(), Failed> {
        self.files.sync(file)
    }
}

impl<R: Runtime + Files<File = File> + Net> Host for StayHost<R> {
    fn dial(&mut self, _spec: &str) -> Result<u8, Failed> {
        raise_at(&mut self.link_faults, self.taken);
        Err(Failed)
    }

    fn nonce(&mut self, link: u8) -> Result<[u8; 16], Failed> {
        match random_bytes(self.files.runtime()) {
            Ok(bytes) => Ok(bytes),
            Err(_) => {
                raise_at(&mut self.link_faults, link);
                Err(Failed)
            }
        }
    }

    fn recv(&mut self, link: u8, buf: &mut [u8]) -> Heard {
        let most = buf.len().min(self.most_heard);
        match self.places[link as usize].hear(&mut buf[..most]) {
            Heard::Failed => {
                raise_at(&mut self.link_faults, link);
                Heard::Failed
            }
            heard => heard,
        }
    }

    fn send(&mut self, link: u8, bytes: &[u8]) -> Result<(), Failed> {
        match self.places[link as usize].send(bytes) {
            Ok(()) => Ok(()),
            Err(Failed) => {
                raise_at(&mut self.link_faults, link);
                Err(Failed)
            }
        }
    }

    fn hang_up(&mut self, link: u8) {
        self.places[link as usize].end();
    }

    fn now(&mut self) -> u64 {
        self.files.now()
    }
}

impl<R: Runtime + Files<File = File> + Net> LinkHost for StayHost<R> {
    fn take_up(&mut self) -> u8 {
        let link = self.taken;
        self.places[link as usize] = mem::replace(&mut self.brought, Place::Over);
        self.taken += 1;
        link
    }

    fn renew(&mut self) {
        for place in self.places.iter_mut() {
            place.end();
        }
        self.taken = 0;
        self.link_faults = [0; PLACES];
    }
}

// Raises the count of this link; it stands still at 2^64 - 1.
fn raise_at(faults: &mut [u64; PLACES], link: u8)
    ensures later { slice_index faults.old link ≤ slice_index faults.new link }
    ensures rose { slice_index faults.new link ≡ one_more (slice_index faults.old link) }
    ensures others { (k : ℕ) → k ≢ link → slice_index faults.new k ≡ slice_index faults.old k }
{
    let link = link as usize;
    faults[link] = faults[link].saturating_add(1);
}
