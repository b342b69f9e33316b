//! Loading a store: the journal is read batch by batch, and never held.
ghost use Rattle.std.specs.Prelude.{◌≡◌, ◌+◌, ◌-◌, ◌<◌, ◌≤◌, IfOk, IsErrOf, Some};
ghost use Rattle.std.specs.Option.{ForSome};
ghost use Rattle.outside.specs.Faults.{CountRose};
ghost use Rattle.outside.specs.Disk.{RelatesTold};
ghost use Rattle.outside.specs.Files.{File, ReadsSame, Two, read_files};
ghost use Rattle.outside.specs.Outside.{AnyImage, DiskRun, OnlyReads};
ghost use Rattle.journal_state.specs.Taking.{HasNextNumbers};
ghost use Rattle.journal_state.specs.Whole.{KnowsJudgements};
ghost use Rattle.sync_rules.specs.Facts.{nothing};
ghost use Rattle.sync_store.specs.Asking.{LoadDoes};
ghost use Rattle.sync_store.specs.Loading.{HasItsRoom, HasReadSome, IsJournalLoaded, LeavesSettled};
ghost use Rattle.sync_store.specs.Loading.{LoadsIn, PlaysFrame, ReadsWholeJournal, TurnCalls, ReadsMore};
ghost use Rattle.sync_store.specs.Loading.{ReadsIn, PlayedSoFar, PlaysNextFrame};
ghost use Rattle.sync_store.specs.Ready.{IsReady};
ghost use Rattle.sync_store.specs.Store.{IsStore};

use crate::LoadFault;
use crate::formats::{HeldNames, format_meant, settling_room};
use crate::laws::cite_laws;
use crate::store::Store;
use crate::waiting::Waiting;
use entry_codec::read_batch;
use frame_journal::{Journal, barrier};
use journal_state::State;
use outside::{Disk, MAX_JOURNAL, Place};
use std::alloc::Global;
use std::hash::RandomState;
use sync_rules::Clients;

// Plays the last frame that was read.
fn play<C: Clients>(
    alloc: Global,
    clients: &C,
    journal: &Journal,
    state: &mut State,
    payload: &[u8],
) -> Result<(), LoadFault>
    requires read { 14 ≤ journal.now.last }
    requires knows { KnowsJudgements (C.meaning clients.now) state.old }
    requires numbers { HasNextNumbers state.old.facts }
    ensures { PlaysFrame (C.meaning clients.now) journal.now state.old state.new payload.now result }
{
    let place = journal.place();
    let format = format_meant(journal.format());
    let Some(batch) = read_batch(alloc, format, &HeldNames { state: &*state }, payload)? else {
        return Err(LoadFault::Damaged(place));
    };
    if !state.admit(alloc, clients, batch)? {
        return Err(LoadFault::Damaged(place));
    }
    Ok(())
}

// Reads the next frame and plays its batch; `false` at the closed gate.
fn read_next<D: Disk, C: Clients>(
    alloc: Global,
    disk: &mut D,
    clients: &C,
    journal: &mut Journal,
    state: &mut State,
    payload: &mut Vec<u8>,
) -> Result<bool, LoadFault>
    requires { PlayedSoFar (C.meaning clients.now) (D.tells disk.old).files journal.old state.old }
    ensures turn { PlaysNextFrame (C.meaning clients.now) (D.tells disk.new).files journal.old journal.new
        state.new result }
    ensures more { ReadsMore (C.meaning clients.now) (D.tells disk.old).files journal.old
        journal.new state.old state.new result }
    ensures calls { TurnCalls result (D.tells disk.old) (D.tells disk.new) }
    ensures looks { OnlyReads (D.tells disk.old) (D.tells disk.new) }
    ensures fault { IsErrOf result LoadFault.DiskFault
        → CountRose (D.tells disk.old).disk_faults (D.tells disk.new).disk_faults }
{
    cite_laws();
    let more = journal.next_frame(disk, payload)?;
    if !more {
        return Ok(false);
    }
    play(alloc, clients, journal, state, payload.as_slice())?;
    Ok(true)
}

// Whether the journal, which was read to its closed gate, leaves its room.
fn test_room(journal: &Journal, state: &State) -> Result<(), LoadFault>
    requires started { 15 ≤ journal.now.end }
    requires read { journal.now.last < 14 → state.now.facts ≡ nothing }
    ensures { HasItsRoom journal.now state.now result }
{
    let end = journal.end();
    let room = settling_room(format_meant(journal.format()), state.left());
    if room <= MAX_JOURNAL - end {
        return Ok(());
    }
    let last = journal.place();
    Err(LoadFault::Damaged(Place {
        file: last.file,
        at: end - 1,
    }))
}

// Reads the journal to its closed gate, and plays its batches.
fn read_all<D: Disk, C: Clients>(
    alloc: Global,
    disk: &mut D,
    clients: &C,
    journal: &mut Journal,
    state: &mut State,
) -> Result<(), LoadFault>
    requires so_far { PlayedSoFar (C.meaning clients.now) (D.tells disk.old).files journal.old state.old }
    requires unread { (two : Two File) → (D.tells disk.old).files ≡ Some two
        → HasReadSome (C.meaning clients.now) two journal.old state.old 0 }
    ensures all { ReadsWholeJournal (C.meaning clients.now) (D.tells disk.new).files journal.new state.new
        result }
    ensures calls { ReadsIn (C.meaning clients.now) result (D.tells disk.old) (D.tells disk.new) }
    ensures looks { OnlyReads (D.tells disk.old) (D.tells disk.new) }
    ensures fault { IsErrOf result LoadFault.DiskFault
        → CountRose (D.tells disk.old).disk_faults (D.tells disk.new).disk_faults }
{
    let mut payload = Vec::new(alloc);
    'frames: loop {
        let more = read_next(alloc, disk, clients, journal, state, &mut payload)?;
        if !more {
            return test_room(journal, state);
        }
    }
}

impl Store {
    /// Loads the store of a disk, of either format: it begins with the barrier, reads the journal
    /// and writes nothing.
    /// `limit` is the length in bytes that commits may fill, at most `MAX_JOURNAL`; ids are hashed
    /// by `hasher`. `NoStore` comes exactly where no file has an open header, `Damaged` exactly
    /// where the files stand for no legal journal, with the first place that shows it, and
    /// `DiskFault` only where a call on the disk failed. A journal of n batches takes 2 n + 6 calls
    /// of the disk.
    pub fn load<D: Disk, C: Clients>(
        alloc: Global,
        hasher: RandomState,
        disk: &mut D,
        clients: &C,
        limit: u64,
    ) -> Result<Store, LoadFault>
        requires { limit ≤ MAX_JOURNAL }
        ensures answer { (two : Two File) → (D.tells disk.old).files ≡ Some two
            → IsJournalLoaded (C.meaning clients.now) (read_files two) result }
        ensures ready { IfOk result (λ store. IsReady (C.meaning clients.now) store
            (D.tells disk.new).files) }
        ensures numbers { IfOk result (λ store. IsStore store) }
        ensures limit { IfOk result (λ store. store.limit ≡ limit) }

        // At each moment a crash leaves what it might have left before.
        ensures any_moment { AnyImage (D.tells disk.old) (D.tells disk.new) }
        ensures settled { LeavesSettled (D.tells disk.old).files (D.tells disk.new).files result }

        // So many calls of the disk it makes over files that stand for a journal.
        ensures calls { LoadsIn (C.meaning clients.now) result (D.tells disk.old)
            (D.tells disk.new) }

        // It syncs both files and then only looks, or its disk failed in the former.
        ensures does { LoadDoes result (D.tells disk.old) (D.tells disk.new) }

        // Whatever it answers, the files read as before.
        ensures reads { RelatesTold ReadsSame (D.tells disk.old).files (D.tells disk.new).files }
        ensures run { DiskRun (D.tells disk.old) (D.tells disk.new) }
        ensures fault { IsErrOf result LoadFault.DiskFault
            → CountRose (D.tells disk.old).disk_faults (D.tells disk.new).disk_faults }
    {
        barrier(disk)?;
        let mut journal = Journal::start(disk)?;
        let mut state = State::new(alloc, hasher)?;
        let waiting = Waiting::new(alloc)?;
        read_all(alloc, disk, clients, &mut journal, &mut state)?;
        Ok(Store {
            alloc,
            state,
            journal,
            waiting,
            limit,
            closed: false,
        })
    }
}
