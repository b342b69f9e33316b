//! Bytes that wait until somebody takes them.
#![tactic(auto)]

ghost use Rattle.std.specs.Prelude.{◌≡◌, ◌≤◌, ◌<◌, ◌+◌, ◌++◌, ◌==◌, [], length, drop, take, OnErr, OnOk, IfOk};
ghost use Rattle.std.specs.Vec.{vec_len};
ghost use Rattle.std.specs.VecDeque.{deque_capacity, deque_len};
ghost use Rattle.outbox.specs.Chunks.{TakesOver};

use std::alloc::{AllocError, Global};
use std::collections::VecDeque;
use std::marker::Model;
use std::mem;

// Bytes of more than so many are taken over as they lie and not copied.
const LONG: usize = 16_384;

/// Bytes that go out in the order in which they came. Contracts see them as a list, and not which of
/// them have gone, nor how they lie.
#[derive(Drop)]
pub struct Outbox {
    alloc: Global,
    chunks: VecDeque<Vec<u8>>,
    last: Vec<u8>,
    gone: usize,
    waits: usize,
}

impl Model for Outbox {
    ghost use Rattle.std.specs.Prelude.{ℕ, List, drop};
    ghost use Rattle.outbox.specs.Chunks.{IsOutbox, bytes_of};

    ghost Value = { List ℕ };

    ghost view = { λ b. drop b.gone (bytes_of b.chunks.items b.last.items) };

    ghost invariant = { λ b. IsOutbox b.chunks.items b.last.items b.gone b.waits };
}

impl Outbox {
    /// No bytes.
    pub fn new(alloc: Global) -> Outbox
        ensures { result ≡ [] }
    {
        Outbox {
            alloc,
            chunks: VecDeque::new(alloc),
            last: Vec::new(alloc),
            gone: 0,
            waits: 0,
        }
    }

    /// How many bytes wait.
    pub fn len(&self) -> usize
        ensures { result ≡ length self.now }
    {
        self.waits
    }

    /// Whether none wait.
    pub fn is_empty(&self) -> bool
        ensures { result ≡ (length self.now == 0) }
    {
        self.waits == 0
    }

    /// A front of those that wait, as they lie; it is empty only where none wait.
    pub fn front(&self) -> &[u8]
        ensures front { result.now ≡ take (length result.now) self.now }
        ensures some { 0 < length self.now → 0 < length result.now }
    {
        match self.chunks.front() {
            Some(chunk) => &chunk.as_slice()[self.gone..],
            None => &self.last.as_slice()[self.gone..],
        }
    }

    /// Has these bytes wait behind those that are there. It fails only for want of memory, and then
    /// nothing has changed.
    pub fn push(&mut self, bytes: &[u8]) -> Result<(), AllocError>
        ensures ok { OnOk result (self.new ≡ self.old ++ bytes.now) }
        ensures err { OnErr result (self.new ≡ self.old) }
    {
        self.push_three(bytes, &[], &[])
    }

    /// Has three parts wait behind those that are there, of which the second is taken over as it lies
    /// where it is long. It fails only for want of memory, and then nothing has changed.
    pub fn push_parts(
        &mut self,
        before: &[u8],
        bytes: Vec<u8>,
        behind: &[u8],
    ) -> Result<(), AllocError>
        ensures ok { OnOk result (self.new ≡ self.old ++ (before.now ++ (bytes.items ++ behind.now))) }
        ensures err { OnErr result (self.new ≡ self.old) }
    {
        if bytes.len() > LONG {
            self.push_long(before, bytes, behind)
        } else {
            self.push_three(before, bytes.as_slice(), behind)
        }
    }

    // Copies three parts behind those that are there.
    fn push_three(&mut self, a: &[u8], b: &[u8], c: &[u8]) -> Result<(), AllocError>
        ensures ok { OnOk result (self.new ≡ self.old ++ (a.now ++ (b.now ++ c.now))) }
        ensures err { OnErr result (self.new ≡ self.old) }
    {
        let waits = more_than(self.waits, a.len(), b.len(), c.len())?;
        self.tidy()?;
        append_three(&mut self.last, a, b, c)?;
        self.waits = waits;
        Ok(())
    }

    // Takes the second part over as it lies.
    fn push_long(&mut self, before: &[u8], long: Vec<u8>, behind: &[u8]) -> Result<(), AllocError>
        requires { 0 < vec_len long }
        ensures ok { OnOk result (self.new ≡ self.old ++ (before.now ++ (long.items ++ behind.now))) }
        ensures err { OnErr result (self.new ≡ self.old) }
    {
        let waits = more_than(self.waits, before.len(), long.len(), behind.len())?;
        let behind = Vec::from_slice(self.alloc, behind)?;
        self.chunks.reserve(2)?;
        self.last.extend_from_slice(before)?;
        let last = mem::replace(&mut self.last, behind);
        take_over(&mut self.chunks, last, long);
        self.waits = waits;
        Ok(())
    }

    // Forgets the bytes that have gone, once they are more than those that lie with them.
    fn tidy(&mut self) -> Result<(), AllocError>
        ensures { self.new ≡ self.old }
    {
        if self.chunks.is_empty() && self.gone > self.waits {
            self.last = Vec::from_slice(self.alloc, &self.last.as_slice()[self.gone..])?;
            self.gone = 0;
        }
        Ok(())
    }

    /// Lets so many bytes go from the front.
    pub fn pass(&mut self, count: usize)
        requires { count ≤ length self.old }
        ensures { self.new ≡ drop count self.old }
    {
        let mut left = count;
        'chunks: while left > 0 {
            let passed = self.pass_some(left);
            left -= passed;
        }
    }

    // Lets so many bytes go from the front, or as many as lie together there, and says how many.
    fn pass_some(&mut self, most: usize) -> usize
        ensures went { self.new ≡ drop result self.old }
        ensures most { result ≤ most }
        ensures within { result ≤ length self.old }
        ensures some { 0 < most → 0 < length self.old → 0 < result }
    {
        let front = match self.chunks.front() {
            Some(chunk) => chunk.len(),
            None => self.last.len(),
        };
        let passed = most.min(front - self.gone);
        self.gone += passed;
        self.waits -= passed;
        if self.gone == front {
            self.gone = 0;
            match self.chunks.pop_front() {
                Some(_) => {}
                None => self.last = Vec::new(self.alloc),
            }
        }
        passed
    }
}

// Puts two chunks behind the others, of which the first may be empty.
fn take_over(chunks: &mut VecDeque<Vec<u8>>, last: Vec<u8>, long: Vec<u8>)
    requires room { deque_len chunks.old + 2 ≤ deque_capacity chunks.old }
    requires some { 0 < vec_len long }
    ensures { TakesOver chunks.old.items chunks.new.items last.items long.items }
{
    if !last.is_empty() {
        chunks.push_back_reserved(last);
    }
    chunks.push_back_reserved(long);
}

// So many and three numbers more; it fails where that is no number.
fn more_than(count: usize, a: usize, b: usize, c: usize) -> Result<usize, AllocError>
    ensures { IfOk result (λ n. n ≡ count + (a + (b + c))) }
{
    let some = count.checked_add(a).ok_or(AllocError)?;
    let more = some.checked_add(b).ok_or(AllocError)?;
    more.checked_add(c).ok_or(AllocError)
}

// Appends three parts, or nothing.
fn append_three(to: &mut Vec<u8>, a: &[u8], b: &[u8], c: &[u8]) -> Result<(), AllocError>
    ensures ok { OnOk result (to.new.items ≡ to.old.items ++ (a.now ++ (b.now ++ c.now))) }
    ensures err { OnErr result (to.new.items ≡ to.old.items) }
{
    let kept = to.len();
    let appended = append_all(to, a, b, c);
    if appended.is_err() {
        to.truncate(kept);
    }
    appended
}

// Appends three parts, or a front of them.
fn append_all(to: &mut Vec<u8>, a: &[u8], b: &[u8], c: &[u8]) -> Result<(), AllocError>
    ensures ok { OnOk result (to.new.items ≡ to.old.items ++ (a.now ++ (b.now ++ c.now))) }
    ensures kept { take (vec_len to.old) to.new.items ≡ to.old.items }
{
    to.extend_from_slice(a)?;
    to.extend_from_slice(b)?;
    to.extend_from_slice(c)
}
