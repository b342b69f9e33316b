//! `Thread`.
ghost use Rattle.std.specs.Prelude.{◌≡◌, [], ◌-◌, ◌^◌, ◌<◌, length, IfOk, IfSome, OnErr, OnOk};
ghost use Rattle.tree_commands.specs.Threads.{parent_among, with_number};

use crate::finished::FinishedThread;
use reply_tree::Replies;
use std::alloc::{AllocError, Global};
use std::marker::Model;

/// The delivered messages of a group and what they reply to, by their arrival numbers. Its items are
/// numbered in the order in which they are added. Contracts see the arrival number and the parent
/// of each item, and the number of held messages.
#[derive(Drop)]
pub(crate) struct Thread {
    replies: Replies,
    numbers: Vec<u32>,
    // The first item of each held message.
    places: Vec<Option<u32>>,
}

impl Model for Thread {
    ghost use Rattle.std.specs.Prelude.{length};
    ghost use Rattle.tree_commands.specs.Threads.{IsThread, ThreadValue};

    ghost Value = { ThreadValue };

    ghost view = { λ t. record {
      numbers = t.numbers.items;
      parents = t.replies;
      held = length t.places.items;
    } };

    ghost invariant = { λ t. IsThread t.numbers.items t.replies t.places.items };
}

impl Thread {
    /// No items yet, for so many held messages. It fails only for want of memory.
    pub(crate) fn new(alloc: Global, held: u32) -> Result<Thread, AllocError>
        ensures { IfOk result (λ t. t ≡ record { numbers = []; parents = []; held = held }) }
    {
        Ok(Thread {
            replies: Replies::new(alloc),
            numbers: Vec::new(alloc),
            places: vec![in alloc; None; held as usize]?,
        })
    }

    /// Adds the message of this arrival number, which replies to the message of that one, if it is
    /// among them. It fails only for want of memory; then all is as before.
    pub(crate) fn add(&mut self, n: u32, replied: Option<u32>) -> Result<(), AllocError>
        requires within { n < self.old.held }
        requires replied { IfSome replied (λ m. m < self.old.held) }
        requires room { length self.old.numbers < 2 ^ 32 - 1 }
        ensures added { OnOk result (self.new ≡ with_number self.old n replied) }
        ensures same { OnErr result (self.new ≡ self.old) }
    {
        let parent = self.parent(replied);
        self.numbers.reserve(1)?;
        let number = self.replies.add(parent)?;
        self.numbers.push(n).unwrap();
        let place = self.places[n as usize].or(Some(number));
        self.places[n as usize] = place;
        Ok(())
    }

    // The item of the message that is replied to.
    fn parent(&self, replied: Option<u32>) -> Option<u32>
        requires replied { IfSome replied (λ m. m < self.now.held) }
        ensures value { result ≡ parent_among self.now.numbers replied }
        ensures earlier { IfSome result (λ p. p < length self.now.parents) }
    {
        match replied {
            Some(m) => self.places[m as usize],
            None => None,
        }
    }

    /// The tree of all items. It fails only for want of memory; then no items are left.
    pub(crate) fn finish(self) -> Result<FinishedThread, AllocError>
        ensures { IfOk result (λ t. t ≡ self) }
    {
        let Thread {
            mut replies,
            numbers,
            places,
        } = self;
        let tree = replies.finish()?;
        Ok(FinishedThread::of(tree, numbers, places.len()))
    }
}
