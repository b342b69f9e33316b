//! What the client of a held message says of it.
ghost use Rattle.std.specs.Prelude.{◌≡◌, true, IfOk};
ghost use Rattle.journal_audit.specs.Answered.{is_refused, plain};
ghost use Rattle.journal_audit.specs.Sleeping.{deps_in};
ghost use Rattle.journal_audit.specs.Standing.{shares};

use std::alloc::{AllocError, Global};
use std::marker::Model;
use sync_ids::MessageId;
use sync_rules::Judgement;

/// A client's judgement of a message, in little room where the message waits for nothing and may be
/// sent on. Contracts see the judgement.
#[derive(Drop)]
pub(crate) struct Answer {
    // Any other judgement.
    other: Option<Box<Judgement>>,
}

impl Model for Answer {
    ghost use Rattle.sync_rules.specs.declared.answers.Judgement.{Judgement};
    ghost use Rattle.journal_audit.specs.Answered.{judgement_of};

    ghost Value = { Judgement };

    ghost view = { λ a. judgement_of a.other };
}

// Whether a judgement has no dependencies, and lets its message be sent on.
fn is_plain(judgement: &Judgement) -> bool
    ensures { result ≡ true → judgement.now ≡ plain }
{
    match judgement {
        Judgement::Refuse => false,
        Judgement::Accept { deps, share } => *share && deps.as_slice().is_empty(),
    }
}

impl Answer {
    /// The answer that is this judgement. It fails only for want of memory.
    pub(crate) fn new(alloc: Global, judgement: Judgement) -> Result<Answer, AllocError>
        ensures { IfOk result (λ a. a ≡ judgement) }
    {
        if is_plain(&judgement) {
            return Ok(Answer { other: None });
        }
        let kept = Box::new(alloc, judgement)?;
        Ok(Answer { other: Some(kept) })
    }

    /// Whether the message is refused.
    pub(crate) fn is_refused(&self) -> bool
        ensures { result ≡ is_refused self.now }
    {
        match &self.other {
            None => false,
            Some(judgement) => is_refusal(judgement),
        }
    }

    /// The messages that it depends on: none where it is refused.
    pub(crate) fn deps(&self) -> &[MessageId]
        ensures { result.now ≡ deps_in self.now }
    {
        match &self.other {
            None => &[],
            Some(judgement) => deps_in(judgement),
        }
    }

    /// Whether it may be sent on.
    pub(crate) fn shares(&self) -> bool
        ensures { result ≡ shares self.now }
    {
        match &self.other {
            None => true,
            Some(judgement) => shares(judgement),
        }
    }
}

// Whether a judgement refuses its message.
fn is_refusal(judgement: &Judgement) -> bool
    ensures { result ≡ is_refused judgement.now }
{
    match judgement {
        Judgement::Refuse => true,
        Judgement::Accept { .. } => false,
    }
}

// The dependencies of a message of which its client says this.
fn deps_in(judgement: &Judgement) -> &[MessageId]
    ensures { result.now ≡ deps_in judgement.now }
{
    match judgement {
        Judgement::Refuse => &[],
        Judgement::Accept { deps, .. } => deps.as_slice(),
    }
}

// Whether a judgement lets its message be sent on.
fn shares(judgement: &Judgement) -> bool
    ensures { result ≡ shares judgement.now }
{
    match judgement {
        Judgement::Refuse => false,
        Judgement::Accept { share, .. } => *share,
    }
}
