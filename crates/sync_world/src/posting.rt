//! The body of a post.
ghost use Rattle.std.specs.Prelude.{◌≡◌, ◌≤◌, ◌++◌, IfOk, length, option_to_list, slice_get};
ghost use Rattle.sync_world.specs.Posting.{post_body, head_of, ids_labelled};

use std::alloc::{AllocError, Global};
use sync_ids::MessageId;
use sync_rules::MAX_DEPS;
use world_scripts::{FEED, THREAD};

// What stands in a feed's body in the place of the first message's previous id.
const NO_ID: [u8; 32] = [0; 32];

/// The body of a post of this kind behind these messages: a thread's begins with their number and
/// their ids, a feed's with the one id.
pub(crate) fn body_of(
    alloc: Global,
    kind: u8,
    parents: &[MessageId],
    text: &[u8],
) -> Result<Vec<u8>, AllocError>
    requires { length parents.now ≤ MAX_DEPS }
    ensures { IfOk result (λ body. body.items ≡ post_body kind parents.now text.now) }
{
    let mut body = head_of(alloc, kind, parents)?;
    'parents: for parent in parents {
        body.extend_from_slice(parent.as_bytes())?;
    }
    body.extend_from_slice(text)?;
    Ok(body)
}

// What stands before the ids in such a body.
fn head_of(alloc: Global, kind: u8, parents: &[MessageId]) -> Result<Vec<u8>, AllocError>
    requires { length parents.now ≤ MAX_DEPS }
    ensures { IfOk result (λ head. head.items ≡ head_of kind parents.now) }
{
    let mut head = Vec::new(alloc);
    match kind {
        THREAD => head.push(parents.len() as u8)?,
        FEED if parents.is_empty() => head.extend_from_slice(&NO_ID)?,
        _ => {}
    }
    Ok(head)
}

/// The ids of the posts of these labels, all of which were made.
pub(crate) fn ids_of(
    alloc: Global,
    posts: &[MessageId],
    labels: &[u64],
) -> Result<Vec<MessageId>, AllocError>
    ensures { IfOk result (λ ids. ids.items ≡ ids_labelled posts.now labels.now) }
{
    let mut ids = Vec::new(alloc);
    'labels: for label in labels {
        add_post(posts, *label, &mut ids)?;
    }
    Ok(ids)
}

// The id of the post of this label comes behind these, where there is such a post.
fn add_post(posts: &[MessageId], label: u64, ids: &mut Vec<MessageId>) -> Result<(), AllocError>
    ensures { IfOk result
        (λ _. ids.new.items ≡ ids.old.items ++ option_to_list (slice_get posts.now label)) }
{
    let Some(id) = posts.get(label as usize) else {
        return Ok(());
    };
    ids.push(*id)?;
    Ok(())
}
