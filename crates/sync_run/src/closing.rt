// How the links of a run end.
ghost use Rattle.std.specs.Prelude.{◌≡◌, ◌≤◌, length, IfOk};
ghost use Rattle.outside.specs.declared.limits.TheConstants.{LINKS};
ghost use Rattle.sync_run.specs.Parts.{closed_by};

use outside::LINKS;
use std::alloc::{AllocError, Global};
use sync_node::Node;
use sync_words::LinkEnds;

/// How the links of a node, so many of them, end whose run is over or not. It fails only for want
/// of memory.
pub fn close(alloc: Global, node: &Node, count: u8, over: bool) -> Result<LinkEnds, AllocError>
    requires all { count ≡ length node.now.links }
    requires few { count ≤ LINKS }
    ensures { IfOk result (λ ends. ends ≡ closed_by over node.now.links) }
{
    let mut ends = Vec::with_capacity(alloc, LINKS)?;
    'links: for link in 0..count {
        ends.push(node.ending(link))?;
    }
    Ok(LinkEnds::new(over, ends))
}
