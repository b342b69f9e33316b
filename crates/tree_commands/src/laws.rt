//! What is true of every tree. The function does nothing; its clause is the law.
ghost use Rattle.tree_commands.specs.Trees.{RepliesToFirst};

use sync_rules::growth::served;

/// Replies: in a legal journal each message of a tree whose verdict has a dependency replies to the
/// first one, which stands before it.
pub fn replies_to_first()
    ensures { RepliesToFirst }
{
    served();
}
