//! What the reading of files comes to. The function does nothing; its clause is the law.
ghost use Rattle.mailbox_commands.specs.Laws.{MailIsBoxed};

use mailbox_core::laws::reads_are_boxes;

/// A run of `mailbox in` that took its whole file leaves a journal into which that file was read as
/// the law of sets has it. So the journals of several runs are such as that law speaks of.
pub fn mail_is_boxed()
    ensures { MailIsBoxed }
{
    reads_are_boxes();
}
