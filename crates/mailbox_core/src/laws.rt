//! What the reading and the writing of files come to over journals. Each function's clause is the
//! law; none does anything.
ghost use Rattle.mailbox_core.specs.Laws.{OutputsAreSent, ReadsAreBoxes};

/// A file that is read into a legal and settled journal is read as the law of sets has it.
pub fn reads_are_boxes()
    ensures { ReadsAreBoxes }
{}

/// What batches add to the output of a session that begins with them is all that it sends.
pub fn outputs_are_sent()
    ensures { OutputsAreSent }
{}
