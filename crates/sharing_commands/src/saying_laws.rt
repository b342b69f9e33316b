//! What is true of the words in a `sharing` group. The function cites a law alone; its clause is the
//! law.
ghost use Rattle.sharing_commands.specs.SayingLaws.{LegalSpeaksWell};

use client_sharing::sayings_are_spelled;

/// In a `sharing` group of a legal journal with the four bundled clients: a word within its limits
/// is refused as an invalid post only where it speaks of a group whose client has the name
/// `sharing`; none of its dependencies is missing; and each delivered message is a word, so that
/// none is passed over where the words of both are read.
pub fn words_are_well_said()
    ensures { LegalSpeaksWell }
{
    sayings_are_spelled();
}
