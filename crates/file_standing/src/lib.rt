//! What two files stand for: no store, a damaged one, or a journal. The definition and its laws
//! alone; the laws are the contracts of functions that do nothing.
#![tactic(auto)]

ghost use Rattle.file_standing.specs.Laws.{FilesStand, FilesStandForOne};

/// Files of bytes stand for what they hold: for no store where no header is open; for the legal
/// journal that they have whole; or for a damaged store, at the place where they break off.
pub fn files_stand()
    ensures { FilesStand }
{}

/// Files of bytes hold one thing alone, which is what they stand for.
pub fn files_stand_for_one()
    ensures { FilesStandForOne }
{}
