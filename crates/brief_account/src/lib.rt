//! The brief account of a journal: another journal that makes known the same, but for the sessions
//! that are over. Its laws are the contracts of functions that do nothing, over every journal and
//! over every meaning of the clients.
#![tactic(auto)]

ghost use Rattle.brief_account.specs.Laws.{BriefIsByFacts, BriefKeepsFacts};

/// Keeps: the brief account of a legal and settled journal is legal and settled, and its facts are
/// those of the journal, but that it begins with a brief account and no session of it goes on.
pub fn keeps()
    ensures { BriefKeepsFacts }
{}

/// By facts: the brief account of a legal and settled journal is a function of its facts.
pub fn by_facts()
    ensures { BriefIsByFacts }
{}
