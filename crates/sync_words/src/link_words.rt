//! The words of the links of a command.
ghost use Rattle.std.specs.Prelude.{◌≡◌};
ghost use Rattle.sync_words.specs.Links.{has_nonce, AreLinks};

use crate::spec::is_dialled;
use crate::word::Word;
use std::marker::Model;
use sync_rules::Mode;

/// A link of a command: who is at its other end, how the session sends, and where the link is.
#[derive(Debug, Drop)]
pub struct LinkWords {
    /// The contact at the other end.
    pub contact: u8,
    /// How the session sends.
    pub mode: Mode,
    /// The greatest expected time of one way, in milliseconds, at least 1.
    pub latency: u32,
    /// What the link is: `std`, or a kind, a colon and a place.
    pub spec: Word,
}

impl LinkWords {
    /// Whether the link's session has a nonce: it is interactive, and the link is dialled.
    pub fn has_nonce(&self) -> bool
        ensures { result ≡ has_nonce self.now }
    {
        match self.mode {
            Mode::Interactive => is_dialled(self.spec.as_str()),
            Mode::Batch => false,
        }
    }
}

/// The links of a command, 1 to 8 of them in the order of the words. Contracts see the list.
#[derive(Debug, Drop)]
pub struct LinkList {
    links: Vec<LinkWords>,
}

impl Model for LinkList {
    ghost use Rattle.std.specs.Prelude.{List};
    ghost use Rattle.sync_words.specs.Links.{AreLinks};
    ghost use Rattle.sync_words.specs.declared.link_words.LinkWords.{LinkWords};

    ghost Value = { List LinkWords };

    ghost view = { λ l. l.links.items };

    ghost invariant = { λ l. AreLinks l.links.items };
}

impl LinkList {
    /// The links in this order. It takes no memory.
    pub fn new(links: Vec<LinkWords>) -> LinkList
        requires { AreLinks links.items }
        ensures { result ≡ links.items }
    {
        LinkList { links }
    }

    /// The links, in order.
    pub fn as_slice(&self) -> &[LinkWords]
        ensures links { result.now ≡ self.now }
        ensures within { AreLinks result.now }
    {
        self.links.as_slice()
    }
}
