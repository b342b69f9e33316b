//! The links of a node that stays.
ghost use Rattle.std.specs.Prelude.{◌≡◌};
ghost use Rattle.stay_words.specs.Limits.{AreStaying};

use std::marker::Model;
use sync_words::LinkWords;

/// The links of a node that stays, 0 to 8 of them in the order of the words; none is `std`.
/// Contracts see the list.
#[derive(Debug, Drop)]
pub struct LinksOfStay {
    links: Vec<LinkWords>,
}

impl Model for LinksOfStay {
    ghost use Rattle.std.specs.Prelude.{List};
    ghost use Rattle.stay_words.specs.Limits.{AreStaying};
    ghost use Rattle.sync_words.specs.declared.link_words.LinkWords.{LinkWords};

    ghost Value = { List LinkWords };

    ghost view = { λ l. l.links.items };

    ghost invariant = { λ l. AreStaying l.links.items };
}

impl LinksOfStay {
    /// The links in this order. It takes no memory.
    pub fn new(links: Vec<LinkWords>) -> LinksOfStay
        requires { AreStaying links.items }
        ensures { result ≡ links.items }
    {
        LinksOfStay { links }
    }

    /// The links, in order.
    pub fn as_slice(&self) -> &[LinkWords]
        ensures links { result.now ≡ self.now }
        ensures within { AreStaying result.now }
    {
        self.links.as_slice()
    }

    /// The links, in order. It takes no memory.
    pub fn into_links(self) -> Vec<LinkWords>
        ensures links { result.items ≡ self }
        ensures within { AreStaying result.items }
    {
        let LinksOfStay { links } = self;
        links
    }
}
