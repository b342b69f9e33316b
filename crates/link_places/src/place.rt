//! A place where links come and go. Times are readings of one clock, in milliseconds; one that goes
//! back puts off what it has put off already.
ghost use Rattle.std.specs.Prelude.{◌≡◌, ◌≤◌};
ghost use Rattle.link_places.specs.Places.{IsPlace, after_down, after_up, doubled, ended_by_node};
ghost use Rattle.link_places.specs.Places.{fresh, heard_at, is_free, is_idle, is_link, is_over, is_up};
ghost use Rattle.link_places.specs.Places.{let_go, lived_long, next_pause, pause_of_next, tried};
ghost use Rattle.link_places.specs.Waking.{end_of, idle_wake};

/// The first pause, in milliseconds.
pub const FIRST_PAUSE: u32 = 1_000;

/// The longest pause, in milliseconds.
pub const LONGEST_PAUSE: u32 = 64_000;

/// How long a link is up that sets the pause of its place back to the first, in milliseconds.
pub const LONG_LIFE: u64 = 60_000;

/// For how long nothing comes on a dialled link that is ended for it, in milliseconds.
pub const IDLE: u64 = 900_000;

/// How a place stands.
#[derive(Clone, Copy, Debug, PartialEq, Eq)]
pub enum Stands {
    /// No link is up, and none is tried.
    Down,
    /// A dial is on its way.
    Tried,
    /// The link of this number is up, since the first of these times; at the second something came
    /// on it, or it came up.
    Up(u8, u64, u64),
}

/// Why a link went down, or a try came to none.
#[derive(Clone, Copy, Debug, PartialEq, Eq)]
pub enum Why {
    /// It ended or failed.
    Ended,
    /// It was closed as redundant: another link to its contact stays.
    Redundant,
    /// The node ended all its sessions, and nothing of it is the peer's doing.
    Era,
}

/// A place of the words.
#[derive(Clone, Copy, Debug, PartialEq, Eq)]
pub struct Place {
    /// The contact at its other end.
    pub contact: u8,
    /// Whether it is dialled; else peers come to it.
    pub dials: bool,
    /// How it stands.
    pub stands: Stands,
    /// The time from which on it waits.
    pub from: u64,
    /// How long it waits from then on, in milliseconds.
    pub wait: u32,
    /// The pause behind the next link that does not live long, in milliseconds.
    pub pause: u32,
    /// Whether it lost its last link as redundant.
    pub lost: bool,
}

/// A place where nothing happened yet. It may be tried at once.
pub fn new_place(contact: u8, dials: bool) -> Place
    ensures value { result ≡ fresh contact dials }
    ensures within { IsPlace result }
{
    Place {
        contact,
        dials,
        stands: Stands::Down,
        from: 0,
        wait: 0,
        pause: FIRST_PAUSE,
        lost: false,
    }
}

impl Place {
    /// Whether a link is up here.
    pub fn is_up(&self) -> bool
        ensures { result ≡ is_up self.now.stands }
    {
        matches!(self.stands, Stands::Up(_, _, _))
    }

    /// Whether its pause is over.
    pub fn is_over(&self, now: u64) -> bool
        ensures { result ≡ is_over now self.now }
    {
        u64::from(self.wait) <= now.saturating_sub(self.from)
    }

    /// Whether a link may come here by how it stands: none is up and no dial is on its way; where
    /// peers come a new one takes the place of one that is up.
    pub fn is_free(&self) -> bool
        ensures { result ≡ is_free self.now }
    {
        match self.stands {
            Stands::Down => true,
            Stands::Tried => false,
            Stands::Up(_, _, _) => !self.dials,
        }
    }

    /// Whether nothing came for long on the link that was dialled here.
    pub fn is_idle(&self, now: u64) -> bool
        ensures { result ≡ is_idle now self.now }
    {
        match self.stands {
            Stands::Up(_, _, heard) => self.dials && IDLE <= now.saturating_sub(heard),
            Stands::Down | Stands::Tried => false,
        }
    }

    /// Whether the link of this number is up here.
    pub fn has_link(&self, link: u8) -> bool
        ensures { result ≡ is_link link self.now.stands }
    {
        match self.stands {
            Stands::Up(number, _, _) => number == link,
            Stands::Down | Stands::Tried => false,
        }
    }

    /// The time from which on the dialled link that is up here is idle, where that is yet to come.
    pub fn idle_wake(&self, now: u64) -> Option<u64>
        ensures { result ≡ idle_wake now self.now }
    {
        match self.stands {
            Stands::Up(_, _, heard) if self.dials => end_of(now, heard, IDLE),
            Stands::Up(_, _, _) | Stands::Down | Stands::Tried => None,
        }
    }

    // Whether the link that is up here has been up for long.
    fn lived_long(&self, now: u64) -> bool
        ensures { result ≡ lived_long now self.now.stands }
    {
        match self.stands {
            Stands::Up(_, since, _) => LONG_LIFE <= now.saturating_sub(since),
            Stands::Down | Stands::Tried => false,
        }
    }

    // The pause behind the link that is up here, or behind a try that came to none.
    fn next_pause(&self, now: u64) -> u32
        requires { IsPlace self.now }
        ensures value { result ≡ next_pause now self.now }
        ensures least { FIRST_PAUSE ≤ result }
        ensures most { result ≤ LONGEST_PAUSE }
    {
        if self.lived_long(now) {
            FIRST_PAUSE
        } else {
            self.pause
        }
    }

    /// The place, where a dial went out.
    pub fn tried(self) -> Place
        requires { IsPlace self }
        ensures value { result ≡ tried self }
        ensures within { IsPlace result }
    {
        Place {
            stands: Stands::Tried,
            ..self
        }
    }

    /// The place, where a link of this number came up.
    pub fn after_up(self, link: u8, now: u64) -> Place
        requires { IsPlace self }
        ensures value { result ≡ after_up link now self }
        ensures within { IsPlace result }
    {
        let pause = self.pause_of_next(now);
        Place {
            stands: Stands::Up(link, now, now),
            from: now,
            wait: pause,
            pause,
            lost: false,
            ..self
        }
    }

    // The pause of the link that comes up: one that takes the place of another has a longer one.
    fn pause_of_next(&self, now: u64) -> u32
        requires { IsPlace self.now }
        ensures value { result ≡ pause_of_next now self.now }
        ensures least { FIRST_PAUSE ≤ result }
        ensures most { result ≤ LONGEST_PAUSE }
    {
        if !self.is_up() {
            self.pause
        } else if self.lived_long(now) {
            FIRST_PAUSE
        } else {
            doubled(self.pause)
        }
    }

    /// The place, where its link went down or a try came to none.
    pub fn after_down(self, now: u64, why: Why) -> Place
        requires { IsPlace self }
        ensures value { result ≡ after_down now why self }
        ensures within { IsPlace result }
    {
        match why {
            Why::Era => self.let_go(),
            Why::Ended | Why::Redundant => {
                let pause = self.next_pause(now);
                Place {
                    stands: Stands::Down,
                    from: now,
                    wait: pause,
                    pause: doubled(pause),
                    lost: why == Why::Redundant,
                    ..self
                }
            }
        }
    }

    /// The place, where the node ended all its sessions.
    pub fn ended_by_node(self) -> Place
        requires { IsPlace self }
        ensures value { result ≡ ended_by_node self }
        ensures within { IsPlace result }
    {
        if self.is_up() { self.let_go() } else { self }
    }

    // The place without its link; it need not wait.
    fn let_go(self) -> Place
        requires { IsPlace self }
        ensures value { result ≡ let_go self }
        ensures within { IsPlace result }
    {
        Place {
            stands: Stands::Down,
            wait: 0,
            ..self
        }
    }

    /// The place, where something came on its link.
    pub fn heard_at(self, now: u64) -> Place
        requires { IsPlace self }
        ensures value { result ≡ heard_at now self }
        ensures within { IsPlace result }
    {
        match self.stands {
            Stands::Up(link, since, _) => Place {
                stands: Stands::Up(link, since, now),
                ..self
            },
            Stands::Down | Stands::Tried => self,
        }
    }
}

// The pause behind this one.
fn doubled(pause: u32) -> u32
    requires { pause ≤ LONGEST_PAUSE }
    ensures value { result ≡ doubled pause }
    ensures least { FIRST_PAUSE ≤ pause → FIRST_PAUSE ≤ result }
    ensures most { result ≤ LONGEST_PAUSE }
{
    (2 * pause).min(LONGEST_PAUSE)
}

/// This long behind a time, where that is yet to come.
pub fn end_of(now: u64, from: u64, long: u64) -> Option<u64>
    ensures { result ≡ end_of now from long }
{
    if now.saturating_sub(from) < long {
        Some(from.saturating_add(long))
    } else {
        None
    }
}
