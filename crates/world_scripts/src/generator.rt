//! Worlds that are made from a seed.
ghost use Rattle.std.specs.Prelude.{◌≡◌, ◌+◌, ◌<◌, ◌≤◌, ◌==◌, IfOk, OnErr, OnOk, codes};
ghost use Rattle.std.specs.Prelude.{option_to_list, slice_get};
ghost use Rattle.world_scripts.specs.Generator.{number_behind, is_rest_behind, IsNextStep};
ghost use Rattle.world_scripts.specs.Generator.{opening_steps};
ghost use Rattle.world_scripts.specs.Generator.{post_of, steps_of, label_text};

use crate::lists::{Labels, Text};
use crate::step::{THREAD, WorldStep};
use std::alloc::{AllocError, Global};
use std::marker::Model;
use sync_rules::{Level, Mode};
use sync_words::Word;

/// The most posts of a generated world.
pub const MAX_POSTS: u32 = 100_000;

/// How many devices a generated world has.
pub const GENERATED_DEVICES: u8 = 2;

// How many posts stand between two rests.
const POSTS_TO_REST: u32 = 100;

// The most rounds of each rest.
const ROUNDS: u32 = 1_000;

// The steps before the first post.
const OPENING_STEPS: u8 = 5;

// What the numbers are drawn by.
const FACTOR: u64 = 6_364_136_223_846_793_005;

const SUMMAND: u64 = 1_442_695_040_888_963_407;

// The posts of a generated world: which of them is the next. Contracts see the seed, how many posts
// there are, and how many of them were made.
#[derive(Debug, Drop)]
struct Posts {
    seed: u64,
    count: u32,
    posted: u32,
    // The number that was drawn last, and each device's last post.
    number: u64,
    last_of_first: Option<u64>,
    last_of_second: Option<u64>,
}

impl Model for Posts {
    ghost use Rattle.world_scripts.specs.Generator.{IsPosition, Position};

    ghost Value = { Position };

    ghost view = { λ p. record { seed = p.seed; count = p.count; posted = p.posted } };

    ghost invariant = { λ p. IsPosition p.seed p.count p.posted p.number p.last_of_first
        p.last_of_second };
}

impl Posts {
    fn new(seed: u64, count: u32) -> Posts
        requires { count ≤ MAX_POSTS }
        ensures { result ≡ record { seed = seed; count = count; posted = 0 } }
    {
        Posts {
            seed,
            count,
            posted: 0,
            number: seed,
            last_of_first: None,
            last_of_second: None,
        }
    }

    fn is_over(&self) -> bool
        ensures over { result ≡ (self.now.posted == self.now.count) }
        ensures within { self.now.posted ≤ self.now.count }
    {
        self.posted == self.count
    }

    // Whether a rest stands behind the posts that were made.
    fn rests(&self) -> bool
        ensures { result ≡ is_rest_behind self.now.count self.now.posted }
    {
        self.posted % POSTS_TO_REST == 0 || self.posted == self.count
    }

    // The next post.
    fn next_post(&mut self, alloc: Global) -> Result<WorldStep, AllocError>
        requires { self.old.posted < self.old.count }
        ensures ok { IfOk result (λ step. step ≡ post_of self.old.seed self.old.posted) }
        ensures moved { OnOk result (self.new ≡ record self.old { posted = self.old.posted + 1 }) }
        ensures err { OnErr result (self.new ≡ self.old) }
    {
        let number = advanced(self.number);
        let is_second = (number >> 33) % 2 == 1;
        let label = u64::from(self.posted);
        if is_second {
            let step = post(alloc, 1, label, self.last_of_second)?;
            self.number = number;
            self.last_of_second = Some(label);
            self.posted += 1;
            return Ok(step);
        }
        let step = post(alloc, 0, label, self.last_of_first)?;
        self.number = number;
        self.last_of_first = Some(label);
        self.posted += 1;
        Ok(step)
    }
}

/// What is left of the steps of a generated world of two devices. Contracts see the list of these
/// steps. It takes memory for the step at hand alone.
#[derive(Debug, Drop)]
pub struct Generator {
    // How many of the first steps were made.
    opened: u8,
    // Whether a rest stands before the next post.
    rests: bool,
    posts: Posts,
}

impl Model for Generator {
    ghost use Rattle.std.specs.Prelude.{List};
    ghost use Rattle.world_scripts.specs.declared.step.WorldStep.{WorldStep};
    ghost use Rattle.world_scripts.specs.Generator.{steps_left};

    ghost Value = { List WorldStep };

    ghost view = { λ g. steps_left g.opened g.rests g.posts };
}

impl Generator {
    /// The steps of the world of this seed with so many posts.
    pub fn new(seed: u64, count: u32) -> Generator
        requires { count ≤ MAX_POSTS }
        ensures { result ≡ steps_of seed count }
    {
        Generator {
            opened: 0,
            rests: false,
            posts: Posts::new(seed, count),
        }
    }

    /// The next step; `None` at the end. It fails only for want of memory, and then all is as
    /// before.
    pub fn next_step(&mut self, alloc: Global) -> Result<Option<WorldStep>, AllocError>
        ensures ok { IfOk result (IsNextStep self.old self.new) }
        ensures err { OnErr result (self.new ≡ self.old) }
    {
        if self.opened < OPENING_STEPS {
            let step = opening_step(alloc, self.opened)?;
            self.opened += 1;
            return Ok(Some(step));
        }
        if self.rests {
            self.rests = false;
            return Ok(Some(WorldStep::Rest(ROUNDS)));
        }
        if self.posts.is_over() {
            return Ok(None);
        }
        let step = self.posts.next_post(alloc)?;
        self.rests = self.posts.rests();
        Ok(Some(step))
    }
}

// The number that follows.
fn advanced(number: u64) -> u64
    ensures { result ≡ number_behind number }
{
    number.wrapping_mul(FACTOR).wrapping_add(SUMMAND)
}

// One of the steps before the first post.
fn opening_step(alloc: Global, place: u8) -> Result<WorldStep, AllocError>
    requires { place < OPENING_STEPS }
    ensures { IfOk result (λ step. slice_get opening_steps place ≡ Some step) }
{
    match place {
        0 => thread_of(alloc, 0),
        1 => thread_of(alloc, 1),
        2 => Ok(WorldStep::Share(0, 1, 0, Level::Shared)),
        3 => Ok(WorldStep::Share(1, 0, 0, Level::Shared)),
        _ => Ok(WorldStep::Link(0, 1, Mode::Interactive, 1_000)),
    }
}

fn thread_of(alloc: Global, device: u8) -> Result<WorldStep, AllocError>
    ensures { IfOk result (λ step. step ≡ WorldStep.Group device THREAD (codes "gen")) }
{
    let descriptor = Word::new(String::from_str(alloc, "gen")?);
    Ok(WorldStep::Group(device, THREAD, descriptor))
}

// The post of this label, behind the device's last one.
fn post(alloc: Global, device: u8, label: u64, last: Option<u64>) -> Result<WorldStep, AllocError>
    ensures { IfOk result (λ step. step ≡ WorldStep.Post device 0 label (option_to_list last)
        (label_text label)) }
{
    let mut parents = Vec::new(alloc);
    if let Some(last) = last {
        parents.push(last)?;
    }
    let text = format!(in alloc; "m{label}")?;
    let text = Text::new(text.into_bytes());
    Ok(WorldStep::Post(device, 0, label, Labels::new(parents), text))
}
