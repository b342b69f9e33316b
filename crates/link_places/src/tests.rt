// A peer that flaps a thousand times, and what else the places of a node that stays do. The times of the former are
// those of oracle/places.py, from the rule alone.
use crate::{Places, Stands, Why};
use std::alloc::{AllocError, Global};
use std::fmt::Debug;
use std::process::Abort;

// How many links a peer that flaps has.
const LINKS: usize = 1_000;

// Of which of them the times are told: of these, counted from 1.
const TOLD: [usize; 8] = [1, 2, 3, 7, 8, 9, 100, 1_000];

fn same<T: PartialEq + Debug>(rt: &impl Abort, got: &T, want: &T) {
    assert_eq!(rt; *got, *want);
}

// The times at which the links of one place come up, each as soon as the machine of places lets it. Each lives so long;
// or until another takes its place.
fn times(alloc: Global, dials: bool, life: Option<u64>) -> Result<Vec<u64>, AllocError> {
    let mut places = Places::new(alloc);
    places.add(3, dials)?;
    let mut found = Vec::new(alloc);
    let mut now: u64 = 0;
    for link in 0..LINKS {
        if !places.may_try(0, now) {
            now = places.next_wake(now).unwrap_or(u64::MAX);
        }
        if places.may_try(0, now) {
            found.push(now)?;
            places.came_up(0, (link % 256) as u8, now);
        }
        if let Some(life) = life {
            now = now.saturating_add(life);
            places.went_down(0, now, Why::Ended);
        }
    }
    Ok(found)
}

fn check_times(rt: &impl Abort, alloc: Global, dials: bool, life: Option<u64>, want: [u64; 8]) {
    match times(alloc, dials, life) {
        Ok(found) => {
            for row in 0..TOLD.len() {
                let place = TOLD[row] - 1;
                same(rt, &found.as_slice().get(place).copied(), &Some(want[row]));
            }
        }
        Err(AllocError) => same(rt, &true, &false),
    }
}

#[test]
fn flapping(rt: HostRuntime) {
    let alloc = rt.alloc();
    let at_once = [
        0, 1_000, 3_000, 63_000, 127_000, 191_000, 6_015_000, 63_615_000,
    ];
    let nearly = [
        0,
        60_999,
        122_998,
        422_994,
        546_993,
        670_992,
        11_954_901,
        123_554_001,
    ];
    let long = [
        0, 61_000, 122_000, 366_000, 427_000, 488_000, 6_039_000, 60_939_000,
    ];
    let replaced = [
        0, 1_000, 3_000, 63_000, 127_000, 128_000, 1_779_000, 18_065_000,
    ];
    for dials in [true, false] {
        check_times(&rt, alloc, dials, Some(0), at_once);
        check_times(&rt, alloc, dials, Some(59_999), nearly);
        check_times(&rt, alloc, dials, Some(60_000), long);
    }
    check_times(&rt, alloc, false, None, replaced);
}

// Two places of one contact and one of another, none of them tried yet.
fn three(alloc: Global) -> Result<Places, AllocError> {
    let mut places = Places::new(alloc);
    places.add(3, true)?;
    places.add(3, false)?;
    places.add(4, true)?;
    Ok(places)
}

#[test]
fn redundant(rt: HostRuntime) {
    let Ok(mut places) = three(rt.alloc()) else {
        return same(&rt, &true, &false);
    };
    places.came_up(0, 0, 10);
    places.came_up(1, 1, 20);
    same(&rt, &places.place_of(1), &Some(1));
    places.went_down(0, 30, Why::Redundant);
    // It waits for as long as the other link of its contact is up, however long that is.
    same(&rt, &places.may_try(0, 1_000_000), &false);
    same(&rt, &places.next_wake(2_000_000), &None);
    places.went_down(1, 1_000_000, Why::Ended);
    same(&rt, &places.may_try(0, 1_000_000), &true);
    same(&rt, &places.may_try(1, 1_000_000), &false);
    same(&rt, &places.next_wake(1_000_000), &Some(1_001_000));
    same(&rt, &places.place_of(1), &None);
}

#[test]
fn silence_and_eras(rt: HostRuntime) {
    let Ok(mut places) = three(rt.alloc()) else {
        return same(&rt, &true, &false);
    };
    places.tries(0);
    same(&rt, &places.may_try(0, 0), &false);
    places.came_up(0, 7, 0);
    places.heard(0, 100_000);
    same(&rt, &places.next_wake(100_000), &Some(1_000_000));
    same(&rt, &places.is_idle(0, 999_999), &false);
    same(&rt, &places.is_idle(0, 1_000_000), &true);
    places.fill();
    same(&rt, &places.may_try(2, 5), &false);
    places.end_era();
    same(&rt, &places.may_try(0, 1_000_000), &false);
    same(&rt, &places.next_wake(0), &None);
    places.make_room();
    // Who went down since the node ended all its sessions need not wait.
    same(&rt, &places.may_try(0, 0), &true);
    same(
        &rt,
        &places.as_slice().get(0).map(|p| p.stands),
        &Some(Stands::Down),
    );
    same(&rt, &places.may_try(9, 0), &false);
    same(&rt, &places.is_idle(9, 0), &false);
}
