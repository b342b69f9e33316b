use crate::checks::{made, must, same};
use std::alloc::Global;
use std::process::Abort;
use sync_ids::{Fixed, GroupDef, GroupId, group_id};
use sync_rules::{Entry, Level};
use visibility_table::Levels;

fn definition(rt: &impl Abort, alloc: Global, major: u32) -> GroupDef {
    let name = made(rt, "note".to_string(alloc));
    made(rt, GroupDef::new(name, major, Vec::new(alloc)))
}

fn id_of(rt: &impl Abort, alloc: Global, major: u32) -> GroupId {
    group_id(&definition(rt, alloc, major))
}

fn add(rt: &impl Abort, alloc: Global, table: &mut Levels, major: u32) {
    let def = definition(rt, alloc, major);
    must(
        rt,
        0,
        table.group(&group_id(&def)).is_none() && table.groups() < 3,
    );
    made(rt, table.reserve(1));
    table.add_group(def);
}

fn add_contact(rt: &impl Abort, table: &mut Levels, number: u8) {
    must(rt, u64::from(number), table.contacts() < 3);
    table.apply(&Entry::Contact(number));
}

fn set(rt: &impl Abort, table: &mut Levels, contact: u8, group: GroupId, level: Level) {
    made(rt, table.reserve(1));
    table.apply(&Entry::Level(contact, group, level));
}

fn table_of(rt: &impl Abort, alloc: Global) -> Levels {
    made(rt, Levels::new(alloc))
}

/// The end of a table, which is proved anew at each place where one goes.
fn let_go(_table: Levels) {}

#[test]
fn numbers_contacts(rt: HostRuntime) {
    let mut table = table_of(&rt, rt.alloc());
    same(&rt, 0, &table.contacts(), &0);
    add_contact(&rt, &mut table, 0);
    add_contact(&rt, &mut table, 1);
    same(&rt, 1, &table.contacts(), &2);
    let_go(table);
}

#[test]
fn numbers_groups(rt: HostRuntime) {
    let mut table = table_of(&rt, rt.alloc());
    let second = id_of(&rt, rt.alloc(), 2);
    add(&rt, rt.alloc(), &mut table, 1);
    add(&rt, rt.alloc(), &mut table, 2);
    same(&rt, 1, &table.group(&second), &Some(1));
    same(&rt, 2, &table.group(&Fixed([7; 32])), &None);
    must(&rt, 3, table.groups() == 2);
    same(&rt, 4, &table.id(1), &second);
    same(&rt, 5, &table.def(0).major(), &1);
    let_go(table);
}

#[test]
fn sets_levels(rt: HostRuntime) {
    let mut table = table_of(&rt, rt.alloc());
    let group = Fixed([7; 32]);
    same(&rt, 0, &table.level(3, &group), &Level::Invisible);
    for level in [Level::Visible, Level::Shared, Level::Invisible] {
        set(&rt, &mut table, 3, group, level);
        same(&rt, 1, &table.level(3, &group), &level);
        same(&rt, 2, &table.level(2, &group), &Level::Invisible);
    }
    let_go(table);
}
