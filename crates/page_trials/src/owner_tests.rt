//! A small set of rules, whose answers were worked out by hand.

use crate::crossing::crosses;
use crate::same::{holds, same};
use dn_model::{Target, Way};
use owner_tree::{Owners, Rule};
use std::alloc::Global;
use std::process::Abort;

fn rule(len: u8, metric: u32) -> Rule {
    Rule {
        len,
        metric,
        way: Way::Straight(Target::Exit(metric)),
    }
}

/// A rule by which the packets are the router's own.
fn own_rule(len: u8, metric: u32) -> Rule {
    Rule {
        len,
        metric,
        way: Way::Straight(Target::Local),
    }
}

fn insert(rt: &impl Abort, owners: &mut Owners, rule: Rule) {
    owners.insert(rule).expect(rt, "memory");
}

/// Takes a rule out. It answers whether it was there.
fn remove(owners: &mut Owners, len: u8, metric: u32) -> bool {
    owners.remove(len, metric)
}

fn clear(owners: &mut Owners, len: u8, metric: Option<u32>) {
    owners.clear(len, metric);
}

fn copied(rt: &impl Abort, owners: &Owners) -> Owners {
    owners.copy().expect(rt, "memory")
}

/// This rule is in force.
fn compare_top(rt: &impl Abort, owners: &Owners, want: Option<Rule>) {
    same(rt, &owners.top(), &want);
}

fn three_rules(rt: &impl Abort, alloc: Global) -> Owners {
    let mut owners = Owners::new(alloc);
    insert(rt, &mut owners, rule(8, 20));
    insert(rt, &mut owners, rule(16, 30));
    insert(rt, &mut owners, rule(16, 7));
    crosses(&owners);
    owners
}

#[test]
fn the_least_metric_of_the_longest_prefix_is_in_force(rt: HostRuntime) {
    let mut owners = three_rules(&rt, rt.alloc());
    let before = copied(&rt, &owners);
    compare_top(&rt, &owners, Some(rule(16, 7)));
    holds(&rt, remove(&mut owners, 16, 7));
    compare_top(&rt, &owners, Some(rule(16, 30)));
    holds(&rt, !remove(&mut owners, 16, 7));
    compare_top(&rt, &before, Some(rule(16, 7)));
    insert(&rt, &mut owners, rule(16, 7));
    clear(&mut owners, 16, None);
    compare_top(&rt, &owners, Some(rule(8, 20)));
    clear(&mut owners, 8, Some(20));
    compare_top(&rt, &owners, None);
}

#[test]
fn the_newest_of_equal_lengths_is_not_in_force(rt: HostRuntime) {
    let mut owners = Owners::new(rt.alloc());
    insert(&rt, &mut owners, rule(24, 5));
    insert(&rt, &mut owners, rule(24, 20));
    compare_top(&rt, &owners, Some(rule(24, 5)));
}

#[test]
fn a_rule_alone_gives_way_and_comes_back(rt: HostRuntime) {
    let mut owners = Owners::new(rt.alloc());
    insert(&rt, &mut owners, rule(24, 5));
    insert(&rt, &mut owners, own_rule(24, 5));
    let alone = copied(&rt, &owners);
    holds(&rt, !remove(&mut owners, 24, 6));
    holds(&rt, remove(&mut owners, 24, 5));
    holds(&rt, !owners.has_length(24));
    let none = copied(&rt, &owners);
    insert(&rt, &mut owners, rule(16, 1));
    insert(&rt, &mut owners, rule(24, 2));
    holds(&rt, remove(&mut owners, 24, 2));
    holds(&rt, owners.has_length(16));
    compare_top(&rt, &owners, Some(rule(16, 1)));
    compare_top(&rt, &alone, Some(own_rule(24, 5)));
    compare_top(&rt, &none, None);
}

#[test]
fn a_third_rule_comes_and_goes(rt: HostRuntime) {
    let mut owners = Owners::new(rt.alloc());
    insert(&rt, &mut owners, rule(8, 1));
    insert(&rt, &mut owners, rule(16, 2));
    insert(&rt, &mut owners, own_rule(8, 1));
    let two = copied(&rt, &owners);
    insert(&rt, &mut owners, rule(24, 3));
    insert(&rt, &mut owners, rule(24, 4));
    let four = copied(&rt, &owners);
    clear(&mut owners, 24, None);
    compare_top(&rt, &owners, Some(rule(16, 2)));
    holds(&rt, remove(&mut owners, 16, 2));
    compare_top(&rt, &owners, Some(own_rule(8, 1)));
    insert(&rt, &mut owners, rule(8, 5));
    clear(&mut owners, 8, None);
    compare_top(&rt, &owners, None);
    compare_top(&rt, &two, Some(rule(16, 2)));
    compare_top(&rt, &four, Some(rule(24, 3)));
}

/// The rules of a length are cleared, of which there is one.
fn clear_length(rt: &impl Abort, owners: &mut Owners, len: u8) {
    holds(rt, owners.has_length(len));
    owners.clear(len, None);
    holds(rt, !owners.has_length(len));
}

#[test]
fn a_ninth_rule_comes_and_all_go(rt: HostRuntime) {
    let mut owners = Owners::new(rt.alloc());
    for len in 1..9 {
        insert(&rt, &mut owners, rule(len, 7));
    }
    insert(&rt, &mut owners, own_rule(8, 7));
    let eight = copied(&rt, &owners);
    insert(&rt, &mut owners, rule(9, 7));
    let nine = copied(&rt, &owners);
    compare_top(&rt, &owners, Some(rule(9, 7)));
    clear(&mut owners, 9, Some(7));
    compare_top(&rt, &owners, Some(own_rule(8, 7)));
    for len in 1..9 {
        clear_length(&rt, &mut owners, len);
    }
    compare_top(&rt, &owners, None);
    compare_top(&rt, &eight, Some(own_rule(8, 7)));
    compare_top(&rt, &nine, Some(rule(9, 7)));
}
