//! Sets of rules.

ghost use Rattle.std.specs.Prelude.{true, ◌≡◌, ◌==◌, ◌≤◌, ◌∷◌, ◌++◌, [], IfOk, IsPermutation, None, OnErr, OnOk, fold, vec_capacity, vec_len};
ghost use Rattle.std.specs.List.{list_any};
ghost use Rattle.owner_tree.specs.First.{first_of};
ghost use Rattle.owner_tree.specs.Way.{HasTableWay};
ghost use Rattle.dn_model.specs.Rules.{cleared_rules, has_rule_key, placed_rule, rule_before, with_rule, without_rule, HasRulesOnce, IsTop};

use dn_model::{OutOfMemory, Rule};
use std::alloc::Global;
use std::marker::Model;

/// A set of rules with length and metric as their key. A contract sees it as the list of its rules, whose order means
/// nothing: each key is there once. Few rules of one router stand at one address, so each call looks at all of them.
#[derive(Drop)]
pub struct Owners {
    rules: Vec<Rule>,
}

impl Model for Owners {
    ghost use Rattle.std.specs.Prelude.{List};
    ghost use Rattle.dn_model.specs.Rules.{HasRulesOnce};
    ghost use Rattle.dn_model.specs.declared.rule.Rule.{Rule};

    ghost Value = { List Rule };

    ghost view = { λ o. o.rules.items };

    ghost invariant = { λ o. HasRulesOnce o.rules.items };
}

impl Owners {
    /// The set with no rule, which takes no memory.
    pub fn new(alloc: Global) -> Self
        ensures { result ≡ [] }
    {
        Owners {
            rules: Vec::new(alloc),
        }
    }

    /// Puts a rule in the place of the one with its length and metric. After `OutOfMemory`, for which alone it fails,
    /// the set is as before.
    pub fn insert(&mut self, rule: Rule) -> Result<(), OutOfMemory>
        ensures ok { OnOk result (IsPermutation self.new (with_rule self.old rule)) }
        ensures err { OnErr result (self.new ≡ self.old) }
    {
        put(&mut self.rules, Some(rule.metric), rule)
    }

    /// Puts a rule in the place of all those with its length, as a router does that replaces by prefix: at one address
    /// a length fixes the prefix. After `OutOfMemory`, for which alone it fails, the set is as before.
    pub fn insert_alone(&mut self, rule: Rule) -> Result<(), OutOfMemory>
        ensures ok { OnOk result (IsPermutation self.new (placed_rule true self.old rule)) }
        ensures err { OnErr result (self.new ≡ self.old) }
    {
        put(&mut self.rules, None, rule)
    }

    /// Removes the rule of this length and metric. It answers whether there was one. It takes no memory.
    pub fn remove(&mut self, len: u8, metric: u32) -> bool
        ensures found { result ≡ list_any (has_rule_key len metric) self.old }
        ensures left { IsPermutation self.new (without_rule self.old len metric) }
    {
        let found = self.rules.iter().any(|rule| has_key(len, metric, rule));
        clear(&mut self.rules, len, Some(metric));
        found
    }

    /// Removes the rule of this length and metric; without a metric all rules of the length. One that isn't there
    /// changes nothing. It takes no memory.
    pub fn clear(&mut self, len: u8, metric: Option<u32>)
        ensures { IsPermutation self.new (cleared_rules self.old len metric) }
    {
        clear(&mut self.rules, len, metric);
    }

    /// The rule in force: of those with the longest prefix the one with the least metric. It is none exactly where
    /// there is no rule. Where the rules are those of a table's routes that cover an address, it has the way of the
    /// address by the table.
    pub fn top(&self) -> Option<Rule>
        ensures top { IsTop self.now result }
        ensures once { HasRulesOnce self.now }
        ensures way { HasTableWay self.now result }
    {
        first_rule(&self.rules)
    }

    /// Whether one of the rules has this length. It takes no memory.
    pub fn has_length(&self, len: u8) -> bool
        ensures { result ≡ list_any (λ r. r.len == len) self.now }
    {
        self.rules.iter().any(|rule| rule.len == len)
    }

    /// A set with the same rules.
    pub fn copy(&self) -> Result<Owners, OutOfMemory>
        ensures { IfOk result (λ owners. owners ≡ self.now) }
    {
        let rules = self.rules.clone()?;
        Ok(Owners { rules })
    }
}

/// Whether a rule has this length and this metric.
fn has_key(len: u8, metric: u32, rule: &Rule) -> bool
    ensures { result ≡ has_rule_key len metric rule.now }
{
    rule.len == len && rule.metric == metric
}

/// Drops the rule of this length and this metric; without a metric those of the length.
fn clear(rules: &mut Vec<Rule>, len: u8, metric: Option<u32>)
    ensures left { rules.new.items ≡ cleared_rules rules.old.items len metric }
    ensures bound { vec_len rules.new ≤ vec_len rules.old }
    ensures capacity { vec_capacity rules.new ≡ vec_capacity rules.old }
{
    match metric {
        Some(metric) => rules.retain(|rule| !has_key(len, metric, rule)),
        None => rules.retain(|rule| rule.len != len),
    }
}

/// Puts a rule behind those that clearing its length, or its length and this metric, leaves. Memory is taken before
/// anything changes.
fn put(rules: &mut Vec<Rule>, metric: Option<u32>, rule: Rule) -> Result<(), OutOfMemory>
    ensures ok { OnOk result (rules.new.items ≡ cleared_rules rules.old.items rule.len metric ++ rule ∷ []) }
    ensures err { OnErr result (rules.new.items ≡ rules.old.items) }
{
    rules.reserve_exact(1)?;
    clear(rules, rule.len, metric);
    rules.push(rule)?;
    Ok(())
}

/// The rule that goes before all others.
fn first_rule(rules: &[Rule]) -> Option<Rule>
    ensures { result ≡ fold first_of None rules.now }
{
    let mut first = None;
    for rule in rules {
        first = first_of(first, *rule);
    }
    first
}

/// The one of two rules that goes first, of the longer prefix or of equal lengths of the lesser metric.
fn first_of(first: Option<Rule>, rule: Rule) -> Option<Rule>
    ensures { result ≡ first_of first rule }
{
    match first {
        Some(first) if !is_before(&rule, &first) => Some(first),
        _ => Some(rule),
    }
}

/// Whether a rule goes before another.
fn is_before(x: &Rule, y: &Rule) -> bool
    ensures { result ≡ rule_before x.now y.now }
{
    y.len < x.len || (x.len == y.len && x.metric < y.metric)
}
