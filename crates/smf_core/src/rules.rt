//! The trigger rules of a session, by the latest answer that gave each.
ghost use Rattle.std.specs.Prelude.{◌≡◌, nat_lt, IfOk, filter, option_map};
ghost use Rattle.std.specs.List.{list_any};
ghost use Rattle.smf_core.specs.Draft.{whole};
ghost use Rattle.smf_model.specs.Categories.{same_type};
ghost use Rattle.smf_model.specs.Rules.{rank, rank_of, rule_in, rule_at, after_earlier, placed, with_rule, with_first, firsts, with_rules, category_in, volume_in, seconds_in, changes_in, is_immediate, is_immediate_for, limits_in, within, changes_of};

use crate::categories::{immediate_by_default, is_same, order_of};
use crate::draft::{Draft, rules_of};
use quotas::Limits;
use smf_model::{Rule, Session, SmfSetup};
use std::alloc::Global;
use units::{OutOfMemory, TriggerRule, TriggerType};

fn rank(group: Option<u32>, trigger: TriggerType) -> u64
    ensures { result ≡ rank group trigger }
{
    match group {
        None => order_of(trigger),
        Some(group) => 32 * (group as u64 + 1) + order_of(trigger),
    }
}

fn rank_of(rule: &Rule) -> u64
    ensures { result ≡ rank_of rule.now }
{
    rank(rule.group, rule.rule.trigger)
}

fn rule_in(place: u64, rules: &[Rule]) -> Option<TriggerRule>
    ensures { result ≡ rule_in place rules.now }
{
    for rule in rules {
        if rank_of(rule) == place {
            return Some(rule.rule);
        }
    }
    None
}

// The rule of a type, for a rating group or for the session.
fn rule_at(group: Option<u32>, trigger: TriggerType, rules: &[Rule]) -> Option<TriggerRule>
    ensures { result ≡ rule_at group trigger rules.now }
{
    rule_in(rank(group, trigger), rules)
}

fn after_earlier(rule: TriggerRule, earlier: Option<TriggerRule>) -> TriggerRule
    ensures { result ≡ after_earlier rule earlier }
{
    match earlier {
        None => rule,
        Some(earlier) => TriggerRule {
            trigger: rule.trigger,
            immediate: rule.immediate,
            volume: rule.volume.or(earlier.volume),
            seconds: rule.seconds.or(earlier.seconds),
            changes: rule.changes.or(earlier.changes),
        },
    }
}

fn below(alloc: Global, place: u64, rules: &[Rule]) -> Result<Vec<Rule>, OutOfMemory>
    ensures { IfOk result (λ v. v.items ≡ filter (λ x. nat_lt (rank_of x) place) rules.now) }
{
    let found = rules
        .iter()
        .filter(|r| rank_of(r) < place)
        .copied()
        .collect(alloc)?;
    Ok(found)
}

fn above(alloc: Global, place: u64, rules: &[Rule]) -> Result<Vec<Rule>, OutOfMemory>
    ensures { IfOk result (λ v. v.items ≡ filter (λ x. nat_lt place (rank_of x)) rules.now) }
{
    let found = rules
        .iter()
        .filter(|r| place < rank_of(r))
        .copied()
        .collect(alloc)?;
    Ok(found)
}

// The rules with this one at a place.
fn placed(alloc: Global, place: u64, rule: Rule, rules: &[Rule]) -> Result<Vec<Rule>, OutOfMemory>
    ensures { IfOk result (λ v. v.items ≡ placed place rule rules.now) }
{
    let mut next = below(alloc, place, rules)?;
    let rest = above(alloc, place, rules)?;
    next.push(rule)?;
    next.extend_from_slice(&rest)?;
    Ok(next)
}

// The rules with one more, at its place.
fn with_rule(
    alloc: Global,
    group: Option<u32>,
    rules: &[Rule],
    rule: TriggerRule,
) -> Result<Vec<Rule>, OutOfMemory>
    ensures { IfOk result (λ v. v.items ≡ with_rule group rules.now rule) }
{
    let place = rank(group, rule.trigger);
    let rule = after_earlier(rule, rule_at(group, rule.trigger, rules));
    placed(alloc, place, Rule { group, rule }, rules)
}

fn is_found(trigger: TriggerType, found: &[TriggerRule]) -> bool
    ensures { result ≡ list_any (λ x. same_type x.trigger trigger) found.now }
{
    for rule in found {
        if is_same(rule.trigger, trigger) {
            return true;
        }
    }
    false
}

// Of several rules of one type in one list the first counts.
fn firsts(alloc: Global, list: &[TriggerRule]) -> Result<Vec<TriggerRule>, OutOfMemory>
    ensures { IfOk result (λ v. v.items ≡ firsts list.now) }
{
    let mut found = Vec::new(alloc);
    for rule in list {
        if !is_found(rule.trigger, &found) {
            found.push(*rule)?;
        }
    }
    Ok(found)
}

/// The rules with those of a list.
pub fn with_rules(
    alloc: Global,
    group: Option<u32>,
    list: &[TriggerRule],
    rules: Vec<Rule>,
) -> Result<Vec<Rule>, OutOfMemory>
    ensures { IfOk result (λ v. v.items ≡ with_rules group list.now rules.items) }
{
    let counting = firsts(alloc, list)?;
    let mut next = rules;
    for rule in &counting {
        next = with_rule(alloc, group, &next, *rule)?;
    }
    Ok(next)
}

fn category(group: Option<u32>, trigger: TriggerType, rules: &[Rule]) -> Option<bool>
    ensures { result ≡ category_in group trigger rules.now }
{
    rule_at(group, trigger, rules).map(|r| r.immediate)
}

fn volume(group: Option<u32>, rules: &[Rule]) -> Option<u64>
    ensures { result ≡ volume_in group rules.now }
{
    rule_at(group, TriggerType::VolumeLimit, rules).and_then(|r| r.volume)
}

fn seconds(group: Option<u32>, rules: &[Rule]) -> Option<u32>
    ensures { result ≡ seconds_in group rules.now }
{
    rule_at(group, TriggerType::TimeLimit, rules).and_then(|r| r.seconds)
}

fn changes(rules: &[Rule]) -> Option<u32>
    ensures { result ≡ changes_in rules.now }
{
    let trigger = TriggerType::MaxNumberOfChangesInChargingConditions;
    rule_at(None, trigger, rules).and_then(|r| r.changes)
}

/// Whether a trigger is of immediate category for the session (TS 32.291, triggerCategory).
pub fn immediate(before: &Session, draft: &Draft, trigger: TriggerType) -> bool
    ensures { result ≡ is_immediate (whole before.now draft.now) trigger }
{
    category(None, trigger, rules_of(before, draft).as_slice()).unwrap_or(immediate_by_default(
        trigger,
    ))
}

/// Whether it is for a rating group.
pub fn immediate_for(before: &Session, draft: &Draft, group: u32, trigger: TriggerType) -> bool
    ensures { result ≡ is_immediate_for (whole before.now draft.now) group trigger }
{
    category(Some(group), trigger, rules_of(before, draft).as_slice()).unwrap_or(immediate(
        before, draft, trigger,
    ))
}

/// The limits of a rating group's containers, by the rules of its session.
pub fn limits(setup: &SmfSetup, rules: &[Rule], group: u32) -> Limits
    ensures { result ≡ limits_in setup.now rules.now group }
{
    Limits {
        volume: volume(Some(group), rules).unwrap_or(volume(None, rules).unwrap_or(
            setup.volume_limit,
        )),
        seconds: seconds(Some(group), rules).unwrap_or(seconds(None, rules).unwrap_or(
            setup.time_limit,
        )),
    }
}

fn between(most: u32, number: u32) -> u32
    ensures { result ≡ within most number }
{
    most.max(1).min(number.max(1))
}

/// How many waiting containers make an Update (maxNumberOfccc of TS 32.291).
pub fn changes_for(setup: &SmfSetup, before: &Session, draft: &Draft) -> u32
    ensures { result ≡ changes_of setup.now (whole before.now draft.now) }
{
    match changes(rules_of(before, draft).as_slice()) {
        Some(number) => between(setup.held_max, number),
        None => setup.changes_max,
    }
}
