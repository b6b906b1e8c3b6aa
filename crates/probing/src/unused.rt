// Other entries past the counts of a policy, where its arrays have room for them.
ghost use Rattle.std.specs.Prelude.{◌≡◌};
ghost use Rattle.probing.specs.Changed.{unused_list_of, unused_of, unused_rule_of, with_last};

use policy::{Action, Decisions, Kind, Policy, Rule};

const SEVEN_ACTION: Action = Action {
    kind: Kind::Obligation,
    weight: 7,
    also: 7,
};

const SEVENS: Decisions = Decisions {
    count: 8,
    at: [7; 8],
};

const SEVEN_RULE: Rule = Rule {
    head: 7,
    needs: 7,
    ifs: SEVENS,
    unless: SEVENS,
};

// The entries with another last one, where the count leaves room for it.
#[tactic(auto, unfolding(crate::specs::Changed::with_last))]
pub fn with_last<T: Copy, const N: usize>(mut entries: [T; N], count: usize, other: T) -> [T; N]
    ensures { result ≡ with_last N count other entries }
{
    if count < N {
        entries[N - 1] = other;
    }
    entries
}

// The list with another last entry.
#[tactic(auto, unfolding(crate::specs::Changed::unused_list_of))]
fn unused_list(list: Decisions) -> Decisions
    ensures { result ≡ unused_list_of list }
{
    Decisions {
        at: with_last(list.at, list.count as usize, 7),
        ..list
    }
}

// The rule with other last entries of its lists.
#[tactic(auto, unfolding(crate::specs::Changed::unused_rule_of))]
fn unused_rule(rule: Rule) -> Rule
    ensures { result ≡ unused_rule_of rule }
{
    Rule {
        ifs: unused_list(rule.ifs),
        unless: unused_list(rule.unless),
        ..rule
    }
}

// The policy with another last level, action and rule, and with other last entries of the first rule's lists.
#[tactic(auto, unfolding(crate::specs::Changed::unused_of))]
pub(crate) fn unused(policy: &Policy) -> Policy
    ensures { result ≡ unused_of policy.now }
{
    let mut rule = policy.rule;
    rule[0] = unused_rule(rule[0]);
    Policy {
        level: with_last(policy.level, policy.decisions as usize, 9),
        action: with_last(policy.action, policy.actions as usize, SEVEN_ACTION),
        rule: with_last(rule, policy.rules as usize, SEVEN_RULE),
        ..*policy
    }
}
