// The policy whose query has the most slim sets: decision by decision, "at least j of the first i actions".
#![tactic(auto)]

ghost use Rattle.std.specs.Prelude.{◌<◌, ◌≤◌, ◌≡◌};
ghost use Rattle.policy.specs.Record.{most_rules};
ghost use Rattle.threshold.specs.AtLeast.{plain, rules_for, with_rule, with_rules, at_least, stated};

use decision::{AtLeast, decisions_about};
use policy::{
    Action, Kind, MOST_ACTIONS, MOST_DECISIONS, MOST_QUERIES, MOST_RULES, Policy, Queries, Rule,
};

mod decision;

// A provision of weight 1 that does no other.
#[tactic(auto, unfolding(crate::specs::AtLeast::plain))]
fn plain() -> Action
    ensures { result ≡ plain }
{
    Action {
        kind: Kind::Provision,
        weight: 1,
        also: 0,
    }
}

// Puts a rule past the policy's last.
fn add(policy: &mut Policy, rule: Rule)
    requires { policy.now.rules < most_rules }
    ensures { policy.new ≡ with_rule policy.old rule }
{
    policy.rule[policy.rules as usize] = rule;
    policy.rules += 1;
}

// Puts the rules of a decision past the policy's last.
fn add_rules(policy: &mut Policy, decision: AtLeast)
    requires { policy.now.rules ≤ 254 }
    ensures { policy.new ≡ with_rules policy.old (rules_for decision.i decision.j) }
{
    if decision.j < decision.i {
        add(policy, decision.without());
    }
    add(policy, decision.having());
}

// Of 100 decisions, their rules one decision after the other.
pub fn policy() -> Policy
    ensures { result ≡ at_least }
{
    let mut policy = Policy {
        decisions: 100,
        actions: 16,
        rules: 0,
        level: [0; MOST_DECISIONS],
        action: [plain(); MOST_ACTIONS],
        rule: [format::zero_rule(); MOST_RULES],
    };
    // with `..=` the proof has no name for what holds after the last turn, in both loops
    for i in 1..17 {
        for j in 1..decisions_about(i) + 1 {
            add_rules(&mut policy, AtLeast { i, j });
        }
    }
    policy
}

// Its one query: at least 8 of 16, with nothing done.
pub fn queries() -> Queries
    ensures { result ≡ stated.queries }
{
    let mut at = [format::zero_query(); MOST_QUERIES];
    at[0].want = AtLeast { i: 16, j: 8 }.number();
    Queries { count: 1, at }
}
