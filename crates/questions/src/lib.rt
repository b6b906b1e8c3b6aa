// Questions 3 to 6 put to a whole policy, and question 3 to its queries.
#![tactic(auto)]

ghost use Rattle.std.specs.Prelude.{◌≡◌};
ghost use Rattle.std.specs.List.{list_all};
ghost use Rattle.policy.specs.Record.{actions_of, asked_of, levels_of, rules_of};
ghost use Rattle.policy.specs.Questions.{action_in_range, counts_in_range, level_in_range, query_in_range, rule_in_range, others_in_range, in_range};
ghost use Rattle.policy.specs.Questions.{queries_in_range, lists_rise, levels_fit, weights_fit, questions, first_no};
ghost use Rattle.policy.specs.Refusal.{outcome};

use policy::{
    HIGHEST_LEVEL, MOST_ACTIONS, MOST_DECISIONS, MOST_QUERIES, MOST_RULES, Policy, Queries, Refusal,
};

// Whether there are 1 to 128 decisions, at most 16 actions and at most 256 rules.
#[tactic(auto, unfolding(policy::specs::Questions::counts_in_range))]
fn counts_in_range(policy: &Policy) -> bool
    ensures { result ≡ counts_in_range policy.now.decisions policy.now.actions policy.now.rules }
{
    policy.decisions >= 1
        && policy.decisions as usize <= MOST_DECISIONS
        && policy.actions as usize <= MOST_ACTIONS
        && policy.rules as usize <= MOST_RULES
}

// Whether each action has a weight, and an also mask of the actions there are.
fn actions_in_range(policy: &Policy) -> bool
    ensures { result ≡ list_all (λ a. action_in_range policy.now.actions a) (actions_of policy.now) }
{
    policy
        .actions()
        .iter()
        .all(|action| action.in_range(policy.actions))
}

// Whether each number of each rule is in its range.
fn rules_in_range(policy: &Policy) -> bool
    ensures { result ≡ list_all (λ r. rule_in_range policy.now.decisions policy.now.actions r) (rules_of policy.now) }
{
    policy
        .rules()
        .iter()
        .all(|rule| rule.in_range(policy.decisions, policy.actions))
}

// Question 3 with the levels left out: is each other number in its range?
#[tactic(auto, unfolding(policy::specs::Questions::others_in_range))]
pub fn others_in_range(policy: &Policy) -> bool
    ensures { result ≡ others_in_range policy.now }
{
    counts_in_range(policy) && actions_in_range(policy) && rules_in_range(policy)
}

// Whether each level is at most 15.
#[tactic(auto, unfolding(policy::specs::Questions::level_in_range))]
fn levels_in_range(policy: &Policy) -> bool
    ensures { result ≡ list_all (λ l. level_in_range l) (levels_of policy.now) }
{
    policy.levels().iter().all(|level| *level <= HIGHEST_LEVEL)
}

// Question 3: is each number in its range?
#[tactic(auto, unfolding(policy::specs::Questions::in_range))]
pub fn in_range(policy: &Policy) -> bool
    ensures { result ≡ in_range policy.now }
{
    others_in_range(policy) && levels_in_range(policy)
}

// Whether each query is in range.
#[tactic(auto, unfolding(policy::specs::Questions::query_in_range))]
fn each_in_range(policy: &Policy, queries: &Queries) -> bool
    ensures { result ≡ list_all (λ q. query_in_range policy.now q) (asked_of queries.now) }
{
    queries
        .asked()
        .iter()
        .all(|query| query.in_range(policy.decisions, policy.actions))
}

// Question 3 of the policy's queries: are they at most 64, and each in range?
#[tactic(auto, unfolding(policy::specs::Questions::queries_in_range))]
pub fn queries_in_range(policy: &Policy, queries: &Queries) -> bool
    ensures { result ≡ queries_in_range policy.now queries.now }
{
    queries.count as usize <= MOST_QUERIES && each_in_range(policy, queries)
}

// Question 4: does each list rise strictly?
#[tactic(auto, unfolding(policy::specs::Questions::lists_rise))]
pub fn lists_rise(policy: &Policy) -> bool
    ensures { result ≡ lists_rise policy.now }
{
    policy.rules().iter().all(|rule| rule.rises())
}

// Question 5: has each if decision a level at most its head's, and each unless decision a lower one?
#[tactic(auto, unfolding(policy::specs::Questions::levels_fit))]
pub fn levels_fit(policy: &Policy) -> bool
    ensures { result ≡ levels_fit policy.now }
{
    policy
        .rules()
        .iter()
        .all(|rule| rule.levels_fit(&policy.level))
}

// Question 6: has each action a greater weight than each action in its also mask?
#[tactic(auto, unfolding(policy::specs::Questions::weights_fit))]
pub fn weights_fit(policy: &Policy) -> bool
    ensures { result ≡ weights_fit policy.now }
{
    policy
        .actions()
        .iter()
        .all(|action| action.outweighs(policy))
}

// Puts questions 3 to 6 to the policy: `rest` says whether what else is given is in range.
#[tactic(auto, unfolding(policy::specs::Questions::first_no, policy::specs::Questions::questions, policy::specs::Refusal::outcome, policy::specs::Refusal::refusal_of))]
pub fn ask(policy: &Policy, rest: bool) -> Result<(), Refusal>
    ensures { result ≡ outcome (first_no (questions policy.now rest)) }
{
    if !in_range(policy) || !rest {
        return Err(Refusal::OutOfRange);
    }
    if !lists_rise(policy) {
        return Err(Refusal::NotRising);
    }
    if !levels_fit(policy) {
        return Err(Refusal::LevelsUnfit);
    }
    if !weights_fit(policy) {
        return Err(Refusal::WeightsUnfit);
    }
    Ok(())
}
