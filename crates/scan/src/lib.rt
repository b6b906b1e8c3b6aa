// The rules that fire in the world of a set, until the wanted decision is held. For the engine alone: it has asked the questions that
// these functions require.
#![tactic(auto)]

ghost use Rattle.std.specs.Prelude.{◌≡◌, ◌+◌, ◌&&◌, All, ◌<◌, not, length, replicate, slice_set};
ghost use Rattle.std.specs.List.{list_all};
ghost use Rattle.base.specs.Lists.{filled};
ghost use Rattle.policy.specs.Record.{most_decisions, most_actions, listed};
ghost use Rattle.policy.specs.Questions.{Accepted};
ghost use Rattle.policy.specs.Laws.{RuleFits, InRange};
ghost use Rattle.model.specs.Clears.{fired_for};
ghost use Rattle.model.specs.Fire.{is_held, can_fire, fired_of};

use policy::{MOST_DECISIONS, Policy, Query, Rule};

// The rules that fired, in order: `count` of them, and zeros behind them. Document 01 has them handed back so, by value.
#[derive(Clone, Copy)]
pub struct FiredRules {
    pub count: u8,
    pub rules: [u8; MOST_DECISIONS],
}

impl FiredRules {
    // None has fired.
    fn none() -> FiredRules
        ensures { result ≡ record { count = 0; rules = replicate most_decisions 0 } }
    {
        FiredRules {
            count: 0,
            rules: [0; MOST_DECISIONS],
        }
    }

    // Rule k fires next.
    fn push(&mut self, k: u8)
        requires { self.old.count < most_decisions }
        ensures { self.new ≡ record { count = self.old.count + 1; rules = slice_set self.old.rules self.old.count k } }
    {
        self.rules[self.count as usize] = k;
        self.count += 1;
    }
}

// Whether each of the decisions is held.
fn all_held(held: &[bool; MOST_DECISIONS], decisions: &[u8]) -> bool
    requires { All (λ d. d < most_decisions) decisions.now }
    ensures { result ≡ list_all (λ d. is_held held.now d) decisions.now }
{
    decisions.iter().all(|d| held[*d as usize])
}

// Whether none of the decisions is held. It differs from `all_held` in the test, and not in a type or a number.
fn none_held(held: &[bool; MOST_DECISIONS], decisions: &[u8]) -> bool
    requires { All (λ d. d < most_decisions) decisions.now }
    ensures { result ≡ list_all (λ d. not (is_held held.now d)) decisions.now }
{
    decisions.iter().all(|d| !held[*d as usize])
}

// Whether the marks are as the rule's lists ask. A call of its own, so that the scan's loop is shorter. The rule is required to fit: a type
// for one that does would be a second one beside document 01's.
#[inline(never)]
fn lists_met(rule: &Rule, held: &[bool; MOST_DECISIONS]) -> bool
    requires { RuleFits most_decisions most_actions rule.now }
    ensures { result ≡ (list_all (λ d. is_held held.now d) (listed rule.now.ifs)
        && list_all (λ d. not (is_held held.now d)) (listed rule.now.unless)) }
{
    all_held(held, rule.ifs.listed()) && none_held(held, rule.unless.listed())
}

// Whether the rule can fire: its head is not held yet, and the world and the marks are as it asks. Each pass asks this
// of every rule of its level, so what most rules fail by is tested without a call.
#[tactic(auto, unfolding(model::specs::Fire::can_fire))]
fn can_fire(rule: &Rule, held: &[bool; MOST_DECISIONS], world: u16) -> bool
    requires { RuleFits most_decisions most_actions rule.now }
    ensures { result ≡ can_fire held.now world rule.now }
{
    !held[rule.head as usize] && mask::contains(world, rule.needs) && lists_met(rule, held)
}

// The rules that fire until `want` is held, level by level, in passes over the rules; none where it is never held.
// No rule of a higher level than want's has the head `want`, so those levels are left out.
fn scan(policy: &Policy, want: u8, world: u16) -> FiredRules
    requires in_range { InRange policy.now }
    requires want_lt_decisions { want < policy.now.decisions }
    ensures count_value { result.count ≡ length (fired_of policy.now world want) }
    ensures rules_value { result.rules ≡ filled most_decisions 0 (fired_of policy.now world want) }
{
    let mut held = [false; MOST_DECISIONS];
    let mut fired = FiredRules::none();
    let levels = policy.level[want as usize] + 1;
    'scan: for level in 0..levels {
        'passes: loop {
            let before = fired.count;
            'rules: for (k, rule) in policy.rules().iter().enumerate() {
                let head = rule.head as usize;
                if policy.level[head] == level && can_fire(rule, &held, world) {
                    held[head] = true;
                    fired.push(k as u8);
                    if rule.head == want {
                        break 'scan;
                    }
                }
            }
            if fired.count == before {
                break 'passes;
            }
        }
    }
    if held[want as usize] {
        fired
    } else {
        FiredRules::none()
    }
}

// The rules that fire in the world of the set. Beside `words::Plan::new` this alone requires an accepted policy and query: a plan has them,
// but a fire looks neither at what actions lead to nor at an order of the rules.
pub fn fired(policy: &Policy, query: Query, set: u16) -> FiredRules
    requires { Accepted policy.now query }
    ensures count_value { result.count ≡ length (fired_for policy.now query set) }
    ensures rules_value { result.rules ≡ filled most_decisions 0 (fired_for policy.now query set) }
{
    let world = model::world(policy, query.done, set);
    scan(policy, query.want, world)
}
