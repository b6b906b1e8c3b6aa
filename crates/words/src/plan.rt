// What the words of a query are worked from, and the work.
ghost use Rattle.std.specs.Prelude.{◌≡◌, ◌≤◌, ◌<◌, get_or};
ghost use Rattle.base.specs.Laws.Tables.{Tabled};
ghost use Rattle.policy.specs.Record.{most_rules, rule_of};
ghost use Rattle.policy.specs.Questions.{Accepted};
ghost use Rattle.columns.specs.Sets.{needed_of};
ghost use Rattle.settle.specs.Right.{AreWords};
ghost use Rattle.words.specs.Models.{model_of, word_of};
ghost use Rattle.words.specs.Plan.{Planned, Worked};
ghost use Rattle.words.specs.Laws.Props.{Accepted-prop, Planned-prop};

use columns::{Reach, WordNumber};
use order::{Order, Ranged};
use policy::{LEVELS, MOST_DECISIONS, MOST_RULES, Policy, Query};

// An accepted policy and query, what actions lead to, and an order of the rules.
#[derive(Clone, Copy)]
pub struct Plan {
    pub policy: Policy,
    pub query: Query,
    pub reach: Reach,
    pub order: Order,
    ghost accepted: { Accepted policy query } by { Accepted-prop policy query },
    ghost planned: { Planned policy query reach.base reach.leads order.rules order.start order.uses } by { Planned-prop policy query reach.base reach.leads order.rules order.start order.uses },
}

impl Plan {
    // Finds what actions lead to beside what is done, and an order of the rules. What is required here the plan holds from then on.
    pub fn new(policy: &Policy, query: Query) -> Plan
        requires { Accepted policy.now query }
        ensures same_policy { result.policy ≡ policy.now }
        ensures same_query { result.query ≡ query }
    {
        let ranged = Ranged { policy };
        Plan {
            policy: *policy,
            query,
            reach: Reach::new(policy, query.done),
            order: Order::new(&ranged),
        }
    }

    // For each place of the order those of the sets that enable its rule. The place is counted: a zip with the array's `iter_mut` was
    // tried, and of an array written through it nothing is known after the loop.
    fn enabling(&self, fours: &[u64; 64], sets: u64) -> [u64; MOST_RULES]
        ensures tabled { Tabled (λ j. needed_of fours.now (rule_of self.now.policy (get_or self.now.order.rules j 0)).needs sets)
            most_rules result self.now.policy.rules }
        ensures are_words { AreWords most_rules result }
    {
        let mut enabled = [0; MOST_RULES];
        let order = policy::front(&self.order.rules, self.policy.rules as usize);
        for (j, k) in order.iter().enumerate() {
            enabled[j] = columns::needed(fours, self.policy.rule[*k as usize].needs, sets);
        }
        enabled
    }

    // The words of the sets of w, right for the decisions of the first `count` levels.
    fn worked(&self, w: WordNumber, count: usize) -> [u64; MOST_DECISIONS]
        requires { count ≤ 16 }
        ensures { Worked self.now.policy self.now.query w.w count result }
    {
        let sets = columns::offered(self.policy.actions, self.query.done, w);
        if sets == 0 {
            return [0; MOST_DECISIONS];
        }
        let fours = self.reach.fours(w.w);
        let enabled = self.enabling(&fours, sets);
        let ranged = Ranged {
            policy: &self.policy,
        };
        settle::levels(&ranged, &self.order, &enabled, count)
    }

    // For each decision the sets of the word w that clear it: bit i is the set 64 w + i.
    pub fn model(&self, w: WordNumber) -> [u64; MOST_DECISIONS]
        ensures { result ≡ model_of self.now.policy self.now.query w.w }
    {
        self.worked(w, LEVELS)
    }

    // The sets of the word w that clear the decision wanted. The levels above its own are left out.
    pub fn wanted(&self, w: WordNumber) -> u64
        ensures { result ≡ word_of self.now.policy self.now.query w.w self.now.query.want }
    {
        let want = self.query.want as usize;
        let words = self.worked(w, self.policy.level[want] as usize + 1);
        words[want]
    }
}
