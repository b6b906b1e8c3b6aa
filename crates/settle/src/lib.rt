// The words of the decisions, settled level by level: bit i of a word stands for the i-th of 64 sets.
#![tactic(auto)]

ghost use Rattle.std.specs.Prelude.{ℕ, ◌≤◌};
ghost use Rattle.policy.specs.declared.Query.{Query};
ghost use Rattle.policy.specs.Questions.{Accepted};
ghost use Rattle.order.specs.Order.{Ordered, Used};
ghost use Rattle.settle.specs.Right.{AreWords, Right, Enabling};
ghost use Rattle.policy.specs.Record.{most_rules};

use adding::add;
use order::{Order, Ranged};
use policy::{MOST_DECISIONS, MOST_RULES};

mod adding;

// The words once each of the first `count` levels is settled, from 0 up. A level is settled by passes over its rules. More are due
// where a rule adds to a decision that a rule asks for at its own place or before it: first one back, from the last rule to the
// first, since what runs against the order in a circle of rules runs with it then. The loops go by the place: the first compares it
// with `uses`. A zip of slices was tried for the pass back: a slice must end no earlier than it starts, which `Ordered` does not say;
// if it did, `levels` would ask more of its callers. The outer loop goes by l, since a level's rules stand between two entries of `start`.
// `enabled` stands beside the order, place by place: the order is found once for a query, and `enabled` anew for each word.
pub fn levels(
    ranged: &Ranged<'_>,
    order: &Order,
    enabled: &[u64; MOST_RULES],
    count: usize,
) -> [u64; MOST_DECISIONS]
    requires ordered { Ordered ranged.now.policy.now order.now.rules order.now.start }
    requires used { Used ranged.now.policy.now order.now.rules order.now.uses }
    requires are_words { AreWords most_rules enabled.now }
    requires count_bound { count ≤ 16 }
    ensures { (q : Query) (w sets : ℕ) → Accepted ranged.now.policy.now q
        → Enabling ranged.now.policy.now q w sets order.now.rules enabled.now
        → Right ranged.now.policy.now q w sets count result }
{
    let policy = ranged.policy;
    let mut held = [0; MOST_DECISIONS];
    for l in 0..count {
        let from = order.start[l] as usize;
        let to = order.start[l + 1] as usize;
        'passes: loop {
            let mut again = false;
            for j in from..to {
                let rule = &policy.rule[order.rules[j] as usize];
                let more = add(rule, enabled[j], &mut held);
                if more != 0 && order.uses[rule.head as usize] <= j as u16 {
                    again = true;
                }
            }
            if !again {
                break 'passes;
            }
            for i in (from..to).rev() {
                let rule = &policy.rule[order.rules[i] as usize];
                add(rule, enabled[i], &mut held);
            }
        }
    }
    held
}
