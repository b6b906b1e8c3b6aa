// The cost of a set of actions.
#![tactic(auto)]

ghost use Rattle.std.specs.Prelude.{◌≡◌, cond, ◌+◌, ◌<◌};
ghost use Rattle.mask.specs.Mask.{has};
ghost use Rattle.weight.specs.Cost.{cost_of, Bounded};
ghost use Rattle.policy.specs.Record.{most_actions};

use policy::Policy;

// The running cost of a set once action a is counted, whose weight it gains if the set has it. `Bounded` keeps it far below what
// 32 bits hold.
fn with_action(sum: u32, set: u16, a: u8, weight: u16) -> u32
    requires action { a < most_actions }
    requires bounded { Bounded a sum }
    ensures value { result ≡ sum + cond (has set a) weight 0 }
    ensures still_bounded { Bounded (a + 1) result }
{
    if mask::has(set, a as usize) {
        sum + weight as u32
    } else {
        sum
    }
}

// The cost of a set of the policy's actions: the sum of the weights. It is no iterator's sum, since that promises nothing of the sums on
// the way, whose bound `with_action` asks for and keeps. The loop counts the actions in 8 bits, as the record does: an iterator's place
// has 64.
#[tactic(auto, unfolding(crate::specs::Cost::cost_of))]
pub fn cost(policy: &Policy, set: u16) -> u32
    ensures { result ≡ cost_of policy.now set }
{
    let count = policy.actions().len() as u8;
    let mut sum: u32 = 0;
    for a in 0..count {
        sum = with_action(sum, set, a, policy.action[a as usize].weight);
    }
    sum
}
