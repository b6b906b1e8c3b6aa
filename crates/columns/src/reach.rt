// What actions lead to, and the sets whose worlds have an action.
ghost use Rattle.std.specs.Prelude.{◌≡◌, ◌^◌, ◌<◌};
ghost use Rattle.base.specs.Lists.{table};
ghost use Rattle.model.specs.World.{world_in};
ghost use Rattle.columns.specs.Sets.{gathered, four_of, fours_of, needed_of};
ghost use Rattle.policy.specs.Record.{most_actions};

use super::column;
use policy::{MOST_ACTIONS, Policy};
use std::array;

// What is in every world, and what each action leads to by itself.
#[derive(Clone, Copy)]
pub struct Reach {
    pub base: u16,
    pub leads: [u16; MOST_ACTIONS],
}

impl Reach {
    pub fn new(policy: &Policy, done: u16) -> Reach
        ensures base { result.base ≡ world_in policy.now.action policy.now.actions done 0 }
        ensures leads { result.leads
            ≡ table most_actions (λ a. world_in policy.now.action policy.now.actions 0 (2 ^ a)) }
    {
        Reach {
            base: model::world(policy, done, 0),
            leads: array::from_fn(|a| led(policy, a)),
        }
    }

    // The sets whose world has action b. A filter and a fold were tried here and in `four`: `clear` took up to twice as long.
    fn world_of(&self, w: u16, b: usize) -> u64
        ensures { result ≡ gathered self.now.base self.now.leads w b }
    {
        let mut word = if mask::has(self.base, b) { u64::MAX } else { 0 };
        for (a, led) in self.leads.iter().enumerate() {
            if mask::has(*led, b) {
                word |= column(a, w);
            }
        }
        word
    }

    // For each action the sets whose world has it.
    fn worlds(&self, w: u16) -> [u64; MOST_ACTIONS]
        ensures { result ≡ table most_actions (gathered self.now.base self.now.leads w) }
    {
        array::from_fn(|b| self.world_of(w, b))
    }

    // For each four actions and each mask v of them the word of `four`, at 16 z + v: `needed` has four looks for a rule, and not 16.
    pub fn fours(&self, w: u16) -> [u64; 64]
        ensures { result ≡ fours_of (table most_actions (gathered self.now.base self.now.leads w)) }
    {
        let world = self.worlds(w);
        array::from_fn(|n| four(&world, n / 16, (n % 16) as u16))
    }
}

// What action a leads to by itself.
#[tactic(auto, using(mask::proofs::Bits::worth))]
fn led(policy: &Policy, a: usize) -> u16
    requires { a < 16 }
    ensures { result ≡ world_in policy.now.action policy.now.actions 0 (2 ^ a) }
{
    model::world(policy, 0, 1u16 << a)
}

// The sets whose world has the actions of the mask v, of the four actions from 4 z on.
fn four(world: &[u64; MOST_ACTIONS], z: usize, v: u16) -> u64
    requires { z < 4 }
    ensures { result ≡ four_of world.now z v }
{
    let mut word = u64::MAX;
    for b in 0..4usize {
        if mask::has(v, b) {
            word &= world[4 * z + b];
        }
    }
    word
}

// Those of the sets whose world has all the needs.
#[tactic(auto, unfolding(crate::specs::Sets::needed_of))]
pub fn needed(fours: &[u64; 64], needs: u16, sets: u64) -> u64
    ensures { result ≡ needed_of fours.now needs sets }
{
    let n = needs as usize;
    sets & fours[n % 16]
        & fours[16 + n / 16 % 16]
        & fours[32 + n / 256 % 16]
        & fours[48 + n / 4096 % 16]
}
