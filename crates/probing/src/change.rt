// Changes of a policy.
ghost use Rattle.std.specs.Prelude.{◌≡◌};
ghost use Rattle.probing.specs.Changed.{changed, has_room, change_of, two};

use super::unused::unused;
use policy::{Decisions, MOST_DECISIONS, Policy};

// A change of a policy. `LastLevel` and `Unused` change no entry that counts; with any other a question is answered no.
#[derive(Clone, Copy)]
pub enum Change {
    // 129 decisions
    TooManyDecisions,
    // 17 actions
    TooManyActions,
    // 257 rules
    TooManyRules,
    // level 0 is 16
    LevelTooHigh,
    // the last level is 9
    LastLevel,
    // action 0 weighs nothing
    Weightless,
    // action 0 does all of 16 actions too
    DoesAll,
    // action 0 does itself too
    DoesItself,
    // the head of rule 0 is no decision
    Head,
    // rule 0 has 9 if decisions
    NineIfs,
    // the if decisions of rule 0 fall
    Falling,
    // rule 0 has its own head as its one unless decision
    OwnUnless,
    // the entries past the counts are others
    Unused,
}

// The list of these two decisions, of which so many count.
fn list(count: u8, first: u8, second: u8) -> Decisions
    ensures { result ≡ two count first second }
{
    Decisions {
        count,
        at: [first, second, 7, 7, 7, 7, 7, 7],
    }
}

impl Change {
    // Whether the policy has the entry that is changed.
    fn has_room(self, policy: &Policy) -> bool
        ensures { result ≡ has_room policy.now self }
    {
        match self {
            Change::Weightless | Change::DoesAll | Change::DoesItself => policy.actions >= 1,
            Change::Head | Change::NineIfs | Change::OwnUnless => policy.rules >= 1,
            Change::Falling => policy.rules >= 1 && policy.decisions >= 2,
            Change::LastLevel => (policy.decisions as usize) < MOST_DECISIONS,
            _ => true,
        }
    }

    // The policy with the change. `LastLevel` is put whatever the count, since `has_room` has asked it.
    fn made(self, policy: &Policy) -> Policy
        ensures { result ≡ changed policy.now self }
    {
        let mut p = *policy;
        match self {
            Change::TooManyDecisions => p.decisions = 129,
            Change::TooManyActions => p.actions = 17,
            Change::TooManyRules => p.rules = 257,
            Change::LevelTooHigh => p.level[0] = 16,
            Change::Weightless => p.action[0].weight = 0,
            Change::DoesAll => p.action[0].also = 65535,
            Change::DoesItself => p.action[0].also = 1,
            Change::Head => p.rule[0].head = p.decisions,
            Change::NineIfs => p.rule[0].ifs.count = 9,
            Change::Falling => p.rule[0].ifs = list(2, 1, 0),
            Change::OwnUnless => p.rule[0].unless = list(1, p.rule[0].head, 0),
            Change::LastLevel => p.level[MOST_DECISIONS - 1] = 9,
            Change::Unused => return unused(policy),
        }
        p
    }

    // The changed policy, or none where it has no entry to change.
    pub fn of(self, policy: &Policy) -> Option<Policy>
        ensures { result ≡ change_of policy.now self }
    {
        self.has_room(policy).then(|| self.made(policy))
    }
}
