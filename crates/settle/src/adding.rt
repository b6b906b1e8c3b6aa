// What a rule adds to the words.
ghost use Rattle.std.specs.Prelude.{◌≡◌};
ghost use Rattle.policy.specs.Record.{most_decisions, most_actions, listed};
ghost use Rattle.policy.specs.Laws.{ListFits, RuleFits};
ghost use Rattle.settle.specs.Words.{all_of, none_of, added_of, grown};

use policy::{Decisions, MOST_DECISIONS, Rule};

// Those of the sets in which every decision of the list is held. That a list fits, and for `add` a rule, is required: a type for what
// fits would be a second one beside document 01's.
fn all_held(held: &[u64; MOST_DECISIONS], list: &Decisions, sets: u64) -> u64
    requires { ListFits most_decisions list.now }
    ensures { result ≡ all_of held.now sets (listed list.now) }
{
    list.listed()
        .iter()
        .fold(sets, |word, d| word & held[*d as usize])
}

// Those of the sets in which no decision of the list is held. It differs from `all_held` in what it does with a word, and not in a type
// or a number.
fn none_held(held: &[u64; MOST_DECISIONS], list: &Decisions, sets: u64) -> u64
    requires { ListFits most_decisions list.now }
    ensures { result ≡ none_of held.now sets (listed list.now) }
{
    list.listed()
        .iter()
        .fold(sets, |word, d| word ^ (word & held[*d as usize]))
}

// Adds the rule's head in those of the sets that enable it in which it is not held yet, each if is and no unless is: these sets.
pub(crate) fn add(rule: &Rule, enabled: u64, held: &mut [u64; MOST_DECISIONS]) -> u64
    requires { RuleFits most_decisions most_actions rule.now }
    ensures value { result ≡ added_of held.old enabled rule.now }
    ensures held_after { held.new ≡ grown held.old rule.now.head (added_of held.old enabled rule.now) }
{
    let head = rule.head as usize;
    let fresh = enabled ^ (enabled & held[head]);
    if fresh == 0 {
        return 0;
    }
    let ready = all_held(held, &rule.ifs, fresh);
    let more = none_held(held, &rule.unless, ready);
    held[head] |= more;
    more
}
