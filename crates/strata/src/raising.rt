// The lowest levels that fit the rules.
ghost use Rattle.std.specs.Prelude.{◌≡◌, true, ◌≤◌};
ghost use Rattle.policy.specs.Record.{most_decisions, most_actions, listed};
ghost use Rattle.policy.specs.Questions.{others_in_range, lists_rise};
ghost use Rattle.policy.specs.Laws.{ListFits, RuleFits};
ghost use Rattle.strata.specs.Levels.{above, asked, levelling, found_levels};
ghost use Rattle.strata.specs.Laws.Raised.{EachSmall};

use policy::{Decisions, HIGHEST_LEVEL, MOST_DECISIONS, Policy, Refusal, Rule};

// The lowest level, from `own` up, that lies at least `step` above that of each decision of the list. That a list fits, and
// for `asked` a rule, is required: a type for one that does would be a second one beside document 01's.
fn above(level: &[u8; MOST_DECISIONS], step: u8, own: u8, list: &Decisions) -> u8
    requires each_small { EachSmall level.now }
    requires step_bound { step ≤ 1 }
    requires list_fits { ListFits most_decisions list.now }
    ensures { result ≡ above level.now step own (listed list.now) }
{
    let mut lowest = own;
    for d in list.listed() {
        lowest = lowest.max(level[*d as usize] + step);
    }
    lowest
}

// The lowest level of its head, from the one it has up, that fits a rule.
fn asked(level: &[u8; MOST_DECISIONS], rule: &Rule) -> u8
    requires each_small { EachSmall level.now }
    requires rule_fits { RuleFits most_decisions most_actions rule.now }
    ensures { result ≡ asked level.now rule.now }
{
    let own = above(level, 0, level[rule.head as usize], &rule.ifs);
    above(level, 1, own, &rule.unless)
}

// The lowest levels, or refusal 9 where none from 0 to 15 fit. Each rule in turn raises the level of its head as far as it
// asks, round after round, until a round raises none. Each round but the last raises one of 128 levels, and none is raised
// past 15: so there are at most 1,921 rounds of at most 256 rules.
#[tactic(auto, using(crate::proofs::Rounds::entry_asks))]
pub(crate) fn lowest(policy: &Policy) -> Result<[u8; MOST_DECISIONS], Refusal>
    requires range { others_in_range policy.now ≡ true }
    requires rise { lists_rise policy.now ≡ true }
    ensures { levelling result ≡ found_levels policy.now }
{
    let mut level = [0u8; MOST_DECISIONS];
    'rounds: loop {
        let mut raised = false;
        for rule in policy.rules() {
            let head = rule.head as usize;
            let need = asked(&level, rule);
            if need > HIGHEST_LEVEL {
                return Err(Refusal::NoLevels);
            }
            if level[head] < need {
                level[head] = need;
                raised = true;
            }
        }
        if !raised {
            break 'rounds;
        }
    }
    Ok(level)
}
