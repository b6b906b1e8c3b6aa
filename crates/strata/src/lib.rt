// Finding levels for a policy: the lowest with which question 5 is answered yes.
#![tactic(auto)]

ghost use Rattle.std.specs.Prelude.{◌≡◌};
ghost use Rattle.strata.specs.Levels.{levelling, found_levels, FindsLevels};

use policy::{MOST_DECISIONS, Policy, Refusal};

mod raising;

// What levels answers: the level of each decision. Where a question is answered no, refusal is its number and every entry is 0
// (document 01 ends the call "with that number", and hands the array back so).
#[derive(Clone, Copy)]
pub struct Levelling {
    pub refusal: u8,
    pub level: [u8; MOST_DECISIONS],
}

// The lowest levels, or the first question that is answered no.
fn found(policy: &Policy) -> Result<[u8; MOST_DECISIONS], Refusal>
    ensures { levelling result ≡ found_levels policy.now }
{
    if !questions::others_in_range(policy) {
        return Err(Refusal::OutOfRange);
    }
    if !questions::lists_rise(policy) {
        return Err(Refusal::NotRising);
    }
    raising::lowest(policy)
}

// The lowest levels with which question 5 is answered yes; those that the policy holds are not looked at.
pub fn levels(policy: Policy) -> Levelling
    ensures value { result ≡ found_levels policy }
    ensures finds_levels { FindsLevels policy result }
{
    match found(&policy) {
        Ok(level) => Levelling { refusal: 0, level },
        Err(refusal) => Levelling {
            refusal: u8::from(refusal),
            level: [0; MOST_DECISIONS],
        },
    }
}
