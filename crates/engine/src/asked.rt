// The questions that the engine's calls put to what they are given, one by one as document 01 has the calls take it.
ghost use Rattle.std.specs.Prelude.{◌≡◌};
ghost use Rattle.policy.specs.Questions.{first_no, query_questions};
ghost use Rattle.policy.specs.Refusal.{outcome};
ghost use Rattle.engine.specs.Calls.{offer_in_range, offer_questions};
ghost use Rattle.engine.specs.Words.{word_in_range, word_questions};

use columns::WORDS;
use policy::{Policy, Query, Refusal};

// Whether the query is in range and the offered set a mask.
#[tactic(auto, unfolding(policy::specs::Questions::query_in_range))]
fn offer_in_range(policy: &Policy, query: Query, offered: u16) -> bool
    ensures { result ≡ offer_in_range policy.now query offered }
{
    query.in_range(policy.decisions, policy.actions)
        && mask::is_mask(offered, policy.actions as usize)
}

// Whether the query and w are in range.
#[tactic(auto, unfolding(policy::specs::Questions::query_in_range))]
fn word_in_range(policy: &Policy, query: Query, w: u16) -> bool
    ensures { result ≡ word_in_range policy.now query w }
{
    query.in_range(policy.decisions, policy.actions) && (w as usize) < WORDS
}

// Questions 3 to 6 to the policy and the query.
#[tactic(auto, unfolding(policy::specs::Questions::query_in_range))]
pub(crate) fn of_query(policy: &Policy, query: Query) -> Result<(), Refusal>
    ensures { result ≡ outcome (first_no (query_questions policy.now query)) }
{
    questions::ask(policy, query.in_range(policy.decisions, policy.actions))
}

// Questions 3 to 6 to the policy, the query and the offered set, then 7.
pub(crate) fn of_offer(policy: &Policy, query: Query, offered: u16) -> Result<(), Refusal>
    ensures { result ≡ outcome (first_no (offer_questions policy.now query offered)) }
{
    questions::ask(policy, offer_in_range(policy, query, offered))?;
    if !mask::disjoint(offered, query.done) {
        return Err(Refusal::SharesWithDone);
    }
    Ok(())
}

// Questions 3 to 6 to the policy, the query and w.
#[tactic(auto, unfolding(crate::specs::Words::word_questions))]
pub(crate) fn of_word(policy: &Policy, query: Query, w: u16) -> Result<(), Refusal>
    ensures { result ≡ outcome (first_no (word_questions policy.now query w)) }
{
    questions::ask(policy, word_in_range(policy, query, w))
}
