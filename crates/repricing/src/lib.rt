// What a repriced action can do: the least costs by two policies that are the same but for at most one weight.
#![tactic(auto)]

ghost use Rattle.std.specs.Prelude.{◌≡◌};
ghost use Rattle.policy.specs.Questions.{first_no, query_questions};
ghost use Rattle.policy.specs.Refusal.{outcome};
ghost use Rattle.repricing.specs.Call.{price_of, reprice_of, Pays, Reports};

use policy::{MOST_QUERIES, Policy, Queries, Query, Refusal};

// The least costs by the first policy and by the second; none where no set clears.
#[derive(Clone, Copy)]
pub struct Prices {
    pub before: Option<u32>,
    pub after: Option<u32>,
}

// The least cost that clears the query; none where no set does, or the query is refused.
pub fn least_cost(policy: Policy, query: Query) -> Option<u32>
    ensures value { result ≡ price_of policy query }
    ensures pays { Pays policy query result }
{
    match engine::choose(policy, query) {
        Err(_) => None,
        Ok(None) => None,
        Ok(Some(choice)) => Some(choice.cost),
    }
}

// Puts questions 3 to 6 to the policy with the query.
fn check(policy: Policy, query: Query) -> Result<(), Refusal>
    ensures { result ≡ outcome (first_no (query_questions policy query)) }
{
    let one = Queries {
        count: 1,
        at: [query; MOST_QUERIES],
    };
    engine::check_record(policy, one)
}

// The effect of a change of one weight on what the query costs: the refusal, or both costs. Policies that are not comparable are
// no refusal: of them the answer is none.
pub fn reprice(before: Policy, after: Policy, query: Query) -> Result<Option<Prices>, Refusal>
    ensures value { result ≡ reprice_of before after query }
    ensures reports { Reports before after query result }
{
    check(before, query)?;
    check(after, query)?;
    if !alike::comparable(before, after) {
        return Ok(None);
    }
    Ok(Some(Prices {
        before: least_cost(before, query),
        after: least_cost(after, query),
    }))
}
