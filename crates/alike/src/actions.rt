// Whether two lists of actions are the same but for at most one weight.
ghost use Rattle.std.specs.Prelude.{◌≡◌};
ghost use Rattle.std.specs.List.{list_all, zip};
ghost use Rattle.std.specs.Cmp.Lexicographic.{pointwise};
ghost use Rattle.alike.specs.Comparable.{changes, same_actions, same_but_weight};

use policy::Action;

// Whether two actions are the same but for their weights.
#[tactic(auto, unfolding(crate::specs::Comparable::same_but_weight))]
fn same_but_weight(one: &Action, other: &Action) -> bool
    ensures { result ≡ same_but_weight one.now other.now }
{
    one.kind == other.kind && one.also == other.also
}

// Whether the actions of each pair are the same but for their weights.
fn pairs_but_weight(first: &[Action], second: &[Action]) -> bool
    ensures { result ≡ list_all (λ p. same_but_weight p.0 p.1) (zip first.now second.now) }
{
    first
        .iter()
        .zip(second)
        .all(|(one, other)| same_but_weight(one, other))
}

// Whether there are as many actions, and those of each pair are the same but for their weights.
#[tactic(auto, using(crate::proofs::Tested::by_pairs, crate::proofs::Tested::unlike))]
fn each_but_weight(first: &[Action], second: &[Action]) -> bool
    ensures { result ≡ pointwise same_but_weight first.now second.now }
{
    first.len() == second.len() && pairs_but_weight(first, second)
}

// How many weights differ, place by place.
fn changes(first: &[Action], second: &[Action]) -> usize
    ensures { result ≡ changes first.now second.now }
{
    first
        .iter()
        .zip(second)
        .filter(|(one, other)| one.weight != other.weight)
        .count()
}

// Whether the lists are the same but for at most one weight.
#[tactic(auto, unfolding(crate::specs::Comparable::same_actions))]
pub(crate) fn same(first: &[Action], second: &[Action]) -> bool
    ensures { result ≡ same_actions first.now second.now }
{
    each_but_weight(first, second) && changes(first, second) <= 1
}
