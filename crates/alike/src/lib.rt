// Whether two policies can be compared: they are the same below their counts but for at most one weight. The two, or two lists, that
// are compared are two parameters: a struct of both would only be taken apart again.
#![tactic(auto)]

ghost use Rattle.std.specs.Prelude.{T, ◌↔◌, ◌≡◌};
ghost use Rattle.alike.specs.Comparable.{comparable, same_counts, Comparable};

use policy::Policy;

mod actions;

// Whether the counts are the same. A derived `==` of the policy would compare what stands past them too.
#[tactic(auto, unfolding(crate::specs::Comparable::same_counts))]
fn same_counts(before: &Policy, after: &Policy) -> bool
    ensures { result ≡ same_counts before.now after.now }
{
    before.decisions == after.decisions
        && before.actions == after.actions
        && before.rules == after.rules
}

// Whether the policies are the same but for at most one weight.
#[tactic(auto, unfolding(crate::specs::Comparable::comparable))]
fn same_but_one(before: &Policy, after: &Policy) -> bool
    ensures { result ≡ comparable before.now after.now }
{
    same_counts(before, after)
        && before.levels() == after.levels()
        && before.rules() == after.rules()
        && actions::same(before.actions(), after.actions())
}

// Whether they can be compared.
#[tactic(auto, using(crate::proofs::Tested::decides))]
pub fn comparable(before: Policy, after: Policy) -> bool
    ensures value { result ≡ comparable before after }
    ensures variant { T result ↔ Comparable before after }
{
    same_but_one(&before, &after)
}
