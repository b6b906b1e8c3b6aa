// What not to touch beside a set that is enough.
ghost use Rattle.std.specs.Prelude.{◌≡◌};
ghost use Rattle.engine.specs.Sets.{Enough};
ghost use Rattle.engine.specs.Calls.{keep_for};

use words::Words;

// The set's best keep-off mask. Where no rule has an unless entry more actions do no harm, and nothing is worked.
#[tactic(auto, unfolding(crate::specs::Calls::keep_for))]
pub(crate) fn beside(words: &Words, set: u16) -> u16
    requires { Enough words.now.plan.policy words.now.plan.query set }
    ensures { result ≡ keep_for words.now.plan.policy words.now.plan.query set }
{
    if !keep::some_unless(&words.plan.policy) {
        return 0;
    }
    keep::keep_off(words, set)
}
