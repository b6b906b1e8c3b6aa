// A policy of which question 3 is answered yes.
ghost use Rattle.policy.specs.Laws.{InRange};
ghost use Rattle.order.specs.Laws.Props.{InRange-prop};

use policy::Policy;

// Each number of the policy is in its range.
#[derive(Clone, Copy)]
pub struct Ranged<'a> {
    pub policy: &'a Policy,
    ghost in_range: { InRange policy.now } by { InRange-prop policy.now },
}
