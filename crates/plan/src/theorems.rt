// What is proved of plans, where no call of a plan itself says it.
ghost use Rattle.plan.specs.Kept.{EveryModel};
ghost use Rattle.plan.specs.Worked.{Worked};

// Whichever model is kept, a call is answered by it, and the model after the call is kept, as by the plan's own.
#[tactic(auto, using(crate::proofs::Kept::every_model))]
pub fn every_model()
    ensures { EveryModel }
{}

// A plan of three moves by numbers, with calls that edit it.
#[tactic(auto, unfolding(motion::specs::Roots::root))]
pub fn worked_examples()
    ensures { Worked }
{}
