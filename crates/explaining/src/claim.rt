// What is claimed of a step.
ghost use Rattle.propagating.specs.Step.{IsStep};

use propagating::step::Step;
use states::State;

// A claim: from this part of a state the step tells the goal. For the unfounded step also the atoms that it drops; `explain` finds these itself.
#[derive(Clone, Copy)]
pub struct Claim {
    pub step: Step,
    pub part: State,
    pub goal: State,
    pub unfounded: u64,
    pub ghost there: { IsStep step },
}
