// Narrowing steps on the rules of a unit, and the choice of the atom to decide next.
// A search stands on steps, support_step with its backers, unfounded, the last function of founded_step, and of choice on the rule at a stop.
// The rest is advice, of which any answer is right: the atom and the phase that choice tells, the closure of founded_step, loops and woken.
#![tactic(auto)]

pub mod backers;
pub mod choice;
pub mod founded_step;
pub mod loops;
pub mod marks;
pub mod steps;
pub mod support_step;
pub mod unfounded;
pub mod woken;
