// What a reader does, call by call: definitions that its contracts cite, and the laws about them.
#![tactic(auto)]

ghost use Rattle.readings.specs.Example.{Repeated};

// Such a history's steps.
const STEPS: u8 = 2;

// Answers how many steps are worked out in a history that reads one text four times, with a rule added and deleted between. The
// contract shows the history, which meets every premise of what histories promise: the promise is not an empty one.
pub fn repeated_history_steps() -> u8
    ensures { Repeated result }
{
    STEPS
}
