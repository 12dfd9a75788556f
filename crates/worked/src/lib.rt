// Worked lines: what the definitions mean, in numbers, as one result.
#![tactic(auto)]

ghost use Rattle.worked.specs.Worked.{WorkedLines};

// The steps of the four runs of calls.
const STEPS: u8 = 16;

// Answers how many steps the calls of the worked lines work out, all together. The contract says what each of them answers, to every
// new reader over an expression book over bytes; what the number book says of two texts; and what five pattern texts give.
pub fn worked_steps() -> u8
    ensures { WorkedLines result }
{
    STEPS
}
