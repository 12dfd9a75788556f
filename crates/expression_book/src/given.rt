// Sets of positions on a condition.
ghost use Rattle.std.specs.Prelude.{◌≡◌, ℕ, ◌&&◌};
ghost use Rattle.states.specs.Sets.{has};

use states::State;

// The set, or nothing where the condition fails.
pub(crate) fn given(condition: bool, set: State) -> State
    ensures { (p : ℕ) → has result p ≡ (condition && has «set» p) }
{
    if condition { set } else { State::empty() }
}
