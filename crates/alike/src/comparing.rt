// Two readers compared by what their callers see.
ghost use Rattle.std.specs.Prelude.{◌≡◌, Decides};
ghost use Rattle.alike.specs.Alike.{Alike};
ghost use Rattle.alike.specs.Sights.{EqualityDecides};

use crate::sight::Sight;

// Whether the callers of two readers saw the same, call by call; `==` of two sights decides whether they are the same. Readers over
// expression books with the same rules, made alike and given the same calls, answer alike: of what their callers saw the answer is yes.
pub fn agree(first: &[Sight], second: &[Sight]) -> bool
    ensures same { Decides result (first.now ≡ second.now) }
    ensures equality { EqualityDecides }
    ensures alike { Alike first.now second.now result }
{
    first == second
}
