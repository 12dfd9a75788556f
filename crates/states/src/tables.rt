// Where a set of positions leads.
ghost use Rattle.std.specs.Prelude.{◌≡◌, slice_index_or};
ghost use Rattle.states.specs.Sets.{has, nothing};
ghost use Rattle.states.specs.Words.{Gathers};

use crate::State;

// The union of the table's entries at the members of `from`. Books take such unions by a loop of their own: one function for all of
// them would take a closure that answers a set, and a bound `Fn(u8) -> Set<WORDS>` is not covered, since it names a const parameter;
// by `fold` it was proved only with a clause in the closure, which says what the loop's invariant says.
pub fn follow(from: State, table: &[State; 256]) -> State
    ensures { Gathers (λ p. has (slice_index_or table.now p nothing)) (has from) (has result) }
{
    let mut out = State::empty();
    for p in from.members() {
        out = out.union(table[p as usize]);
    }
    out
}
