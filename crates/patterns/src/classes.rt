// Classes: the set of bytes that a body tells.
ghost use Rattle.std.specs.Prelude.{◌≡◌, ℕ, ◌+◌, ◌||◌, length};
ghost use Rattle.states.specs.Sets.{has};
ghost use Rattle.patterns.specs.Classes.{ClassRead, BytesRead, spans, covers, pending};

use crate::faults::PatternFault;
use crate::members::{Member, Members};
use crate::text::Text;
use states::State;

// What the reader of a class holds back: nothing, a member, or a member and the '-' behind it.
#[derive(Clone, Copy)]
enum Held {
    Nothing,
    Member(Member),
    Dash(Member, Member),
}

// The bytes of the class with this body: those of its members, or all others where '^' stands before them.
pub(crate) fn class_bytes(body: Text) -> Result<State, PatternFault>
    ensures { BytesRead (body.entry.place + length body.entry.bytes.now) body.entry.bytes.now result }
{
    match body.bytes {
        [b'^', ..] => {
            let others = class_set(body.skip(1))?;
            Ok(State::full().without(others))
        }
        _ => class_set(body),
    }
}

// The bytes of the members and ranges that a text tells.
fn class_set(text: Text) -> Result<State, PatternFault>
    ensures { ClassRead (text.entry.place + length text.entry.bytes.now) text.entry.bytes.now result }
{
    let mut set = State::empty();
    let mut held = Held::Nothing;
    for member in Members(text) {
        held = match (held, member.value) {
            (Held::Nothing, _) => Held::Member(member),
            (Held::Member(left), b'-') if member.bare => Held::Dash(left, member),
            (Held::Member(left), _) => {
                set = set.with_range(left.value, left.value);
                Held::Member(member)
            }
            (Held::Dash(left, _), right) => {
                if right < left.value {
                    return Err(PatternFault::FallingRange(left.place));
                }
                set = set.with_range(left.value, right);
                Held::Nothing
            }
        };
    }
    Ok(with_held(set, held))
}

// What is held at the end of a body stands for itself.
fn with_held(set: State, held: Held) -> State
    ensures { (p : ℕ) → has result p ≡ (has set p || covers (spans (pending held)) p) }
{
    match held {
        Held::Nothing => set,
        Held::Member(member) => set.with_range(member.value, member.value),
        Held::Dash(left, dash) => {
            let set = set.with_range(left.value, left.value);
            set.with_range(dash.value, dash.value)
        }
    }
}
