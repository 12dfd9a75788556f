// What each position of the number book takes, and which positions may follow it.
ghost use Rattle.std.specs.Prelude.{◌≡◌};
ghost use Rattle.numbers.specs.Number.{number_next};

use expressions::CodeRange;
use states::State;

// The codes that a position takes, and the positions that may follow it.
#[derive(Clone, Copy)]
struct Row {
    codes: CodeRange,
    follow: State,
}

// The codes that positions take, by both ends, and below the positions that follow, by words: a constant calls no function.
const DIGIT: CodeRange = CodeRange {
    low: b'0' as u16,
    high: b'9' as u16,
};

const POINT: CodeRange = CodeRange {
    low: b'.' as u16,
    high: b'.' as u16,
};

const M: CodeRange = CodeRange {
    low: b'm' as u16,
    high: b'm' as u16,
};

const NONE: CodeRange = CodeRange { low: 1, high: 0 };

// In order: a digit before '.', '.', a digit after it, 'm', 'm', and the end, which takes no code.
const TABLE: [Row; 6] = [
    Row {
        codes: DIGIT,
        follow: State {
            words: [0b101011, 0, 0, 0],
        },
    },
    Row {
        codes: POINT,
        follow: State {
            words: [0b000100, 0, 0, 0],
        },
    },
    Row {
        codes: DIGIT,
        follow: State {
            words: [0b101100, 0, 0, 0],
        },
    },
    Row {
        codes: M,
        follow: State {
            words: [0b010000, 0, 0, 0],
        },
    },
    Row {
        codes: M,
        follow: State {
            words: [0b100000, 0, 0, 0],
        },
    },
    Row {
        codes: NONE,
        follow: State { words: [0; 4] },
    },
];

// The positions that may follow those of the state that take the code. A loop: `fold` tells its result by a function and `union` by
// members, and the check proved all of a chain of `filter` and `fold` but that result.
pub(crate) fn step(state: State, code: u8) -> State
    ensures { result ≡ number_next state code }
{
    let mut out = State::empty();
    for (p, row) in TABLE.iter().enumerate() {
        if state.holds(p as u8) && row.codes.contains(u16::from(code)) {
            out = out.union(row.follow);
        }
    }
    out
}
