// What the book keeps for a position.
ghost use Rattle.std.specs.Prelude.{◌≡◌, ℕ, ◌&&◌};
ghost use Rattle.states.specs.Sets.{has};
ghost use Rattle.expression_book.specs.Rows.{blank, takes};

use crate::given::given;
use expressions::CodeRange;
use states::State;

// The rule that owns the position, the codes that it takes, and the positions that can follow it.
#[derive(Clone, Copy)]
pub(crate) struct Row {
    pub(crate) rule: u8,
    pub(crate) codes: CodeRange,
    pub(crate) follow: State,
}

impl Row {
    // The row of a position that no rule owns; its rule is any, since `live` says of all positions in one set which are owned. No derived `Default`: that would be a range from 0 to 0, which takes the code 0.
    pub(crate) fn blank() -> Row
        ensures { result ≡ blank }
    {
        Row {
            rule: 0,
            codes: CodeRange::none(),
            follow: State::empty(),
        }
    }

    // Where the code leads from this position.
    pub(crate) fn after(self, code: u16) -> State
        ensures { (q : ℕ) → has result q ≡ (takes self code && has self.follow q) }
    {
        given(self.codes.contains(code), self.follow)
    }
}
