// What is kept of an expression that waits.
ghost use Rattle.std.specs.Prelude.{ℕ};
ghost use Rattle.expressions.specs.Expression.{Expr, Labelled};
ghost use Rattle.expression_book.specs.Parts.{Shows};

use crate::given::given;
use states::State;

// Whether the expression denotes the empty text, and the positions that can come first and last.
#[derive(Clone, Copy)]
pub(crate) struct Part {
    pub(crate) nullable: bool,
    pub(crate) first: State,
    pub(crate) last: State,
}

impl Part {
    // The empty string.
    pub(crate) fn empty() -> Part
        ensures { Shows result Expr.empty }
    {
        Part {
            nullable: true,
            first: State::empty(),
            last: State::empty(),
        }
    }

    // One symbol, at its position.
    pub(crate) fn symbol(at: u8) -> Part
        ensures { (low high : ℕ) → Shows result (Expr.symbol at low high) }
    {
        let only = State::single(at);
        Part {
            nullable: false,
            first: only,
            last: only,
        }
    }

    // One behind the other.
    pub(crate) fn join(self, next: Part) -> Part
        ensures { (a b : Labelled) → Shows self a → Shows next b → Shows result (Expr.join a b) }
    {
        Part {
            nullable: self.nullable && next.nullable,
            first: self.first.union(given(self.nullable, next.first)),
            last: next.last.union(given(next.nullable, self.last)),
        }
    }

    // One or the other.
    pub(crate) fn either(self, other: Part) -> Part
        ensures { (a b : Labelled) → Shows self a → Shows other b → Shows result (Expr.either a b) }
    {
        Part {
            nullable: self.nullable || other.nullable,
            first: self.first.union(other.first),
            last: self.last.union(other.last),
        }
    }

    // Perhaps nothing of it.
    pub(crate) fn optional(self) -> Part
        ensures once { (a : Labelled) → Shows self a → Shows result (Expr.optional a) }
        ensures often { (a : Labelled) → Shows self a → Shows result (Expr.star a) }
    {
        Part {
            nullable: true,
            ..self
        }
    }
}

// A place of a stack that holds no part is blank. By hand, since a set has no `Default` to derive one from.
impl Default for Part {
    fn default() -> Part {
        Part::empty()
    }
}
