// The positions of all rules in force, apart from their operations, whose contracts name this type.
ghost use Rattle.std.specs.Prelude.{◌≡◌, ℕ, true, length, is_some};
ghost use Rattle.states.specs.Sets.{has};
ghost use Rattle.books.specs.Kinds.{kind_in};
ghost use Rattle.expression_book.specs.Rows.{row};

use crate::row::Row;
use books::Kinds;
use states::State;

mod building;
mod changing;
mod linking;
mod making;
mod reading;
mod removing;

// Rule numbers lie below this.
pub(crate) const RULES: usize = 64;

// The rules in force by their positions. Each symbol of a rule owns one, and so does the rule's end.
// The template book has kinds, live, start, ends and asked too, and they are no struct: what holds of them differs, since a rule's
// positions are a block there and any here, and each fact would have to be said of the struct and again of its part.
#[derive(Drop)]
pub(crate) struct Table {
    // the kinds of the rules in force
    pub(crate) kinds: Kinds<RULES>,
    // by position: an array is the map from numbers below 256, and a book allocates nothing
    pub(crate) rows: [Row; 256],
    // the positions that rules own
    pub(crate) live: State,
    // the first positions of all rules
    pub(crate) start: State,
    // the end positions of all rules
    pub(crate) ends: State,
    // how often a next state was asked for
    pub(crate) asked: u32,
    ghost long: { length rows ≡ 256 },
    ghost owned: { (p : ℕ) → has live p ≡ true → is_some (kind_in kinds (row rows p).rule) ≡ true },
    ghost starting: { (p : ℕ) → has start p ≡ true → has live p ≡ true },
    ghost ending: { (p : ℕ) → has ends p ≡ true → has live p ≡ true },
    // what is followed and what follows is live, and of one rule
    ghost followed: { (p q : ℕ) → has (row rows p).follow q ≡ true → has live p ≡ true },
    ghost follows: { (p q : ℕ) → has (row rows p).follow q ≡ true → has live q ≡ true },
    ghost together: { (p q : ℕ) → has (row rows p).follow q ≡ true → (row rows q).rule ≡ (row rows p).rule },
}
