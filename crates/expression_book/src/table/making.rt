// The table of a book without rules.
ghost use Rattle.std.specs.Prelude.{◌≡◌, ℕ, false, List, None};
ghost use Rattle.states.specs.Sets.{has_rule};
ghost use Rattle.books.specs.Texts.{meets};
ghost use Rattle.expression_book.specs.Tables.{table_meaning};

use crate::row::Row;
use crate::table::Table;
use books::Kinds;
use states::State;

impl Table {
    pub(crate) fn new() -> Table
        ensures rules { (q : ℕ) → (table_meaning result).kind q ≡ None }
        ensures texts { (text : List ℕ) (q : ℕ) → has_rule (meets (table_meaning result) text) q ≡ false }
        ensures note { result.asked ≡ 0 }
    {
        let none = State::empty();
        Table {
            kinds: Kinds::new(),
            rows: [Row::blank(); 256],
            live: none,
            start: none,
            ends: none,
            asked: 0,
        }
    }
}
