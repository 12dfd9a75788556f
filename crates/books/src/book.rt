// The reading interface.
ghost use Rattle.std.specs.Prelude.{◌≡◌, ℕ, is_some};
ghost use Rattle.states.specs.Sets.{has};
ghost use Rattle.books.specs.Meaning.{Model, asked, Lawful};

use states::{Rules, State};
use symbols::Symbol;

// A rule book that can be read. None of these calls alters more than the note, and none answers by it.
pub trait Book {
    type Symbol: Symbol;

    ghost model: { Self → Model };

    // The positions that rules own.
    fn live(&self) -> State
        ensures { (p : ℕ) → has result p ≡ is_some ((model self.now).meaning.owner p) };

    // The state that every reading starts from.
    fn start(&self) -> State
        ensures { result ≡ (model self.now).meaning.start };

    // The state that a symbol leads to. The book makes a new note of being asked.
    fn next(&mut self, state: State, symbol: Self::Symbol) -> State
        ensures value { result ≡ (model self.old).meaning.next state (Self.Symbol.Symbol.code symbol) }
        ensures after { model self.new ≡ asked state (Self.Symbol.Symbol.code symbol) (model self.old) };

    // The rules that a state ends.
    fn ended(&self, state: State) -> Rules
        ensures { result ≡ (model self.now).meaning.ended state };

    // The kind of a rule, or none where the rule is not in force.
    fn kind(&self, rule: u32) -> Option<u16>
        ensures { result ≡ (model self.now).meaning.kind rule };

    ghost lawful: { (b : Self) → Lawful (model b).meaning };
}
