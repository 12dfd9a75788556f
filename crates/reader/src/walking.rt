ghost use Rattle.std.specs.Prelude.{◌≡◌, IfErr, OnOk, MatchResult};
ghost use Rattle.books.specs.declared.refusal.Refusal.TheVariants.{StaleWalk as Stale};
ghost use Rattle.readings.specs.Readings.{ReadsAsMeant};
ghost use Rattle.readings.specs.Readings.Reading.{feed as feeding};
ghost use Rattle.readings.specs.Calls.{Does, Ours};
ghost use Rattle.readings.specs.Calls.Call.{read as reads, begin as beginning, finish as finishing};
ghost use Rattle.reader.specs.View.{view};
ghost use Rattle.reader.specs.Answers.{walk_told, fed_told, fed_count, finish_told};

use crate::reader::Reader;
use crate::walk::{Fed, HandedBack, Walk};
use books::{Book, Refusal};
use states::Rules;
use symbols::Symbol;

impl<B: Book> Reader<B> {
    // Begins a walk at the start state.
    pub fn begin(&self) -> Walk
        ensures { Does beginning (walk_told result) 0 (view self.now) (view self.now) }
    {
        Walk {
            state: self.book.start(),
            edition: self.edition,
        }
    }

    // The walk, if it carries this edition and its positions are live here. Another is handed back.
    fn own(&self, walk: Walk) -> Result<Walk, HandedBack>
        ensures { MatchResult result
            (λ w. (w ≡ walk) × Ours (view self.now) walk.edition walk.state)
            (λ h. (h ≡ record { walk = walk; refusal = Stale }) × ¬ Ours (view self.now) walk.edition walk.state) }
    {
        if walk.edition == self.edition && walk.state.within(self.book.live()) {
            Ok(walk)
        } else {
            Err(HandedBack {
                walk,
                refusal: Refusal::StaleWalk,
            })
        }
    }

    // Goes on by one symbol. A walk of another edition, or with positions that are not live here, is handed back.
    pub fn feed(&mut self, walk: Walk, symbol: B::Symbol) -> Result<Fed, HandedBack>
        ensures does { Does (reads (feeding walk.edition walk.state (B.Symbol.Symbol.code symbol))) (fed_told result) (fed_count result) (view self.old) (view self.new) }
        ensures meant { OnOk result (ReadsAsMeant (feeding walk.edition walk.state (B.Symbol.Symbol.code symbol)) (fed_told result) (fed_count result) (view self.old) (view self.new)) }
        ensures back { IfErr result (λ h. (h.walk ≡ walk) × (self.new ≡ self.old)) }
    {
        let walk = self.own(walk)?;
        if walk.state.is_empty() {
            return Ok(Fed {
                walk,
                worked: false,
            });
        }
        let taken = self.step(walk.state, symbol);
        Ok(Fed {
            walk: Walk {
                state: taken.state,
                edition: walk.edition,
            },
            worked: taken.worked,
        })
    }

    // Ends a walk, and answers the rules that its state ends. A walk that is not this reader's is handed back.
    pub fn finish(&self, walk: Walk) -> Result<Rules, HandedBack>
        ensures does { Does (finishing walk.edition walk.state) (finish_told result) 0 (view self.now) (view self.now) }
        ensures back { IfErr result (λ h. h.walk ≡ walk) }
    {
        let walk = self.own(walk)?;
        Ok(self.book.ended(walk.state))
    }
}
