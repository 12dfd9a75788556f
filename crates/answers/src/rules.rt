// Rules that a text met, and their kinds.
ghost use Rattle.std.specs.Prelude.{◌≡◌, ℕ, List, Some, decimal};
ghost use Rattle.answers.specs.Texts.{kind_text, listed, met};
ghost use Rattle.states.specs.Sets.{members};

use books::Book;
use states::Rules;
use std::fmt;

// Rules, and the kind of each.
#[derive(Drop)]
pub(crate) struct Met<'b, B> {
    pub(crate) book: &'b B,
    pub(crate) rules: Rules,
}

impl<B: Book> fmt::Display for Met<'_, B> {
    ghost output = { λ m. Some (met (B.Book.model m.book.now).meaning.kind m.rules) };

    #[tactic(auto, unfolding(crate::specs::Texts::met))]
    fn fmt<W: fmt::Write>(&self, f: &mut fmt::Formatter<W>) -> fmt::Result {
        let rules = Listed {
            rules: self.rules,
            item: Number,
        };
        let kinds = Listed {
            rules: self.rules,
            item: KindIn(self.book),
        };
        write!(f, "rules={rules} kinds={kinds}")
    }
}

// What a list has of each rule.
trait Item {
    type Text: fmt::Display + Drop;

    ghost text: { Self → ℕ → List ℕ };

    fn of(&self, rule: u8) -> Self::Text
        ensures { Self.Text.output result ≡ Some (text self.now rule) };
}

// The rule's number.
#[derive(Clone, Copy)]
struct Number;

impl Item for Number {
    type Text = u8;

    ghost text = { λ _ n. decimal n };

    fn of(&self, rule: u8) -> u8 {
        rule
    }
}

// The rule's kind in a book.
#[derive(Drop)]
struct KindIn<'b, B>(&'b B);

impl<B: Book> Item for KindIn<'_, B> {
    type Text = KindText;

    ghost text = { λ k n. kind_text ((B.Book.model k.0.now).meaning.kind n) };

    fn of(&self, rule: u8) -> KindText {
        KindText(self.0.kind(u32::from(rule)))
    }
}

// A rule's kind, or a dash where the rule is not in force.
#[derive(Clone, Copy)]
pub(crate) struct KindText(pub(crate) Option<u16>);

impl fmt::Display for KindText {
    ghost output = { λ k. Some (kind_text k.0) };

    fn fmt<W: fmt::Write>(&self, f: &mut fmt::Formatter<W>) -> fmt::Result {
        match self.0 {
            Some(kind) => write!(f, "{kind}"),
            None => write!(f, "-"),
        }
    }
}

// The items of rules in rising order, with commas between them, or a dash where there is no rule. Its loop is that of `Text` over a
// set's members: one over any iterator would have to be told what that yields, which is longer than the loop.
#[derive(Drop)]
struct Listed<I> {
    rules: Rules,
    item: I,
}

impl<I: Item> fmt::Display for Listed<I> {
    ghost output = { λ l. Some (listed (I.text l.item) (members l.rules)) };

    fn fmt<W: fmt::Write>(&self, f: &mut fmt::Formatter<W>) -> fmt::Result {
        let mut rules = self.rules.members();
        let Some(lowest) = rules.next() else {
            return write!(f, "-");
        };
        let first = self.item.of(lowest);
        write!(f, "{first}")?;
        for rule in rules {
            let next = self.item.of(rule);
            write!(f, ",{next}")?;
        }
        Ok(())
    }
}
