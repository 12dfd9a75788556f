// The arguments of a command: what stands behind its word and a space, if there is a space.
ghost use Rattle.std.specs.Prelude.{◌≡◌, ℕ, List, Some as Just, Option as Maybe, MatchResult, ◌≢◌};
ghost use Rattle.lines.specs.Hex.{Hex};
ghost use Rattle.lines.specs.Lines.{Alone, AsNew, ExpectsNew, Leads, Parses, behind};
ghost use Rattle.lines.specs.Numerals.{Number, Number32};

use crate::command::{BookName, Command, Expected};
use crate::decimals::{NoDecimal, decimal};
use crate::hex_pairs::is_hex;
use crate::parts::{Parted, SPACE, part};

// What stands behind a word: the bytes after the space, or nothing where there is no space. Each function below says in full what it
// reads and what it expects, and no word for both is plainer, since what it reads has parts of its own in each.
#[derive(Clone, Copy)]
pub struct Behind<'a>(pub Option<&'a [u8]>);

// A number, and what stands behind it.
#[derive(Clone, Copy)]
pub(crate) struct Numbered<'a> {
    pub(crate) number: u32,
    pub(crate) behind: Behind<'a>,
}

impl<'a> Behind<'a> {
    // Nothing stands there, not even a space, and the word alone makes the command.
    pub fn alone<C: Copy>(self, command: C) -> Result<C, Expected>
        ensures { MatchResult result (Alone command (behind self.entry)) (λ x. (x ≡ Expected.NoArgument) × ((c : C) → Alone command (behind self.entry) c → ⊥)) }
    {
        self.0.map_or(Ok(command), |_| Err(Expected::NoArgument))
    }

    // A text as it stands.
    pub fn text(self) -> Result<&'a [u8], Expected>
        ensures { MatchResult result (λ t. behind self.entry ≡ Just t.now) (λ x. (x ≡ Expected.Text) × ((t : List ℕ) → behind self.entry ≢ Just t)) }
    {
        self.0.ok_or(Expected::Text)
    }

    // Pairs of hex digits, as they stand.
    pub fn hex_digits(self) -> Result<&'a [u8], Expected>
        ensures { MatchResult result (λ d. (behind self.entry ≡ Just d.now) × Hex d.now) (λ x. (x ≡ Expected.HexDigits) × ((d : List ℕ) → behind self.entry ≡ Just d → Hex d → ⊥)) }
    {
        self.0
            .filter(|digits| is_hex(digits))
            .ok_or(Expected::HexDigits)
    }

    // A number that stands alone.
    pub fn number(self) -> Result<u32, Expected>
        ensures { MatchResult result (λ n. (d : List ℕ) × (behind self.entry ≡ Just d) × Number d n) (λ x. (x ≡ Expected.Number) × ((n : ℕ) (d : List ℕ) → behind self.entry ≡ Just d → Number d n → ⊥)) }
    {
        let digits = self.0.ok_or(Expected::Number)?;
        saturated(digits)
    }

    // A number that comes first.
    pub(crate) fn leading(self) -> Result<Numbered<'a>, Expected>
        ensures { MatchResult result (λ l. Leads (behind self.entry) l.number (behind l.behind)) (λ x. (x ≡ Expected.Number) × ((n : ℕ) (more : Maybe (List ℕ)) → Leads (behind self.entry) n more → ⊥)) }
    {
        let text = self.0.ok_or(Expected::Number)?;
        let Parted { first, rest } = part(text, SPACE);
        let number = saturated(first)?;
        let behind = Behind(rest);
        Ok(Numbered { number, behind })
    }

    // The name of a book, a space and an edition.
    pub(crate) fn new_reader(self) -> Result<Command<'a>, Expected>
        ensures { Parses (AsNew (behind self.entry)) (ExpectsNew (behind self.entry)) result }
    {
        let text = self.0.ok_or(Expected::Book)?;
        let Parted { first, rest } = part(text, SPACE);
        let book = BookName::try_from(first)?;
        let digits = rest.ok_or(Expected::Edition)?;
        let edition = edition(digits)?;
        Ok(Command::New { book, edition })
    }
}

// A decimal number. One above 4,294,967,295 counts as that, which is above every limit of a call.
pub fn saturated(digits: &[u8]) -> Result<u32, Expected>
    ensures { MatchResult result (λ n. Number digits.now n) (λ x. (x ≡ Expected.Number) × ((n : ℕ) → Number digits.now n → ⊥)) }
{
    decimal(digits).or_else(|fault| match fault {
        NoDecimal::TooLarge => Ok(u32::MAX),
        NoDecimal::NoDigits => Err(Expected::Number),
    })
}

// A decimal number of 32 bits.
fn edition(digits: &[u8]) -> Result<u32, Expected>
    ensures { MatchResult result (λ n. Number32 digits.now n) (λ x. (x ≡ Expected.Edition) × ((n : ℕ) → Number32 digits.now n → ⊥)) }
{
    decimal(digits).map_err(|_| Expected::Edition)
}
