// Decimal numbers of 32 bits.
ghost use Rattle.lines.specs.Numerals.{Reads};

// Why bytes are no decimal number of 32 bits.
#[derive(Clone, Copy, PartialEq, Eq, Debug)]
pub enum NoDecimal {
    // there is no byte, or one that is no digit
    NoDigits,
    // the number is above 4,294,967,295
    TooLarge,
}

// The number that decimal digits write.
pub fn decimal(digits: &[u8]) -> Result<u32, NoDecimal>
    ensures { Reads digits.now result }
{
    if digits.is_empty() {
        return Err(NoDecimal::NoDigits);
    }
    // what is above the last number stays above it
    let value = digits
        .iter()
        .try_fold(0u64, |value, byte| {
            let digit = char::from(*byte).to_digit(10)?;
            Some(value.saturating_mul(10).saturating_add(u64::from(digit)))
        })
        .ok_or(NoDecimal::NoDigits)?;
    u32::try_from(value).map_err(|_| NoDecimal::TooLarge)
}
