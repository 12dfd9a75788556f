// What a caller sees of what a call tells.
use states::Rules;

// What a caller sees of what a call of a reader tells: all but the positions of a walk and the count.
#[derive(Clone, Copy, PartialEq, Eq, Debug, Drop)]
pub enum Sight {
    // the new edition, after an accepted change
    Changed {
        edition: u32,
    },
    // the rules ended
    Ended(Rules),
    // a token
    Matched {
        place: usize,
        length: usize,
        rules: Rules,
    },
    // a walk's edition
    Walking {
        edition: u32,
    },
    // a refusal, by the numbers that callers are told, as in `Told`
    Refused {
        number: u8,
        layer: u8,
        place: usize,
    },
}
