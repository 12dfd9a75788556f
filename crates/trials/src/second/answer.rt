// What calls answer, in numbers: both scanners tell it so, to be compared.

// A set of rules is told as the sum of the powers of two that are their numbers'.
#[derive(Clone, Copy, PartialEq, Eq, Debug)]
pub(crate) enum Answer {
    Number(u64),
    // the kind of a rule, if it is in force
    Kind(Option<u32>),
    // where the last token begins, and how long it is
    Last {
        place: u64,
        length: u64,
    },
    Read {
        rules: u64,
        count: u64,
    },
    Token {
        place: u64,
        length: u64,
        rules: u64,
        count: u64,
    },
    Refused {
        number: u64,
        layer: u64,
        place: u64,
        count: u64,
    },
}

impl Answer {
    // A refusal with no place and no count.
    pub(crate) fn refused(number: u64, layer: u64) -> Answer {
        Answer::refused_at(number, layer, 0)
    }

    // A refusal at a place, with no count.
    pub(crate) fn refused_at(number: u64, layer: u64, place: usize) -> Answer {
        Answer::Refused {
            number,
            layer,
            place: place as u64,
            count: 0,
        }
    }
}
