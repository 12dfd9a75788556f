// What the library's calls answer, in numbers.
use crate::second::answer::Answer;
use books::{Refusal, Told};
use reader::Token;
use states::Rules;

// The sum of the powers of two that are the rules' numbers'.
pub(crate) fn rules(met: Rules) -> u64 {
    let mut sum = 0;
    for rule in met.members() {
        sum |= 1u64.wrapping_shl(u32::from(rule));
    }
    sum
}

pub(crate) fn told(told: Told) -> Answer {
    Answer::Refused {
        number: u64::from(told.number),
        layer: u64::from(told.layer),
        place: told.place as u64,
        count: told.count as u64,
    }
}

pub(crate) fn refused(refusal: Refusal) -> Answer {
    told(refusal.tell())
}

pub(crate) fn read(answer: reader::Answer) -> Answer {
    Answer::Read {
        rules: rules(answer.rules),
        count: answer.count as u64,
    }
}

pub(crate) fn token(answer: Result<Token, Refusal>) -> Answer {
    match answer {
        Ok(token) => Answer::Token {
            place: token.place as u64,
            length: token.length as u64,
            rules: rules(token.rules),
            count: token.count as u64,
        },
        Err(refusal) => refused(refusal),
    }
}

pub(crate) fn changed(answer: Result<u32, Refusal>) -> Answer {
    match answer {
        Ok(edition) => Answer::Number(u64::from(edition)),
        Err(refusal) => refused(refusal),
    }
}
