// What the calls of a reader answer, by the second scanner.
use crate::second::answer::Answer;
use crate::second::commands::nodes;
use crate::second::rule::{Meaning, Rule};
use crate::second::twin::{Style, Twin};
use std::alloc::AllocError;

// A text and a place in it, and where the last token begins and ends.
#[derive(Drop)]
pub(crate) struct Marker {
    pub(crate) text: Vec<u32>,
    pub(crate) place: usize,
    pub(crate) from: usize,
    pub(crate) to: usize,
}

impl Marker {
    // A place beyond the text's length becomes the length.
    pub(crate) fn new(text: Vec<u32>, place: usize) -> Marker {
        let place = place.min(text.len());
        Marker {
            text,
            place,
            from: place,
            to: place,
        }
    }
}

// A walk: the edition that it began with, and what it was fed.
#[derive(Drop)]
pub(crate) struct Path {
    pub(crate) edition: u32,
    pub(crate) text: Vec<u32>,
}

impl Twin {
    pub(crate) fn add(
        &mut self,
        number: u32,
        kind: u32,
        bytes: &[u8],
    ) -> Result<Answer, AllocError> {
        let meaning = match self.asked(number, kind, bytes)? {
            Ok(meaning) => meaning,
            Err(refused) => return Ok(refused),
        };
        let rule = Rule {
            number,
            kind,
            generation: self.generations,
            meaning,
        };
        let used: usize = self.positions();
        if used.saturating_add(rule.positions()) > 256 {
            return Ok(Answer::refused(12, 2));
        }
        self.rules.push(rule)?;
        self.generations = self.generations.saturating_add(1);
        self.edition = self.edition.saturating_add(1);
        Ok(Answer::Number(u64::from(self.edition)))
    }

    // How many positions the rules in force have.
    pub(crate) fn positions(&self) -> usize {
        let mut used: usize = 0;
        for rule in &self.rules {
            used = used.saturating_add(rule.positions());
        }
        used
    }

    // The questions about an adding, but for that of room: what the rule means, or the refusal.
    fn asked(
        &self,
        number: u32,
        kind: u32,
        bytes: &[u8],
    ) -> Result<Result<Meaning, Answer>, AllocError> {
        if self.edition == u32::MAX {
            return Ok(Err(Answer::refused(1, 1)));
        }
        let (numbers, lengths) = match self.style {
            Style::Expressions(_) => (64, 0..=1024),
            Style::Templates => (8, 1..=31),
        };
        if number >= numbers {
            return Ok(Err(Answer::refused(2, 2)));
        }
        if kind >= 4096 {
            return Ok(Err(Answer::refused(3, 2)));
        }
        if self.rule(number).is_some() {
            return Ok(Err(Answer::refused(4, 2)));
        }
        if !lengths.contains(&bytes.len()) {
            return Ok(Err(Answer::refused(5, 2)));
        }
        self.meaning(bytes)
    }

    fn meaning(&self, bytes: &[u8]) -> Result<Result<Meaning, Answer>, AllocError> {
        Ok(match self.style {
            Style::Templates => Ok(Meaning::Template(Vec::from_slice(self.heap, bytes)?)),
            Style::Expressions(last) => match nodes(self.heap, bytes, last)? {
                Ok(nodes) => Ok(Meaning::Expression(nodes)),
                Err(fault) => Err(Answer::refused_at(fault.number, 3, fault.place)),
            },
        })
    }

    // Pairs whose state holds a leaf or the end of the rule are kept no longer.
    pub(crate) fn delete(&mut self, number: u32) -> Answer {
        if self.edition == u32::MAX {
            return Answer::refused(1, 1);
        }
        let Some(at) = self.rules.iter().position(|rule| rule.number == number) else {
            return Answer::refused(13, 2);
        };
        let gone = self.rules.remove(at);
        self.kept.retain(|pair| !pair.names_of(&gone));
        self.edition = self.edition.saturating_add(1);
        Answer::Number(u64::from(self.edition))
    }

    pub(crate) fn read(&mut self, text: &[u32]) -> Result<Answer, AllocError> {
        let states = self.states(text)?;
        let count = self.meet_all(&states, text)?;
        let rules = states.last().map_or(0, |state| self.ended(state));
        Ok(Answer::Read { rules, count })
    }

    // The longest beginning of the rest, not empty, that some rule's expression denotes.
    pub(crate) fn peek(&mut self, marker: &Marker) -> Result<Answer, AllocError> {
        let rest = marker.text.get(marker.place..).unwrap_or(&[]);
        let place = marker.place as u64;
        let states = self.states(rest)?;
        let count = self.meet_all(&states, rest)?;
        let mut longest = Answer::Refused {
            number: 14,
            layer: 1,
            place,
            count,
        };
        for (length, state) in states.iter().enumerate().skip(1) {
            let rules = self.ended(state);
            if rules != 0 {
                longest = Answer::Token {
                    place,
                    length: length as u64,
                    rules,
                    count,
                };
            }
        }
        Ok(longest)
    }

    pub(crate) fn token(&mut self, marker: &mut Marker) -> Result<Answer, AllocError> {
        let answer = self.peek(marker)?;
        if let Answer::Token { length, .. } = answer {
            marker.from = marker.place;
            marker.place = marker.place.saturating_add(length as usize);
            marker.to = marker.place;
        }
        Ok(answer)
    }

    pub(crate) fn begin(&self) -> Path {
        Path {
            edition: self.edition,
            text: Vec::new(self.heap),
        }
    }

    // 1 where the step was worked out, else 0.
    pub(crate) fn feed(&mut self, path: &mut Path, code: u32) -> Result<Answer, AllocError> {
        if path.edition != self.edition {
            return Ok(Answer::refused(15, 1));
        }
        let mut states = self.states(&path.text)?;
        let state = states.pop().unwrap_or(Vec::new(self.heap));
        path.text.push(code)?;
        Ok(Answer::Number(u64::from(self.meet(&state, code)?)))
    }

    pub(crate) fn finish(&self, path: &Path) -> Result<Answer, AllocError> {
        if path.edition != self.edition {
            return Ok(Answer::refused(15, 1));
        }
        let states = self.states(&path.text)?;
        Ok(Answer::Number(states.last().map_or(0, |state| self.ended(state))))
    }
}
