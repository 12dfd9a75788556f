// What a reader over a book is by the second scanner: the rules in force, the pairs that are kept, and four numbers.
use crate::second::rule::Rule;
use std::alloc::{AllocError, Global};

// So many pairs are kept at most.
const MOST: usize = 512;

// What the book's rules are.
#[derive(Clone, Copy)]
pub(crate) enum Style {
    // expressions over codes up to the last one
    Expressions(u32),
    Templates,
}

// A state and a code that a step was worked out from.
#[derive(Drop)]
pub(crate) struct Pair {
    state: Vec<u64>,
    code: u32,
}

#[derive(Drop)]
pub(crate) struct Twin {
    pub(crate) heap: Global,
    pub(crate) style: Style,
    // in the order in which they came into force, so that names in a state rise
    pub(crate) rules: Vec<Rule>,
    pub(crate) kept: Vec<Pair>,
    // how many rules ever came into force
    pub(crate) generations: u64,
    pub(crate) edition: u32,
    pub(crate) tally: u32,
    pub(crate) note: u32,
    // how many pairs were met and not kept, as `MOST` were
    pub(crate) crowded: u64,
}

impl Pair {
    // Whether the state holds a name of this rule's.
    pub(crate) fn names_of(&self, rule: &Rule) -> bool {
        self.state.iter().any(|name| rule.owns(*name))
    }
}

impl Twin {
    pub(crate) fn new(heap: Global, style: Style, edition: u32) -> Twin {
        Twin {
            heap,
            style,
            rules: Vec::new(heap),
            kept: Vec::new(heap),
            generations: 0,
            edition,
            tally: 0,
            note: 0,
            crowded: 0,
        }
    }

    // The rule in force of this number.
    pub(crate) fn rule(&self, number: u32) -> Option<&Rule> {
        self.rules.iter().find(|rule| rule.number == number)
    }

    // The states from the text's beginning to its end: the names of what can come next, or of the ends that it can be.
    pub(crate) fn states(&self, text: &[u32]) -> Result<Vec<Vec<u64>>, AllocError> {
        let mut states = Vec::new(self.heap);
        for _ in 0..=text.len() {
            states.push(Vec::new(self.heap))?;
        }
        for rule in &self.rules {
            rule.come(self.heap, text, &mut states)?;
        }
        Ok(states)
    }

    // The rules that a state ends, by powers of two.
    pub(crate) fn ended(&self, state: &Vec<u64>) -> u64 {
        let mut rules = 0;
        for rule in &self.rules {
            if state.contains(&rule.end()) {
                rules |= 1u64.wrapping_shl(rule.number);
            }
        }
        rules
    }

    // Meets a pair of a state and a code: whether its step is worked out.
    pub(crate) fn meet(&mut self, state: &Vec<u64>, code: u32) -> Result<bool, AllocError> {
        if state.is_empty() || self.keeps(state, code) {
            return Ok(false);
        }
        self.tally = self.tally.saturating_add(1);
        self.note = self.note.saturating_add(1);
        if self.kept.len() >= MOST {
            self.crowded = self.crowded.saturating_add(1);
            return Ok(true);
        }
        let state = Vec::from_slice(self.heap, state)?;
        self.kept.push(Pair { state, code })?;
        Ok(true)
    }

    fn keeps(&self, state: &Vec<u64>, code: u32) -> bool {
        self.kept.iter().any(|pair| pair.code == code && pair.state.as_slice() == state.as_slice())
    }

    // Meets the pairs of a text in turn, with the states before its codes: how many steps are worked out.
    pub(crate) fn meet_all(
        &mut self,
        states: &Vec<Vec<u64>>,
        text: &[u32],
    ) -> Result<u64, AllocError> {
        let mut count: u64 = 0;
        for (state, code) in states.iter().zip(text) {
            if self.meet(state, *code)? {
                count = count.saturating_add(1);
            }
        }
        Ok(count)
    }
}
