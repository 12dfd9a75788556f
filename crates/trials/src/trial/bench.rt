// What a trial is made with, and what is tried.
use crate::random::Random;
use crate::second::calls::Path;
use crate::second::twin::Twin;
use crate::trial::names::Subject;
use crate::trial::plan::Plan;
use crate::trial::report::Report;
use books::Book;
use reader::{Reader, Walk};
use std::alloc::{AllocError, Global};
use std::collections::VecDeque;

#[derive(Drop)]
pub(crate) struct Bench {
    pub(crate) random: Random,
    pub(crate) report: Report,
    pub(crate) subject: Subject,
    pub(crate) plan: Plan,
    // texts that were drawn in this history
    pub(crate) texts: Vec<Vec<u32>>,
}

impl Bench {
    // Turns to another subject, with a plan of its own.
    pub(crate) fn turn_to(&mut self, heap: Global, subject: Subject) -> Result<(), AllocError> {
        self.subject = subject;
        self.texts.clear();
        self.plan = Plan::new(heap, &mut self.random, subject)?;
        Ok(())
    }
}

// A walk by both scanners, and the text that it most often goes along.
#[derive(Drop)]
pub(crate) struct Pair {
    pub(crate) walk: Walk,
    pub(crate) path: Path,
    pub(crate) text: Vec<u32>,
}

// A reader by both scanners, and the walks that are open.
#[derive(Drop)]
pub(crate) struct Trial<B: Book> {
    pub(crate) reader: Reader<B>,
    pub(crate) twin: Twin,
    pub(crate) walks: VecDeque<Pair>,
}
