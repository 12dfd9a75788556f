// How many answers were compared, and how many of them differed.
use crate::second::answer::Answer;
use crate::second::twin::Twin;
use crate::trial::names::{CALLS, Call, SUBJECTS, Subject};
use std::alloc::{AllocError, Global};
use std::io;

// Refusals have numbers below this.
const REFUSALS: usize = 27;

// So many differences are shown.
const SHOWN: u64 = 20;

// By subject, and within it by call or by the refusal's number.
#[derive(Drop)]
pub(crate) struct Report {
    compared: Vec<u64>,
    differing: Vec<u64>,
    refusals: Vec<u64>,
    // by subject: the texts and tokens that met a rule, and those that met several
    met: Vec<u64>,
    several: Vec<u64>,
    // by subject: the steps worked out, and those of them that were not kept, as the table was full
    steps: Vec<u64>,
    crowded: Vec<u64>,
    shown: u64,
    differences: String,
}

// Adds to a count.
fn raise(counts: &mut Vec<u64>, at: usize, by: u64) {
    if let Some(count) = counts.get_mut(at) {
        *count = count.saturating_add(by);
    }
}

// The count of a row and a column.
fn place_of(row: usize, width: usize, column: usize) -> usize {
    row.saturating_mul(width).saturating_add(column)
}

fn count_at(counts: &Vec<u64>, at: usize) -> u64 {
    counts.get(at).copied().unwrap_or(0)
}

fn total(counts: &Vec<u64>) -> u64 {
    let mut sum: u64 = 0;
    for count in counts {
        sum = sum.saturating_add(*count);
    }
    sum
}

impl Report {
    pub(crate) fn new(heap: Global) -> Result<Report, AllocError> {
        let subjects = SUBJECTS.len();
        let calls = subjects.saturating_mul(CALLS.len());
        Ok(Report {
            compared: vec![in heap; 0; calls]?,
            differing: vec![in heap; 0; calls]?,
            refusals: vec![in heap; 0; subjects.saturating_mul(REFUSALS)]?,
            met: vec![in heap; 0; subjects]?,
            several: vec![in heap; 0; subjects]?,
            steps: vec![in heap; 0; subjects]?,
            crowded: vec![in heap; 0; subjects]?,
            shown: 0,
            differences: String::new(heap),
        })
    }

    // Compares the answers of the library and of the second scanner.
    pub(crate) fn compare(
        &mut self,
        subject: Subject,
        call: Call,
        first: Answer,
        second: Answer,
    ) -> Result<(), AllocError> {
        let at = place_of(subject as usize, CALLS.len(), call as usize);
        raise(&mut self.compared, at, 1);
        self.count(subject, second);
        if first == second {
            return Ok(());
        }
        raise(&mut self.differing, at, 1);
        if self.shown < SHOWN {
            self.shown = self.shown.saturating_add(1);
            let book = subject.name();
            let name = call.name();
            writeln!(
                self.differences,
                "differs, {book}, {name}: {first:?}, but by the second scanner {second:?}"
            )?;
        }
        Ok(())
    }

    // Counts what came: refusals by their number, and rules met.
    fn count(&mut self, subject: Subject, answer: Answer) {
        let subject = subject as usize;
        match answer {
            Answer::Refused { number, .. } => {
                raise(
                    &mut self.refusals,
                    place_of(subject, REFUSALS, number as usize),
                    1,
                );
            }
            Answer::Read { rules, .. } | Answer::Token { rules, .. } => {
                raise(&mut self.met, subject, u64::from(rules != 0));
                raise(
                    &mut self.several,
                    subject,
                    u64::from(rules.count_ones() > 1),
                );
            }
            _ => {}
        }
    }

    // Counts the steps of a history.
    pub(crate) fn count_steps(&mut self, subject: Subject, twin: &Twin) {
        raise(&mut self.steps, subject as usize, u64::from(twin.tally));
        raise(&mut self.crowded, subject as usize, twin.crowded);
    }

    // Prints all of it.
    pub(crate) fn print(&self, rt: &impl Print) -> io::Result<()> {
        for (at, subject) in SUBJECTS.iter().enumerate() {
            println!(rt; "\n{subject}")?;
            self.print_calls(rt, at)?;
            self.print_refusals(rt, at)?;
            self.print_steps(rt, at)?;
        }
        let compared = total(&self.compared);
        let differing = total(&self.differing);
        println!(rt; "\nall: {compared} answers compared, {differing} differ")?;
        let differences = self.differences.as_str();
        print!(rt; "{differences}")
    }

    fn print_calls(&self, rt: &impl Print, subject: usize) -> io::Result<()> {
        for (at, call) in CALLS.iter().enumerate() {
            let at = place_of(subject, CALLS.len(), at);
            let compared = count_at(&self.compared, at);
            let differing = count_at(&self.differing, at);
            if compared > 0 {
                println!(rt; "  {call:<8} {compared:>8} compared, {differing} differ")?;
            }
        }
        Ok(())
    }

    fn print_refusals(&self, rt: &impl Print, subject: usize) -> io::Result<()> {
        print!(rt; "  refusals, by number:")?;
        for number in 0..REFUSALS {
            let times = count_at(&self.refusals, place_of(subject, REFUSALS, number));
            if times > 0 {
                print!(rt; " {number}: {times};")?;
            }
        }
        println!(rt; "")
    }

    fn print_steps(&self, rt: &impl Print, subject: usize) -> io::Result<()> {
        let met = count_at(&self.met, subject);
        let several = count_at(&self.several, subject);
        let steps = count_at(&self.steps, subject);
        let crowded = count_at(&self.crowded, subject);
        println!(rt; "  a rule was met {met} times, several {several} times")?;
        println!(rt; "  steps worked out: {steps}, of which not kept in a full table: {crowded}")
    }
}
