// Compares the reader with a second scanner: random rules, texts and histories of calls on both, and every answer side by side.
#![tactic(auto)]

mod random;
mod second;
mod trial;

use expression_book::ExpressionBook;
use numbers::NumberBook;
use random::Random;
use second::twin::{Style, Twin};
use std::alloc::{AllocError, Global};
use std::io;
use symbols::Event;
use templates::TemplateBook;
use trial::bench::Bench;
use trial::histories::{changing, reading};
use trial::making::event;
use trial::names::Subject;
use trial::plan::Plan;
use trial::report::Report;

// All that is random comes of this number.
const SEED: u64 = 8_735_461;

// So many histories are tried over each kind of book.
const HISTORIES: u32 = 1000;

// So many events are made for each history over events.
const EVENTS: u32 = 10;

fn main(rt: HostRuntime) -> io::Result<()> {
    let heap = rt.alloc();
    println!(rt; "seed {SEED}, {HISTORIES} histories over each kind of book")?;
    let mut random = Random::new(SEED);
    let mut bench = Bench {
        plan: Plan::new(heap, &mut random, Subject::Bytes)?,
        random,
        report: Report::new(heap)?,
        subject: Subject::Bytes,
        texts: Vec::new(heap),
    };
    for _ in 0..HISTORIES {
        over_bytes(heap, &mut bench)?;
        over_events(heap, &mut bench)?;
        over_templates(heap, &mut bench)?;
        over_numbers(heap, &mut bench)?;
        over_patterns(heap, &mut bench)?;
    }
    bench.report.print(&rt)
}

fn over_bytes(heap: Global, bench: &mut Bench) -> Result<(), AllocError> {
    bench.turn_to(heap, Subject::Bytes)?;
    let book: ExpressionBook<u8> = ExpressionBook::new();
    let twin = Twin::new(heap, Style::Expressions(255), bench.plan.edition);
    changing(bench, book, twin)
}

fn over_patterns(heap: Global, bench: &mut Bench) -> Result<(), AllocError> {
    bench.turn_to(heap, Subject::Patterns)?;
    let book: ExpressionBook<u8> = ExpressionBook::new();
    let twin = Twin::new(heap, Style::Expressions(255), bench.plan.edition);
    changing(bench, book, twin)
}

fn over_events(heap: Global, bench: &mut Bench) -> Result<(), AllocError> {
    bench.turn_to(heap, Subject::Events)?;
    let book: ExpressionBook<Event> = ExpressionBook::new();
    let twin = Twin::new(heap, Style::Expressions(65535), bench.plan.edition);
    changing(bench, book, twin)?;
    for _ in 0..EVENTS {
        event(bench)?;
    }
    Ok(())
}

fn over_templates(heap: Global, bench: &mut Bench) -> Result<(), AllocError> {
    bench.turn_to(heap, Subject::Templates)?;
    let twin = Twin::new(heap, Style::Templates, bench.plan.edition);
    changing(bench, TemplateBook::new(), twin)
}

fn over_numbers(heap: Global, bench: &mut Bench) -> Result<(), AllocError> {
    bench.turn_to(heap, Subject::Numbers)?;
    let twin = Twin::numbers(heap, bench.plan.edition)?;
    reading(bench, NumberBook::new(), NumberBook::new(), twin)
}
