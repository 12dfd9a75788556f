// A session: the reader in use, and the commands that it runs.
ghost use Rattle.std.specs.Prelude.{◌≡◌, ◌++◌, IfOk, IfErr, OnOk, string_bytes};
ghost use Rattle.books.specs.Meaning.{Model};
ghost use Rattle.answers.specs.Texts.{last_line};
ghost use Rattle.lines.specs.Lines.{Decodable};
ghost use Rattle.passes.specs.Runs.{Ran};
ghost use Rattle.passes.specs.declared.fault.Fault.TheVariants.{NoMemory};
ghost use Rattle.patterns.specs.Outcome.{outcome};
ghost use Rattle.contexts.specs.Contexts.{use_of};
ghost use Rattle.contexts.specs.Uses.{Obeys, Shows, Wants, new_use, wanting, wanting_cursor};
ghost use Rattle.sessions.specs.Sessions.{Adds, AddsPattern, Codes, Deletes, Here, Lacks, LacksChange, LacksEvents, LacksText, LacksTyped, Missing, NeverLacks, NewBook, Runs, RunsLine, TakesEvents, TakesText, Unfit, Within, pattern_answer, shown};
ghost use Rattle.expression_book.specs.Tables.{book_model};
ghost use Rattle.sessions.specs.Views.{here_of};
ghost use Rattle.symbols.specs.contracts.event.EventSymbol.TheImpl.{ghosts as event_symbol};

use books::{Book, ChangingBook, Refusal};
use contexts::{Context, Fault};
use event_words::{NoEvents, events_of};
use expression_book::ExpressionBook;
use lines::{BookName, Command, Expected, Order, Task, bytes_of, parse};
use numbers::NumberBook;
use passes::LineRunner;
use patterns::{VecFault, to_vec};
use reader::Reader;
use std::alloc::{AllocError, Global};
use symbols::{Event, Symbol};
use templates::TemplateBook;

// Faults are written in full below: by `into` the proof of `take_events` did not close.

// A reader over one of the books, in use. Each function of a session matches the four: a trait object may not be handed out in
// their place, and a trait over the four would have as many functions as there are arms.
#[derive(Drop)]
enum AnyContext {
    Numbers(Context<NumberBook>),
    Templates(Context<TemplateBook>),
    Expressions(Context<ExpressionBook<u8>>),
    Events(Context<ExpressionBook<Event>>),
}

#[derive(Drop)]
pub struct Session {
    context: AnyContext,
}

impl LineRunner for Session {
    ghost Seen = { Here };

    ghost seen = { here_of };

    ghost Runs = { RunsLine };

    ghost Unfit = { Unfit };

    fn run_line(&mut self, heap: Global, line: &[u8], out: &mut String) -> Result<(), Fault> {
        let command = parse(line)?;
        self.run(heap, command, out)
    }
}

impl Session {
    // A new reader over a new book, with no cursor and no walk.
    pub fn new(heap: Global, book: BookName, edition: u32) -> Result<Session, AllocError>
        ensures { IfOk result (λ s. (b : Model) × NewBook book b × (here_of s ≡ record { book = book; context = new_use b edition })) }
    {
        match book {
            BookName::Numbers => Ok(Session {
                context: AnyContext::Numbers(in_use(heap, NumberBook::new(), edition)?),
            }),
            BookName::Templates => Ok(Session {
                context: AnyContext::Templates(in_use(heap, TemplateBook::new(), edition)?),
            }),
            BookName::Expressions => Ok(Session {
                context: AnyContext::Expressions(in_use(heap, ExpressionBook::new(), edition)?),
            }),
            BookName::Events => Ok(Session {
                context: AnyContext::Events(in_use(heap, ExpressionBook::new(), edition)?),
            }),
        }
    }

    fn run(&mut self, heap: Global, command: Command<'_>, out: &mut String) -> Result<(), Fault>
        requires { Decodable command }
        ensures { Ran result here_of (Runs command.entry) (Lacks command.entry) self.old self.new out.old out.new }
    {
        // A match, and no closure made by `parse`: a command is data, of which it is stated what line spells it before it is run.
        match command {
            Command::New { book, edition } => {
                *self = Session::new(heap, book, edition)?;
                Ok(answers::new_reader(out, book, edition)?)
            }
            Command::Add { rule, kind, text } => self.add(heap, rule, kind, text, out),
            Command::Code { rule, kind, digits } => {
                let bytes = bytes_of(heap, digits)?;
                self.code(rule, kind, &bytes, out)
            }
            Command::Delete(rule) => self.delete(rule, out),
            Command::Pattern(text) => pattern(heap, text, out),
            Command::PatternHex(digits) => {
                let text = bytes_of(heap, digits)?;
                pattern(heap, &text, out)
            }
            Command::Plain { task, text } => self.take(heap, task, text, out),
            Command::Hex { task, digits } => {
                let bytes = bytes_of(heap, digits)?;
                self.take(heap, task, &bytes, out)
            }
            Command::Last => self.last(out),
            Command::Order(order) => self.obey(order, out),
        }
    }

    // Adds a rule by the text that a person types for it: a template, or a pattern text.
    fn add(
        &mut self,
        heap: Global,
        rule: u32,
        kind: u32,
        text: &[u8],
        out: &mut String,
    ) -> Result<(), Fault>
        ensures { Ran result here_of (Within (λ book. Adds book rule kind text.now)) (Missing LacksTyped) self.old self.new out.old out.new }
    {
        match &mut self.context {
            AnyContext::Numbers(_) => Err(Fault::Malformed(Expected::Changing)),
            AnyContext::Templates(context) => Ok(context.add("add", rule, kind, text, out)?),
            AnyContext::Expressions(context) => add_pattern(context, heap, rule, kind, text, out),
            AnyContext::Events(_) => Err(Fault::Malformed(Expected::Code)),
        }
    }

    // Adds a rule by its own bytes.
    fn code(&mut self, rule: u32, kind: u32, bytes: &[u8], out: &mut String) -> Result<(), Fault>
        ensures { Ran result here_of (Within (λ book. Codes book rule kind bytes.now)) (Missing LacksChange) self.old self.new out.old out.new }
    {
        match &mut self.context {
            AnyContext::Numbers(_) => Err(Fault::Malformed(Expected::Changing)),
            AnyContext::Templates(context) => Ok(context.add("code", rule, kind, bytes, out)?),
            AnyContext::Expressions(context) => Ok(context.add("code", rule, kind, bytes, out)?),
            AnyContext::Events(context) => Ok(context.add("code", rule, kind, bytes, out)?),
        }
    }

    fn delete(&mut self, rule: u32, out: &mut String) -> Result<(), Fault>
        ensures { Ran result here_of (Within (λ book. Deletes book rule)) (Missing LacksChange) self.old self.new out.old out.new }
    {
        match &mut self.context {
            AnyContext::Numbers(_) => Err(Fault::Malformed(Expected::Changing)),
            AnyContext::Templates(context) => Ok(context.delete(rule, out)?),
            AnyContext::Expressions(context) => Ok(context.delete(rule, out)?),
            AnyContext::Events(context) => Ok(context.delete(rule, out)?),
        }
    }

    fn take(&mut self, heap: Global, task: Task, text: &[u8], out: &mut String) -> Result<(), Fault>
        ensures { Ran result here_of (Within (λ book. TakesText book task text.now)) (Missing (λ book. LacksText book task text.now)) self.old self.new out.old out.new }
    {
        match &mut self.context {
            AnyContext::Numbers(context) => context.take(heap, task, text, out),
            AnyContext::Templates(context) => context.take(heap, task, text, out),
            AnyContext::Expressions(context) => context.take(heap, task, text, out),
            AnyContext::Events(context) => take_events(context, heap, task, text, out),
        }
    }

    fn obey(&mut self, order: Order, out: &mut String) -> Result<(), Fault>
        ensures { Ran result here_of (Within (λ _. Obeys order)) (Missing (λ _. Wants (wanting order))) self.old self.new out.old out.new }
    {
        match &mut self.context {
            AnyContext::Numbers(context) => context.obey(order, out),
            AnyContext::Templates(context) => context.obey(order, out),
            AnyContext::Expressions(context) => context.obey(order, out),
            AnyContext::Events(context) => context.obey(order, out),
        }
    }

    // Shows the last token.
    fn last(&self, out: &mut String) -> Result<(), Fault>
        ensures { Ran result here_of (Within (λ book. Shows (last_line (shown book)))) (Missing (λ _. Wants wanting_cursor)) self.now self.now out.old out.new }
    {
        match &self.context {
            AnyContext::Numbers(context) => context.last(out),
            AnyContext::Templates(context) => context.last(out),
            AnyContext::Expressions(context) => context.last(out),
            AnyContext::Events(context) => context.last(out),
        }
    }
}

// A new reader over a book, in use.
fn in_use<B: Book + Drop>(heap: Global, book: B, edition: u32) -> Result<Context<B>, AllocError>
    ensures { IfOk result (λ c. use_of c ≡ new_use (B.Book.model book) edition) }
{
    let reader = Reader::new(heap, book, edition)?;
    Ok(Context::new(reader))
}

// Adds a rule by a pattern text. One that is refused is answered so, and nothing else is done.
fn add_pattern(
    context: &mut Context<ExpressionBook<u8>>,
    heap: Global,
    rule: u32,
    kind: u32,
    text: &[u8],
    out: &mut String,
) -> Result<(), Fault>
    ensures { Ran result use_of (AddsPattern rule kind (outcome text.now)) NeverLacks context.old context.new out.old out.new }
{
    match to_vec(heap, text) {
        Ok(commands) => Ok(context.add("add", rule, kind, &commands, out)?),
        Err(VecFault::Refused(fault)) => Ok(answers::refused(out, fault.tell())?),
        Err(VecFault::NoMemory) => Err(Fault::NoMemory),
    }
}

// Tells the commands of a pattern text.
fn pattern(heap: Global, text: &[u8], out: &mut String) -> Result<(), Fault>
    ensures answer { OnOk result (string_bytes out.new ≡ string_bytes out.old ++ pattern_answer (outcome text.now)) }
    ensures fault { IfErr result (λ f. f ≡ NoMemory) }
{
    match to_vec(heap, text) {
        Ok(commands) => Ok(answers::pattern(heap, out, &commands)?),
        Err(VecFault::Refused(fault)) => Ok(answers::refused(out, fault.tell())?),
        Err(VecFault::NoMemory) => Err(Fault::NoMemory),
    }
}

// Takes a text over events. A word out of range is refused before anything else is done. No `?` takes the three refusals on,
// since that one is answered and is no fault.
fn take_events(
    context: &mut Context<ExpressionBook<Event>>,
    heap: Global,
    task: Task,
    text: &[u8],
    out: &mut String,
) -> Result<(), Fault>
    ensures { Ran result use_of (TakesEvents task text.now) (LacksEvents task text.now) context.old context.new out.old out.new }
{
    match events_of(heap, text) {
        Ok(events) => context.take(heap, task, &events, out),
        Err(NoEvents::Malformed) => Err(Fault::Malformed(Expected::Events)),
        Err(NoEvents::OutOfRange) => Ok(answers::refused(out, Refusal::NoSuchEvent.tell())?),
        Err(NoEvents::NoMemory) => Err(Fault::NoMemory),
    }
}
