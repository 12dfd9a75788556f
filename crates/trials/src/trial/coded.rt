// Symbols by their codes.
use symbols::{Event, Symbol};

// A kind of symbol that is made of a code.
pub(crate) trait Coded: Symbol {
    // The symbol of the code, if there is one.
    fn of(code: u32) -> Option<Self>;
}

impl Coded for u8 {
    fn of(code: u32) -> Option<u8> {
        u8::try_from(code).ok()
    }
}

impl Coded for Event {
    fn of(code: u32) -> Option<Event> {
        Event::new(code / 4096, code % 4096).ok()
    }
}
