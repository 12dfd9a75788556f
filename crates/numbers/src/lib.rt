// The number book: one rule that reads a number, perhaps with a fraction, perhaps in millimetres.
#![tactic(auto)]

mod book;
mod table;

pub use book::NumberBook;

#[cfg(test)]
mod tests {
    use crate::NumberBook;
    use books::{Book, Noted};
    use states::State;

    // The state that the text leads to. A test's helper is its crate's own.
    fn reached(book: &mut NumberBook, text: &[u8]) -> State {
        let mut state = book.start();
        for byte in text {
            state = book.next(state, *byte);
        }
        state
    }

    #[test]
    fn reads_a_length_with_unit(rt: HostRuntime) {
        let mut book = NumberBook::new();
        let end = reached(&mut book, b"12.5mm");
        assert!(rt; book.ended(end).holds(0));
        assert_eq!(rt; book.kind(0), Some(1));
        assert_eq!(rt; book.note(), 6);
    }

    #[test]
    fn wants_digits_after_the_point(rt: HostRuntime) {
        let mut book = NumberBook::new();
        let end = reached(&mut book, b"12.");
        assert!(rt; !end.is_empty());
        assert!(rt; book.ended(end).is_empty());
    }
}
