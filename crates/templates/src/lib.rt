// The template book: rules by short templates over bytes, which can be added and deleted.
#![tactic(auto)]

mod book;
mod table;

pub use book::TemplateBook;
use books::{Book, ChangingBook, Noted};

#[cfg(test)]
mod tests {
    use crate::TemplateBook;
    use books::{Book, BookFault, ChangingBook, Noted};
    use states::Rules;

    // The rules that a whole text meets. A test's helper is its crate's own.
    fn met(book: &mut TemplateBook, text: &[u8]) -> Rules {
        let mut state = book.start();
        for byte in text {
            state = book.next(state, *byte);
        }
        book.ended(state)
    }

    // A change's answer, with the refusal by its number.
    fn number(answer: Result<(), BookFault>) -> Result<(), u8> {
        answer.map_err(|fault| fault.tell().number)
    }

    #[test]
    fn reads_digits_and_any_byte(rt: HostRuntime) {
        let mut book = TemplateBook::new();
        assert_eq!(rt; number(book.add(3, 7, b"k##")), Ok(()));
        assert_eq!(rt; number(book.add(7, 4095, b"k?x")), Ok(()));
        assert!(rt; met(&mut book, b"k42").holds(3));
        assert!(rt; !met(&mut book, b"k4x").holds(3));
        assert!(rt; met(&mut book, b"k4x").holds(7));
        assert!(rt; met(&mut book, b"k4").is_empty());
        assert_eq!(rt; book.kind(7), Some(4095));
        assert_eq!(rt; book.note(), 11);
    }

    #[test]
    fn number_is_free_after_a_deletion(rt: HostRuntime) {
        let mut book = TemplateBook::new();
        assert_eq!(rt; number(book.add(5, 1, b"#")), Ok(()));
        assert_eq!(rt; number(book.delete(5)), Ok(()));
        assert!(rt; met(&mut book, b"1").is_empty());
        assert_eq!(rt; number(book.add(5, 2, b"ok")), Ok(()));
        assert!(rt; met(&mut book, b"1").is_empty());
        assert!(rt; met(&mut book, b"ok").holds(5));
    }

    #[test]
    fn first_no_decides(rt: HostRuntime) {
        let mut book = TemplateBook::new();
        assert_eq!(rt; number(book.add(8, 4096, b"")), Err(2));
        assert_eq!(rt; number(book.add(0, 4096, b"")), Err(3));
        assert_eq!(rt; number(book.add(0, 0, b"")), Err(5));
        assert_eq!(rt; number(book.add(0, 0, &[b'a'; 32])), Err(5));
        assert_eq!(rt; number(book.add(0, 0, &[b'a'; 31])), Ok(()));
        assert_eq!(rt; number(book.add(0, 0, b"")), Err(4));
        assert_eq!(rt; number(book.delete(1)), Err(13));
    }
}
