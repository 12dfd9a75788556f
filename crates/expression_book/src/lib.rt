// The expression book: rules by regular expressions over any kind of symbol, which can be added and deleted.
#![tactic(auto)]

mod book;
mod given;
mod part;
mod row;
mod table;

pub use book::ExpressionBook;
use books::{Book, ChangingBook, Noted};

#[cfg(test)]
mod tests {
    use crate::ExpressionBook;
    use books::{Book, BookFault, ChangingBook, Noted};
    use states::Rules;
    use std::test::Fail;
    use symbols::{Event, Symbol};

    // The rules that a whole text meets. A test's helper is its crate's own.
    fn met<S: Symbol>(book: &mut ExpressionBook<S>, text: &[S]) -> Rules {
        let mut state = book.start();
        for symbol in text {
            state = book.next(state, *symbol);
        }
        book.ended(state)
    }

    // A change's answer, with the refusal by its number and place.
    fn told(answer: Result<(), BookFault>) -> Result<(), (u8, usize)> {
        answer.map_err(|fault| {
            let told = fault.tell();
            (told.number, told.place)
        })
    }

    // k[0-9]+ and k4, of which a text may meet both
    #[test]
    fn reads_every_rule(rt: HostRuntime) {
        let mut book: ExpressionBook<u8> = ExpressionBook::new();
        assert_eq!(rt; told(book.add(0, 7, b"C\x00kR\x000\x009PJ")), Ok(()));
        assert_eq!(rt; told(book.add(63, 4095, b"C\x00kC\x004J")), Ok(()));
        assert_eq!(rt; book.live().count(), 6);
        let both = met(&mut book, b"k4");
        assert!(rt; both.holds(0) && both.holds(63));
        assert!(rt; met(&mut book, b"k").is_empty());
        let one = met(&mut book, b"k45");
        assert!(rt; one.holds(0) && !one.holds(63));
        assert_eq!(rt; told(book.delete(0)), Ok(()));
        assert!(rt; met(&mut book, b"k45").is_empty());
        assert_eq!(rt; book.note(), 9);
    }

    // The codes from 0 to 254, joined. By index, since the first command stands one place before the fours of the others.
    fn joined_codes() -> [u8; 1019] {
        let mut run = [b'J'; 1019];
        for i in 0..255usize {
            let at = if i == 0 { 0 } else { 4 * i - 1 };
            run[at] = b'C';
            run[at + 1] = 0;
            run[at + 2] = i as u8;
        }
        run
    }

    // 255 codes joined, in 1,019 bytes, take all positions but the end's.
    #[test]
    fn fills_up(rt: HostRuntime) {
        let run = joined_codes();
        let mut book: ExpressionBook<u8> = ExpressionBook::new();
        assert_eq!(rt; told(book.add(5, 0, &run)), Ok(()));
        assert_eq!(rt; book.live().count(), 256);
        assert_eq!(rt; told(book.add(6, 0, b"E")), Err((12, 0)));
        assert_eq!(rt; told(book.delete(5)), Ok(()));
        assert_eq!(rt; told(book.add(6, 0, b"E")), Ok(()));
        assert!(rt; met(&mut book, b"").holds(6));
    }

    #[test]
    fn first_no_decides(rt: HostRuntime) {
        let mut book: ExpressionBook<u8> = ExpressionBook::new();
        assert_eq!(rt; told(book.add(64, 4096, &[b'E'; 1025])), Err((2, 0)));
        assert_eq!(rt; told(book.add(0, 4096, &[b'E'; 1025])), Err((3, 0)));
        assert_eq!(rt; told(book.add(0, 0, &[b'E'; 1025])), Err((5, 0)));
        assert_eq!(rt; told(book.add(0, 0, b"")), Err((11, 0)));
        assert_eq!(rt; told(book.add(0, 0, b"EC\x01\x00")), Err((8, 1)));
        assert_eq!(rt; told(book.delete(0)), Err((13, 0)));
    }

    // kind 3 on any machine from 1 to 2, at most once
    #[test]
    fn reads_events(rt: HostRuntime) -> Result<(), Fail> {
        let mut book: ExpressionBook<Event> = ExpressionBook::new();
        assert_eq!(rt; told(book.add(9, 1, b"C\x10\x03C\x20\x03AO")), Ok(()));
        let known = Event::new(2, 3).map_err(|_| Fail::new("an event"))?;
        let other = Event::new(3, 3).map_err(|_| Fail::new("an event"))?;
        assert!(rt; met(&mut book, &[known]).holds(9));
        assert!(rt; met(&mut book, &[]).holds(9));
        assert!(rt; met(&mut book, &[other]).is_empty());
        assert!(rt; met(&mut book, &[known, known]).is_empty());
        Ok(())
    }
}
