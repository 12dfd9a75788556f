// Pattern texts, and the commands of the expressions that they stand for.
#![tactic(auto)]

mod calls;
mod classes;
mod faults;
mod marks;
mod members;
mod parsing;
mod runs;
mod sink;
mod text;

pub use calls::{VecFault, commands, to_vec};
pub use faults::PatternFault;

#[cfg(test)]
mod tests {
    use crate::{PatternFault, VecFault, commands, to_vec};
    use std::alloc::Global;

    // The commands of a text; or the number of the question that gets a no, and the place.
    fn told(heap: Global, text: &[u8]) -> Result<Vec<u8>, (u8, usize)> {
        to_vec(heap, text).map_err(|fault| match fault {
            VecFault::Refused(fault) => {
                let told = fault.tell();
                (told.number, told.place)
            }
            VecFault::NoMemory => (0, 0),
        })
    }

    #[test]
    fn reads_patterns(rt: HostRuntime) {
        let table: [(&[u8], Result<&[u8], (u8, usize)>); 34] = [
            (b"a|b*", Ok(b"C\x00aC\x00bSA")),
            (b"k[0-9]+", Ok(b"C\x00kR\x000\x009PJ")),
            (b".\\.", Ok(b"R\x00\x00\x00\xffC\x00.J")),
            // nothing between two signs is the empty text
            (b"", Ok(b"E")),
            (b"()", Ok(b"E")),
            (b"(a|)*?", Ok(b"C\x00aEASO")),
            // '-' first, last or right after a range
            (b"[a-z-9]", Ok(b"R\x00-\x00-R\x009\x009AR\x00a\x00zA")),
            (b"[--a]", Ok(b"R\x00-\x00a")),
            (b"[a-]", Ok(b"R\x00-\x00-R\x00a\x00aA")),
            (b"[\\]-a]", Ok(b"R\x00]\x00a")),
            // runs that meet are one
            (b"[b-da-c]", Ok(b"R\x00a\x00d")),
            // all other bytes
            (b"[^-a]", Ok(b"R\x00\x00\x00,R\x00.\x00`AR\x00b\x00\xffA")),
            (b"[^]", Ok(b"R\x00\x00\x00\xff")),
            (b"[^\x00-\xff]", Err((21, 0))),
            (b"[]", Err((21, 0))),
            (b"[z-a]", Err((20, 1))),
            (b"a[b\\z-a]", Err((20, 3))),
            (b"a|*", Err((22, 2))),
            (b"(a", Err((23, 0))),
            (b"(a(b", Err((23, 2))),
            (b"a)", Err((23, 1))),
            (b"a{2}", Err((25, 1))),
            (b"a]", Err((25, 1))),
            (b"\\{\\}\\]", Ok(b"C\x00{C\x00}JC\x00]J")),
            (b"a\\", Err((18, 1))),
            (b"[a\\", Err((18, 2))),
            (b"a[z-a", Err((19, 1))),
            (b"a[b\\]", Err((19, 1))),
            // the first mark that gets a no decides
            (b"*(\\", Err((22, 0))),
            (b")*", Err((23, 0))),
            (b"(((((((((((((((())))))))))))))))", Ok(b"E")),
            (&[b'('; 17], Err((24, 16))),
            (&[b')'; 256], Err((23, 0))),
            (&[b')'; 257], Err((17, 0))),
        ];
        for (text, want) in table {
            match (told(rt.alloc(), text), want) {
                (Ok(got), Ok(want)) => assert_eq!(rt; got.as_slice(), want),
                (got, want) => assert_eq!(rt; got.err(), want.err()),
            }
        }
    }

    #[test]
    fn fills_the_front_of_a_buffer(rt: HostRuntime) {
        let mut buffer = [7; 9];
        assert_eq!(rt; commands(b"a|b*", &mut buffer), Ok(8));
        assert_eq!(rt; &buffer, b"C\x00aC\x00bSA\x07");
        assert_eq!(rt; commands(b"()", &mut buffer), Ok(1));
        assert_eq!(rt; &buffer, b"E\x00aC\x00bSA\x07");
        assert_eq!(rt;
            commands(b"a|b*", &mut buffer[..7]),
            Err(PatternFault::NoRoom)
        );
        assert_eq!(rt;
            commands(b"abc(", &mut buffer),
            Err(PatternFault::Unbalanced(3))
        );
        assert_eq!(rt; &buffer, b"E\x00aC\x00bSA\x07");
        let mut long = [0; 1023];
        assert_eq!(rt; commands(&[b'a'; 256], &mut long), Ok(1023));
        assert_eq!(rt;
            commands(&[b'a'; 256], &mut long[1..]),
            Err(PatternFault::NoRoom)
        );
    }
}
