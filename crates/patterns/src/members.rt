// The members of a class: its bytes one by one, a '\' with the byte behind it.
ghost use Rattle.std.specs.Iterator.{YieldsFirst, item_count};
ghost use Rattle.patterns.specs.Classes.{members_left};

use crate::text::Text;

// A byte, or a '\' with its byte, and the place where it begins.
#[derive(Clone, Copy)]
pub(crate) struct Member {
    pub(crate) value: u8,
    pub(crate) place: usize,
    // it stands without a '\'; a flag beside the value, since the ends of a range are read alike with and without one
    pub(crate) bare: bool,
}

// The members of a text from first to last. A last '\' is a member for itself.
#[derive(Drop)]
pub(crate) struct Members<'t>(pub(crate) Text<'t>);

impl<'t> Iterator for Members<'t> {
    type Item = Member;

    ghost next_gives = { YieldsFirst members_left };

    ghost remaining = { item_count members_left };

    fn next(&mut self) -> Option<Member> {
        let text = self.0;
        match text.bytes {
            [] => None,
            [b'\\', value, ..] => {
                self.0 = text.skip(2);
                Some(Member {
                    value: *value,
                    place: text.place,
                    bare: false,
                })
            }
            [value, ..] => {
                self.0 = text.skip(1);
                Some(Member {
                    value: *value,
                    place: text.place,
                    bare: true,
                })
            }
        }
    }
}
