// Pattern texts, read from first to last with a stack of the brackets that are open: the nodes of the expression and its commands, both
// in postfix order, or the first question that gets a no.
use crate::second::class::{class_at, runs};
use crate::second::commands::Fault;
use crate::second::node::Node;
use std::alloc::{AllocError, Global};

// So many brackets may be open.
const OPEN: usize = 16;

// A choice that is being read: where its '(' stands, how many sequences and how many pieces of the last one there are, whether a
// sign may stand here, and whether the last piece is yet to be joined with those before it.
#[derive(Clone, Copy)]
struct Choice {
    open: usize,
    sequences: usize,
    pieces: usize,
    atom: bool,
    unjoined: bool,
}

// What a pattern text stands for.
#[derive(Drop)]
pub(crate) struct Pattern {
    pub(crate) nodes: Vec<Node>,
    pub(crate) commands: Vec<u8>,
}

#[derive(Drop)]
struct Parser {
    nodes: Vec<Node>,
    commands: Vec<u8>,
    // the nodes that are no part of another yet
    waiting: Vec<usize>,
    outer: Vec<Choice>,
    here: Choice,
}

fn choice_of(open: usize) -> Choice {
    Choice {
        open,
        sequences: 0,
        pieces: 0,
        atom: false,
        unjoined: false,
    }
}

// What the text stands for.
pub(crate) fn read_pattern(
    heap: Global,
    text: &[u8],
) -> Result<Result<Pattern, Fault>, AllocError> {
    if text.len() > 256 {
        return Ok(Err(Fault {
            number: 17,
            place: 0,
        }));
    }
    let mut parser = Parser {
        nodes: Vec::new(heap),
        commands: Vec::new(heap),
        waiting: Vec::new(heap),
        outer: Vec::new(heap),
        here: choice_of(0),
    };
    let mut next = 0;
    for (place, byte) in text.iter().enumerate() {
        if place < next {
            continue;
        }
        next = match parser.mark(heap, text, place, *byte)? {
            Ok(behind) => behind,
            Err(fault) => return Ok(Err(fault)),
        };
    }
    if !parser.outer.is_empty() {
        let place = parser.here.open;
        return Ok(Err(Fault { number: 23, place }));
    }
    parser.end_sequence()?;
    let Parser {
        nodes,
        commands,
        ..
    } = parser;
    Ok(Ok(Pattern { nodes, commands }))
}

impl Parser {
    // Reads the mark at a place, and answers the place behind it.
    fn mark(
        &mut self,
        heap: Global,
        text: &[u8],
        place: usize,
        byte: u8,
    ) -> Result<Result<usize, Fault>, AllocError> {
        let behind = place.saturating_add(1);
        match byte {
            b'\\' => {
                let Some(escaped) = text.get(behind) else {
                    return Ok(Err(Fault { number: 18, place }));
                };
                self.code(*escaped)?;
                return Ok(Ok(place.saturating_add(2)));
            }
            b'[' => {
                return Ok(match class_at(heap, text, place)? {
                    Ok(class) => {
                        self.class(heap, &class.flags)?;
                        Ok(class.behind)
                    }
                    Err(fault) => Err(fault),
                });
            }
            b'{' | b'}' | b']' => return Ok(Err(Fault { number: 25, place })),
            b'*' | b'+' | b'?' | b'(' | b')' | b'|' | b'.' => {
                if let Some(number) = self.sign(byte, place)? {
                    return Ok(Err(Fault { number, place }));
                }
            }
            _ => self.code(byte)?,
        }
        Ok(Ok(behind))
    }

    // Reads a sign; or answers the question that gets a no.
    fn sign(&mut self, sign: u8, place: usize) -> Result<Option<u64>, AllocError> {
        match sign {
            b'*' | b'+' | b'?' if !self.here.atom => return Ok(Some(22)),
            b'*' => self.put_one(b'S')?,
            b'+' => self.put_one(b'P')?,
            b'?' => self.put_one(b'O')?,
            b'.' => {
                self.begin_piece()?;
                self.put_range(0, 255)?;
            }
            b'|' => {
                self.end_sequence()?;
                self.here = Choice {
                    sequences: self.here.sequences.saturating_add(1),
                    ..choice_of(self.here.open)
                };
            }
            b'(' if self.outer.len() >= OPEN => return Ok(Some(24)),
            b'(' => {
                self.begin_piece()?;
                self.outer.push(self.here)?;
                self.here = choice_of(place);
            }
            _ => {
                self.end_sequence()?;
                let Some(outer) = self.outer.pop() else {
                    return Ok(Some(23));
                };
                self.here = outer;
            }
        }
        Ok(None)
    }

    // Joins the last piece with those before it, and begins another.
    fn begin_piece(&mut self) -> Result<(), AllocError> {
        self.join()?;
        self.here.unjoined = self.here.pieces > 0;
        self.here.pieces = self.here.pieces.saturating_add(1);
        self.here.atom = true;
        Ok(())
    }

    fn join(&mut self) -> Result<(), AllocError> {
        if self.here.unjoined {
            self.put_two(b'J')?;
        }
        Ok(())
    }

    // Ends a sequence, and puts it to those before it.
    fn end_sequence(&mut self) -> Result<(), AllocError> {
        self.join()?;
        if self.here.pieces == 0 {
            self.commands.push(b'E')?;
            self.put(Node::Empty)?;
        }
        if self.here.sequences > 0 {
            self.put_two(b'A')?;
        }
        Ok(())
    }

    // A byte that stands for itself.
    fn code(&mut self, byte: u8) -> Result<(), AllocError> {
        self.begin_piece()?;
        self.commands.extend_from_slice(&[b'C', 0, byte])?;
        self.put(Node::Leaf(u32::from(byte), u32::from(byte)))
    }

    // A leaf for each run of a class.
    fn class(&mut self, heap: Global, flags: &[bool]) -> Result<(), AllocError> {
        self.begin_piece()?;
        for (at, (low, high)) in runs(heap, flags)?.iter().enumerate() {
            self.put_range(*low, *high)?;
            if at > 0 {
                self.put_two(b'A')?;
            }
        }
        Ok(())
    }

    fn put_range(&mut self, low: u8, high: u8) -> Result<(), AllocError> {
        self.commands.extend_from_slice(&[b'R', 0, low, 0, high])?;
        self.put(Node::Leaf(u32::from(low), u32::from(high)))
    }

    // Puts a node that waits.
    fn put(&mut self, node: Node) -> Result<(), AllocError> {
        self.waiting.push(self.nodes.len())?;
        self.nodes.push(node)?;
        Ok(())
    }

    // Puts a command that takes one, and its node.
    fn put_one(&mut self, letter: u8) -> Result<(), AllocError> {
        let last = self.waiting.pop().unwrap_or(0);
        self.commands.push(letter)?;
        self.put(match letter {
            b'S' => Node::Star(last),
            b'P' => Node::Plus(last),
            _ => Node::Optional(last),
        })
    }

    // Puts a command that takes two, and its node.
    fn put_two(&mut self, letter: u8) -> Result<(), AllocError> {
        let last = self.waiting.pop().unwrap_or(0);
        let other = self.waiting.pop().unwrap_or(0);
        self.commands.push(letter)?;
        self.put(match letter {
            b'J' => Node::Join(other, last),
            _ => Node::Either(other, last),
        })
    }
}
