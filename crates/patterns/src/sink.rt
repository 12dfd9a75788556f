// A buffer that commands are put into, as far as there is room.
ghost use Rattle.std.specs.Prelude.{◌≡◌, [], ◌∷◌};
ghost use Rattle.patterns.specs.Buffers.{Put, Adds};

// A buffer and how many bytes were put into it. Those that it has no room for are counted too, so that an empty one only
// measures.
#[derive(Drop)]
pub(crate) struct Sink<'b> {
    pub(crate) buffer: &'b mut [u8],
    pub(crate) wanted: usize,
}

impl<'b> Sink<'b> {
    // Nothing is put in yet.
    pub(crate) fn new(buffer: &'b mut [u8]) -> Sink<'b>
        ensures same_buffer { result.buffer.ghost_name ≡ buffer.entry.ghost_name }
        ensures nothing { Put buffer.old [] result }
    {
        Sink { buffer, wanted: 0 }
    }

    // Puts a byte behind those that were put in before.
    pub(crate) fn push(&mut self, byte: u8)
        ensures { Adds self.old (byte ∷ []) self.new }
    {
        if self.wanted < self.buffer.len() {
            self.buffer[self.wanted] = byte;
        }
        self.wanted = self.wanted.saturating_add(1);
    }

    // Puts a run of bytes behind those that were put in before.
    pub(crate) fn extend(&mut self, bytes: &[u8])
        ensures { Adds self.old bytes.now self.new }
    {
        for byte in bytes {
            self.push(*byte);
        }
    }
}
