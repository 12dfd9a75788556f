// A record of a batch, whose bytes stay in the batch.
ghost use Rattle.std.specs.Prelude.{◌≡◌};
ghost use Rattle.batches.specs.Records.{ask_of, lines_of};

#[derive(Clone, Copy, Debug)]
pub(crate) enum Record<'b> {
    // a rule to add, by the commands of its expression
    Add {
        rule: u8,
        kind: u16,
        commands: &'b [u8],
    },
    // a rule to delete
    Delete(u8),
    // a line to read
    Line(&'b [u8]),
}

impl<'b> Record<'b> {
    // How many lines it has.
    pub(crate) fn lines(self) -> usize
        ensures { result ≡ lines_of (ask_of self.entry) }
    {
        match self {
            Record::Line(_) => 1,
            Record::Add { .. } | Record::Delete(_) => 0,
        }
    }
}
