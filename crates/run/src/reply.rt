// What an accepted record has done.
ghost use Rattle.std.specs.Prelude.{◌≡◌};
ghost use Rattle.run.specs.Lines.{done_by};
ghost use Rattle.run.specs.Turns.{is_end};

use bank::Shown;
use records::NoteText;

#[derive(Clone, Copy)]
pub enum Reply<'a> {
    Loaded { place: u8 },
    Shown { place: u8, shown: Shown },
    Noted { text: NoteText<'a> },
    Ended,
}

impl Reply<'_> {
    pub(crate) fn is_end(self) -> bool
        ensures { result ≡ is_end (done_by self.entry) }
    {
        matches!(self, Reply::Ended)
    }
}
