//! How contexts end, and which line of a scene is refused first.

ghost use Rattle.std.specs.Prelude.{◌≡◌, None};
ghost use Rattle.recorders.specs.Ending.{earlier_of, first_of};
ghost use Rattle.recorders.specs.Recorders.{end_in};

use gfxspec::GfxError;

/// A refused line, by its place counted from 0, and why it was refused.
#[derive(Clone, Copy, Debug, PartialEq, Eq)]
pub struct RefusedLine {
    pub place: usize,
    pub refusal: GfxError,
}

/// How many lists a context finished before the first line that it refused, and that line.
#[derive(Clone, Copy, Debug)]
pub struct ContextEnd {
    pub(crate) lists: u64,
    pub(crate) refused: Option<RefusedLine>,
}

/// How the two contexts of a recorder ended.
#[derive(Clone, Copy, Debug)]
pub struct RecordingEnd {
    pub(crate) first: ContextEnd,
    pub(crate) second: ContextEnd,
}

impl RecordingEnd {
    /// How a context, 0 to 7, ended.
    pub(crate) fn of_context(&self, context: u32) -> ContextEnd
        ensures { result ≡ end_in self.now context }
    {
        if context < 4 { self.first } else { self.second }
    }
}

/// The first of two in the order of lines.
pub fn earlier(first: Option<RefusedLine>, second: Option<RefusedLine>) -> Option<RefusedLine>
    ensures { result ≡ earlier_of first second }
{
    match (first, second) {
        (Some(a), Some(b)) if b.place < a.place => second,
        (Some(_), _) => first,
        (None, _) => second,
    }
}

/// The first line that one of the eight contexts refused.
pub(crate) fn first_refused(ends: &[RecordingEnd; 4]) -> Option<RefusedLine>
    ensures { result ≡ first_of None ends.now }
{
    let mut first = None;
    for end in ends {
        first = earlier(first, earlier(end.first.refused, end.second.refused));
    }
    first
}
