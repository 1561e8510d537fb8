// The calls, and the word that a line begins with for each.

ghost use Rattle.lines.specs.Word.{spelled};
ghost use Rattle.std.specs.Prelude.{◌≡◌};

#[derive(Clone, Copy)]
pub enum Word {
    Decide,
    Grant,
    Take,
    Throughout,
    Enrol,
    Strike,
    Open,
    Close,
    Permit,
    Forbid,
    Sit,
    Unread,
    Plan,
}

impl Word {
    // The bytes of the word as a line spells it. No `Display`: a line is bytes in lent memory, and its contract says which.
    pub fn text(self) -> &'static [u8]
        ensures { result.now ≡ spelled self }
    {
        match self {
            Word::Decide => b"decide",
            Word::Grant => b"grant",
            Word::Take => b"take",
            Word::Throughout => b"throughout",
            Word::Enrol => b"enrol",
            Word::Strike => b"strike",
            Word::Open => b"open",
            Word::Close => b"close",
            Word::Permit => b"permit",
            Word::Forbid => b"forbid",
            Word::Sit => b"sit",
            Word::Unread => b"unread",
            Word::Plan => b"plan",
        }
    }
}
