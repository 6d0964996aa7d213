//! The words that event lines begin with.

ghost use Rattle.std.specs.Prelude.{◌≡◌, Option};
ghost use Rattle.recording_text.specs.Guesses as guesses;

/// The first word of an event's line.
#[derive(Clone, Copy, Drop)]
pub enum Word {
    /// `begin`.
    Begin,
    /// `send`.
    Send,
    /// `ready`.
    Ready,
    /// `abort`.
    Abort,
    /// `commit`.
    Commit,
    /// `activate`.
    Activate,
    /// `scroll`.
    Scroll,
    /// `wheel`.
    Wheel,
    /// `start`.
    Start,
    /// `done`.
    Done,
    /// `draw`.
    Draw,
    /// `skip`.
    Skip,
    /// `nodraw`.
    NoDraw,
    /// `finish`.
    Finish,
    /// `await`.
    Await,
    /// `settle`.
    Settle,
    /// `end`.
    End,
    /// `stop`.
    Stop,
}

/// A word that begins with `a`, by its third byte.
#[tactic(auto, unfolding(crate::specs::Guesses::word_a))]
fn word_a(third: u8) -> Option<Word>
    ensures { result ≡ guesses.word_a third }
{
    match third {
        b'o' => Some(Word::Abort),
        b't' => Some(Word::Activate),
        b'a' => Some(Word::Await),
        _ => None,
    }
}

/// A word that begins with `s`, by its third byte.
#[tactic(auto, unfolding(crate::specs::Guesses::word_s))]
fn word_s(third: u8) -> Option<Word>
    ensures { result ≡ guesses.word_s third }
{
    match third {
        b'n' => Some(Word::Send),
        b'r' => Some(Word::Scroll),
        b'a' => Some(Word::Start),
        b'i' => Some(Word::Skip),
        b't' => Some(Word::Settle),
        b'o' => Some(Word::Stop),
        _ => None,
    }
}

/// A word that begins with `d`, by its third byte.
#[tactic(auto, unfolding(crate::specs::Guesses::word_d))]
fn word_d(third: u8) -> Option<Word>
    ensures { result ≡ guesses.word_d third }
{
    match third {
        b'n' => Some(Word::Done),
        b'a' => Some(Word::Draw),
        _ => None,
    }
}

/// A word by its first and its third byte.
#[tactic(auto, unfolding(crate::specs::Guesses::word_by))]
fn word_by(first: u8, third: u8) -> Option<Word>
    ensures { result ≡ guesses.word_by first third }
{
    match first {
        b'a' => word_a(third),
        b's' => word_s(third),
        b'd' => word_d(third),
        b'b' => Some(Word::Begin),
        b'r' => Some(Word::Ready),
        b'c' => Some(Word::Commit),
        b'w' => Some(Word::Wheel),
        b'n' => Some(Word::NoDraw),
        b'f' => Some(Word::Finish),
        b'e' => Some(Word::End),
        _ => None,
    }
}

/// The word that a line can begin with, by its first and its third byte.
#[tactic(auto, unfolding(crate::specs::Guesses::word_at))]
pub fn word_at(bytes: &[u8]) -> Option<Word>
    ensures { result ≡ guesses.word_at bytes.now }
{
    match bytes {
        [first, _, third, ..] => word_by(*first, *third),
        _ => None,
    }
}

impl Word {
    /// How many bytes stand before the first number of a line: the word and one more.
    #[tactic(auto, unfolding(crate::specs::Guesses::head))]
    pub fn head(self) -> usize
        ensures { result ≡ guesses.head self }
    {
        match self {
            Word::End => 4,
            Word::Send | Word::Done | Word::Draw | Word::Skip | Word::Stop => 5,
            Word::Begin | Word::Ready | Word::Abort | Word::Wheel | Word::Start | Word::Await => 6,
            Word::Commit | Word::Scroll | Word::NoDraw | Word::Finish | Word::Settle => 7,
            Word::Activate => 9,
        }
    }
}
