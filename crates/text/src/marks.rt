// Punctuation, counted as the text goes by.
ghost use Rattle.std.specs.Prelude.{◌≡◌, ◌+◌, ◌-◌, ◌^◌, min};
ghost use Rattle.text.specs.Marks.{moved, ends, mark_step, Counts};

use crate::machine::Machine;

// Where the counter stands: in plain text, after a stop that may begin a match, or after such a comma.
#[derive(Clone, Copy, PartialEq, Eq, Debug)]
pub enum State {
    Plain,
    AfterStop,
    AfterComma,
}

// The matches so far, and where the counter stands.
#[derive(Clone, Copy)]
pub struct Marks {
    pub state: State,
    pub count: usize,
}

impl Marks {
    // No match yet, in the given state.
    pub fn new(state: State) -> Marks
        ensures start { (result.state ≡ state) × (result.count ≡ 0) }
        ensures counts { Counts result }
    {
        Marks { state, count: 0 }
    }

    pub fn state(&self) -> State
        ensures { result ≡ self.now.state }
    {
        self.state
    }

    // How many matches there were.
    pub fn count(&self) -> usize
        ensures { result ≡ self.now.count }
    {
        self.count
    }

    // The matches of this text and of the next, where the next was counted from where this one ended.
    pub fn then(&self, next: &Marks) -> Marks
        ensures state { result.state ≡ next.now.state }
        ensures count { result.count ≡ min (self.now.count + next.now.count) (2 ^ 64 - 1) }
    {
        Marks {
            state: next.state,
            count: self.count.saturating_add(next.count),
        }
    }
}

// Where the counter stands after a character, and whether a match ends with it: a pair, since the one match over state and
// character decides both.
fn moved(state: State, c: char) -> (State, bool)
    ensures { (result.0 ≡ moved state c) × (result.1 ≡ ends state c) }
{
    match (state, c) {
        (State::Plain, '、' | '。' | '，' | '．' | '！' | '？' | '!' | '?') => (State::Plain, true),
        (State::Plain, '.') => (State::AfterStop, false),
        (State::Plain, ',') => (State::AfterComma, false),
        (State::Plain, _) => (State::Plain, false),
        (State::AfterStop, 'A'..='Z' | 'a'..='z' | '0'..='9') => (State::Plain, false),
        (State::AfterStop, _) => (State::Plain, true),
        (State::AfterComma, '0'..='9') => (State::Plain, false),
        (State::AfterComma, _) => (State::Plain, true),
    }
}

impl Machine for Marks {
    ghost step = { mark_step };

    fn eat(&mut self, c: char) {
        let (state, matched) = moved(self.state, c);
        self.state = state;
        self.count = self.count.saturating_add(usize::from(matched));
    }
}
