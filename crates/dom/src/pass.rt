// The punctuation of a text from each state of the counter, so that texts that follow one another are counted once.
ghost use Rattle.std.specs.Prelude.{◌≡◌, ◌+◌, ◌^◌, ◌<◌, []};
ghost use Rattle.dom.specs.Passes.{pick, joined, both, passes_of, passes_step};
ghost use Rattle.text.specs.declared.marks.State.TheVariants.{Plain, AfterStop, AfterComma};

use text::{Machine, Marks, State};

// A text counted from each state: where the counter stands behind it, and the matches that it counted there.
#[derive(Clone, Copy)]
pub struct Passes {
    pub plain: Marks,
    pub stop: Marks,
    pub comma: Marks,
}

impl Passes {
    // No text.
    pub fn none() -> Passes
        ensures { result ≡ passes_of [] }
    {
        Passes {
            plain: Marks::new(State::Plain),
            stop: Marks::new(State::AfterStop),
            comma: Marks::new(State::AfterComma),
        }
    }

    // The count from a state.
    pub fn from(&self, state: State) -> Marks
        ensures { result ≡ pick self.now state }
    {
        match state {
            State::Plain => self.plain,
            State::AfterStop => self.stop,
            State::AfterComma => self.comma,
        }
    }

    // The count from a state through this text and then the next.
    fn on(&self, state: State, next: &Passes) -> Marks
        requires { (joined self.now next.now state).count < 2 ^ 64 }
        ensures { result ≡ joined self.now next.now state }
    {
        let first = self.from(state);
        first.then(&next.from(first.state()))
    }

    // This text and then the next.
    pub(crate) fn then(&self, next: &Passes) -> Passes
        requires plain { (joined self.now next.now Plain).count < 2 ^ 64 }
        requires stop { (joined self.now next.now AfterStop).count < 2 ^ 64 }
        requires comma { (joined self.now next.now AfterComma).count < 2 ^ 64 }
        ensures { result ≡ both self.now next.now }
    {
        Passes {
            plain: self.on(State::Plain, next),
            stop: self.on(State::AfterStop, next),
            comma: self.on(State::AfterComma, next),
        }
    }
}

impl Machine for Passes {
    ghost step = { passes_step };

    fn eat(&mut self, c: char) {
        self.plain.eat(c);
        self.stop.eat(c);
        self.comma.eat(c);
    }
}
