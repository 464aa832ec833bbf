// Machines that take a text character by character.
ghost use Rattle.std.specs.Prelude.{◌≡◌, ℕ};

// What takes a text character by character.
pub trait Machine {
    // the machine after a character
    ghost step: { Self → ℕ → Self };

    fn eat(&mut self, c: char)
        ensures { self.new ≡ step self.old c };
}
