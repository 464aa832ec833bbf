// Worked examples of punctuation and of qualifying.
ghost use Rattle.std.specs.Prelude.{◌≡◌};
ghost use Rattle.examples.specs.Worth.{Marked, Qualifying};

const LEAST: usize = 20;

// The least trimmed length that qualifies.
pub fn least_length() -> usize
    ensures value { result ≡ 20 }
    ensures marked { Marked }
    ensures qualifying { Qualifying }
{
    LEAST
}
