// Lower case, as names are compared.
ghost use Rattle.std.specs.Prelude.{◌≡◌};
ghost use Rattle.names.specs.Names.{lowered};

// A to Z as a to z, the Kelvin sign as k, and any other character as it is.
pub fn lower(c: char) -> char
    ensures { result ≡ lowered c }
{
    match c {
        '\u{212a}' => 'k',
        _ => c.to_ascii_lowercase(),
    }
}
