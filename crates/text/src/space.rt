// White_Space, and the table of its characters.
ghost use Rattle.std.specs.Prelude.{◌≡◌};
ghost use Rattle.std.specs.Char.{is_whitespace};
ghost use Rattle.text.specs.Space.{space};

// The White_Space characters of Unicode, in order: a table that can be read, where `char::is_whitespace` would hide them.
const SPACES: [char; 25] = [
    '\u{9}', '\u{a}', '\u{b}', '\u{c}', '\u{d}', '\u{20}', '\u{85}', '\u{a0}', '\u{1680}',
    '\u{2000}', '\u{2001}', '\u{2002}', '\u{2003}', '\u{2004}', '\u{2005}', '\u{2006}', '\u{2007}',
    '\u{2008}', '\u{2009}', '\u{200a}', '\u{2028}', '\u{2029}', '\u{202f}', '\u{205f}', '\u{3000}',
];

// Whether c stands in the table.
#[inline]
pub fn is_space(c: char) -> bool
    ensures table { result ≡ space c }
    ensures unicode { result ≡ is_whitespace c }
{
    if ' ' < c && c < '\u{85}' {
        return false;
    }
    c == ' ' || SPACES.contains(&c)
}
