// Whether bytes are well-formed UTF-8, their first character, and how many characters they have.
ghost use Rattle.std.specs.Prelude.{◌≡◌, ℕ, ◌+◌, ◌-◌, ◌*◌, ◌%◌, ◌^◌, ◌<◌, ◌≤◌, true, List, ◌++◌, length, drop, Some, None, IsUtf8, Decides, ◌≢◌, IfSome};
ghost use Rattle.std.proofs.Math.Utf8.{scalar, scalars, encode, encodes};
ghost use Rattle.std.specs.Iterator.{YieldsFirst, item_count};
ghost use Rattle.std.specs.List.{list_all};
ghost use Rattle.utf8.specs.Decode.{decoded, width_of, some_width, scalars_of, Begins};
ghost use Rattle.utf8.specs.Table.{tail, within, table, begin, counted, well_formed};

// How many bytes a character takes that begins with these two, where one does.
fn width(lead: u8, second: u8) -> Option<usize>
    ensures { result ≡ some_width (counted (begin table lead) second) }
{
    match lead {
        0x00..=0x7F => Some(1),
        0xC2..=0xDF if 0x80 <= second && second <= 0xBF => Some(2),
        0xE0 if 0xA0 <= second && second <= 0xBF => Some(3),
        0xE1..=0xEC if 0x80 <= second && second <= 0xBF => Some(3),
        0xED if 0x80 <= second && second <= 0x9F => Some(3),
        0xEE..=0xEF if 0x80 <= second && second <= 0xBF => Some(3),
        0xF0 if 0x90 <= second && second <= 0xBF => Some(4),
        0xF1..=0xF3 if 0x80 <= second && second <= 0xBF => Some(4),
        0xF4 if 0x80 <= second && second <= 0x8F => Some(4),
        _ => None,
    }
}

// Whether each byte may stand behind the second of a character.
fn are_tails(bytes: &[u8]) -> bool
    ensures { result ≡ list_all (within tail) bytes.now }
{
    bytes.iter().all(|b| (0x80..=0xBF).contains(b))
}

// How many bytes the first character takes, where one begins.
fn first_width(bytes: &[u8]) -> Option<usize>
    ensures width { result ≡ some_width (width_of (decoded bytes.now)) }
    ensures inside { IfSome result (λ w. w ≤ length bytes.now) }
{
    let lead = *bytes.first()?;
    if lead < 0x80 {
        return Some(1);
    }
    let w = width(lead, *bytes.get(1)?)?;
    if bytes.len() < w {
        return None;
    }
    are_tails(&bytes[2..w]).then_some(w)
}

// Below so many bytes the library's test, which looks for runs of ASCII, costs more than one character at a time.
const SHORT: usize = 8;

// Whether the bytes are characters, one behind the other.
fn are_chars(bytes: &[u8]) -> bool
    ensures { result ≡ well_formed bytes.now }
{
    let mut rest = bytes;
    while let Some(w) = first_width(rest) {
        rest = &rest[w..];
    }
    rest.is_empty()
}

// Whether the bytes are well-formed UTF-8.
pub fn well_formed(bytes: &[u8]) -> bool
    ensures table { result ≡ well_formed bytes.now }
    ensures utf8 { Decides result (IsUtf8 bytes.now) }
{
    if bytes.len() < SHORT {
        are_chars(bytes)
    } else {
        str::from_utf8(bytes).is_ok()
    }
}

// The bits so far, and the low six of one more byte.
fn six_more(bits: u32, b: u8) -> u32
    requires { bits < 2 ^ 16 }
    ensures { result ≡ bits * 64 + b % 64 }
{
    bits << 6 | u32::from(b & 0x3F)
}

// The code point of the first character, which takes w bytes.
fn code_point(bytes: &[u8], w: usize) -> u32
    requires some { 0 < w }
    requires width { w ≡ width_of (decoded bytes.now) }
    requires inside { w ≤ length bytes.now }
    ensures { decoded bytes.now ≡ Some (result, w) }
{
    match w {
        1 => u32::from(bytes[0]),
        2 => six_more(u32::from(bytes[0] & 0x1F), bytes[1]),
        3 => six_more(six_more(u32::from(bytes[0] & 0x0F), bytes[1]), bytes[2]),
        _ => six_more(
            six_more(six_more(u32::from(bytes[0] & 0x07), bytes[1]), bytes[2]),
            bytes[3],
        ),
    }
}

// The first character of the bytes, with how many of them it takes; None where no well-formed one begins.
pub fn decode(bytes: &[u8]) -> Option<(char, usize)>
    ensures table { result ≡ decoded bytes.now }
    ensures some { (c w : ℕ) → result ≡ Some (c, w) → Begins bytes.now c w }
    ensures first { (c : ℕ) (rest : List ℕ) → scalar c ≡ true → bytes.now ≡ encode c ++ rest → result ≡ Some (c, length (encode c)) }
    ensures none { result ≡ None → (c : ℕ) (rest : List ℕ) → scalar c ≡ true → bytes.now ≢ encode c ++ rest }
{
    let w = first_width(bytes)?;
    let code = code_point(bytes, w);
    Some((unsafe { char::from_u32_unchecked(code) }, w))
}

// The characters that are left of bytes, up to the first place where none begins.
#[derive(Drop)]
struct Chars<'a>(&'a [u8]);

impl<'a> Iterator for Chars<'a> {
    type Item = char;

    ghost next_gives = { YieldsFirst (λ s. scalars_of s.0.now) };

    ghost remaining = { item_count (λ s. scalars_of s.0.now) };

    fn next(&mut self) -> Option<char> {
        let (c, w) = decode(self.0)?;
        self.0 = self.0.split_at(w).1;
        Some(c)
    }
}

// How many characters the bytes have, up to the first place where none begins.
pub fn count_chars(bytes: &[u8]) -> usize
    ensures count { result ≡ length (scalars_of bytes.now) }
    ensures order { (cs : List ℕ) → scalars cs ≡ true → bytes.now ≡ encodes cs → scalars_of bytes.now ≡ cs }
{
    Chars(bytes).count()
}
