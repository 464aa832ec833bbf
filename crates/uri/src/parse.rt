// The components of an address, by the expression of RFC 3986, Appendix B.
ghost use Rattle.std.specs.Prelude.{◌≡◌, codes};
ghost use Rattle.std.specs.Option.{option_map};
ghost use Rattle.uri.specs.Bytes.{front, rest, after};
ghost use Rattle.uri.specs.Components.{components, scheme_cut, opened};
ghost use Rattle.uri.specs.Laws.{Matched};
ghost use Rattle.uri.specs.View.{parts};

#[derive(Clone, Copy)]
pub struct Components<'a> {
    pub scheme: Option<&'a [u8]>,
    pub authority: Option<&'a [u8]>,
    pub path: &'a [u8],
    pub query: Option<&'a [u8]>,
    pub fragment: Option<&'a [u8]>,
}

// The longest front without any of the bytes `stops`, and what follows it.
pub(crate) fn cut<'a>(bytes: &'a [u8], stops: &[u8]) -> (&'a [u8], &'a [u8])
    ensures front { result.0.now ≡ front stops.now bytes.now }
    ensures rest { result.1.now ≡ rest stops.now bytes.now }
{
    let stop = bytes.iter().position(|b| stops.contains(b));
    bytes.split_at(stop.unwrap_or(bytes.len()))
}

// The scheme, if there is one, and what follows its colon.
fn cut_scheme(bytes: &[u8]) -> (Option<&[u8]>, &[u8])
    ensures part { option_map (λ x. x.now) result.0 ≡ (scheme_cut bytes.now).0 }
    ensures behind { result.1.now ≡ (scheme_cut bytes.now).1 }
{
    let (name, behind) = cut(bytes, b":/?#");
    match behind.strip_prefix(b":") {
        Some(inner) if !name.is_empty() => (Some(name), inner),
        _ => (None, bytes),
    }
}

// The component that `open` begins and any of the bytes `stops` ends, if it is there, and what follows.
fn cut_opened<'a>(bytes: &'a [u8], open: &[u8], stops: &[u8]) -> (Option<&'a [u8]>, &'a [u8])
    ensures part { option_map (λ x. x.now) result.0 ≡ (opened stops.now (after «open».now bytes.now) bytes.now).0 }
    ensures behind { result.1.now ≡ (opened stops.now (after «open».now bytes.now) bytes.now).1 }
{
    match bytes.strip_prefix(open) {
        Some(inner) => {
            let (part, behind) = cut(inner, stops);
            (Some(part), behind)
        }
        None => (None, bytes),
    }
}

// The components of an address, each cut from what follows the one before.
pub fn split(bytes: &[u8]) -> Components<'_>
    ensures components { parts result ≡ components bytes.now }
    ensures matched { Matched bytes.now (parts result) }
{
    let (scheme, hierarchy) = cut_scheme(bytes);
    let (authority, local) = cut_opened(hierarchy, b"//", b"/?#");
    let (path, tail) = cut(local, b"?#");
    let (query, end) = cut_opened(tail, b"?", b"#");
    let fragment = end.strip_prefix(b"#");
    Components {
        scheme,
        authority,
        path,
        query,
        fragment,
    }
}
