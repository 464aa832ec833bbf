// Reference resolution of RFC 3986, section 5.2: which components the target takes.
ghost use Rattle.std.specs.Prelude.{◌≡◌};
ghost use Rattle.std.specs.Option.{option_map};
ghost use Rattle.uri.specs.Resolve.{merge_front};
ghost use Rattle.uri.specs.View.{parts, path_front, draft, draft_of};

use crate::dots::last_slash;
use crate::parse::Components;

// The base's own path, or a front and the reference's path, from which the dot segments have to go.
#[derive(Clone, Copy)]
pub(crate) enum TargetPath<'a> {
    Kept(&'a [u8]),
    Merged(&'a [u8], &'a [u8]),
}

#[derive(Clone, Copy)]
pub(crate) struct Target<'a> {
    pub scheme: Option<&'a [u8]>,
    pub authority: Option<&'a [u8]>,
    pub path: TargetPath<'a>,
    pub query: Option<&'a [u8]>,
    pub fragment: Option<&'a [u8]>,
}

// What stands before the reference's path after merging, section 5.2.3.
fn merge_front<'a>(base: Components<'a>) -> &'a [u8]
    ensures { result.now ≡ merge_front (option_map (λ x. x.now) base.entry.authority) base.entry.path.now }
{
    let path = base.path;
    if path.is_empty() && base.authority.is_some() {
        return b"/";
    }
    match last_slash(path) {
        Some(i) => &path[..=i],
        None => b"",
    }
}

// What stands before a reference's path that is not empty: nothing if that begins with a slash.
fn path_front<'a>(base: Components<'a>, path: &[u8]) -> &'a [u8]
    ensures { result.now ≡ path_front (parts base.entry) path.now }
{
    if path.starts_with(b"/") {
        return b"";
    }
    merge_front(base)
}

// The transformation of section 5.2.2, strict, but for the removal of dot segments.
pub(crate) fn transform<'a>(base: Components<'a>, reference: Components<'a>) -> Target<'a>
    ensures { draft_of result ≡ draft (parts base.entry) (parts reference.entry) }
{
    let fragment = reference.fragment;
    if let Some(scheme) = reference.scheme {
        return Target {
            scheme: Some(scheme),
            authority: reference.authority,
            path: TargetPath::Merged(b"", reference.path),
            query: reference.query,
            fragment,
        };
    }
    if let Some(authority) = reference.authority {
        return Target {
            scheme: base.scheme,
            authority: Some(authority),
            path: TargetPath::Merged(b"", reference.path),
            query: reference.query,
            fragment,
        };
    }
    if reference.path.is_empty() {
        return Target {
            scheme: base.scheme,
            authority: base.authority,
            path: TargetPath::Kept(base.path),
            query: reference.query.or(base.query),
            fragment,
        };
    }
    let query = reference.query;
    Target {
        scheme: base.scheme,
        authority: base.authority,
        path: TargetPath::Merged(path_front(base, reference.path), reference.path),
        query,
        fragment,
    }
}
