// A part of a node of a page.
ghost use Rattle.std.specs.Prelude.{◌≡◌, ℕ, ◌+◌, ◌^◌, ◌<◌, ◌≤◌, length, take, drop, IfSome, slice_index};
ghost use Rattle.std.specs.Iterator.{YieldsFirst, item_count};
ghost use Rattle.std.specs.List.{slice_get};
ghost use Rattle.utf8.specs.Decode.{decoded, scalars_of};
ghost use Rattle.text.specs.Held.{held, run};

use crate::machine::Machine;
use page::{Ask, Page, Part};
use std::array::from_fn;
use std::marker::Model;
use utf8::decode;

// A part of a node, which may be there or not, with its length. A clause sees its bytes: none where it is not there.
#[derive(Drop)]
pub struct PartOf<'p, P: Page> {
    page: &'p P,
    node: usize,
    part: Part,
    len: usize,
}

impl<'p, P: Page> Model for PartOf<'p, P> {
    ghost use Rattle.std.specs.Prelude.{◌≡◌, ℕ, List, length};
    ghost use Rattle.text.specs.Held.{held};

    ghost Value = { List ℕ };

    ghost view = { λ s. held (P.tree s.page.now) s.node s.part };

    ghost invariant = { λ s. s.len ≡ length (held (P.tree s.page.now) s.node s.part) };
}

// The byte of a part that stands k behind the place.
fn byte_behind<P: Page>(page: &P, node: usize, part: Part, at: usize, k: usize) -> u8
    ensures { at + k < 2 ^ 64 → at + k < length (held (P.tree page.now) node part) → result ≡ slice_index (held (P.tree page.now) node part) (at + k) }
{
    page.byte_of(node, part, at.saturating_add(k))
}

// The next four bytes of a part, with any behind its last. It takes no `&PartOf`, so that the fields of one can stay in
// registers while its characters are read.
#[inline]
fn next_bytes<P: Page>(page: &P, node: usize, part: Part, at: usize) -> [u8; 4]
    ensures { (k : ℕ) → k < 4 → at + k < 2 ^ 64 → at + k < length (held (P.tree page.now) node part) → slice_index result k ≡ slice_index (held (P.tree page.now) node part) (at + k) }
{
    from_fn(|k| byte_behind(page, node, part, at, k))
}

impl<'p, P: Page> PartOf<'p, P> {
    pub fn new(page: &'p P, node: usize, part: Part) -> PartOf<'p, P>
        ensures { result ≡ held (P.tree page.now) node part }
    {
        PartOf {
            page,
            node,
            part,
            len: page.len(node, part).unwrap_or(0),
        }
    }

    pub fn len(&self) -> usize
        ensures { result ≡ length self.now }
    {
        self.len
    }

    // The byte at the place.
    #[inline(always)]
    pub fn get(&self, at: usize) -> Option<u8>
        ensures { result ≡ slice_get self.now at }
    {
        if at < self.len {
            Some(self.page.byte_of(self.node, self.part, at))
        } else {
            None
        }
    }

    // The character that begins at the place, with how many bytes it takes.
    #[inline(always)]
    pub fn char_at(&self, at: usize) -> Option<(char, usize)>
        ensures inside { IfSome result (λ x. (0 < x.1) × (at + x.1 ≤ length self.now) × (at + x.1 < 2 ^ 64)) }
        ensures value { result ≡ decoded (drop at self.now) }
    {
        let left = self.len().saturating_sub(at);
        let lead = self.get(at)?;
        if lead < 0x80 {
            return Some((char::from(lead), 1));
        }
        decode(&next_bytes(self.page, self.node, self.part, at)[..left.min(4)])
    }

    // Feeds the machine the characters of the part.
    #[inline]
    pub fn feed<M: Machine>(&self, m: &mut M)
        ensures fed { m.new ≡ run M.Machine.step m.old (scalars_of self.now) }
        ensures fits { length self.now < 2 ^ 64 }
    {
        // Only for the clause `fits`.
        let _ = self.len();
        for c in self.chars() {
            m.eat(c);
        }
    }

    // Its characters, up to the first place where none begins.
    pub fn chars<'a>(&'a self) -> Chars<'a, 'p, P>
        ensures { result ≡ scalars_of self.now }
    {
        Chars { bytes: self, at: 0 }
    }
}

// The characters of a part that are left.
#[derive(Drop)]
pub struct Chars<'a, 'p, P: Page> {
    bytes: &'a PartOf<'p, P>,
    at: usize,
}

impl<'a, 'p, P: Page> Model for Chars<'a, 'p, P> {
    ghost use Rattle.std.specs.Prelude.{ℕ, List, drop};
    ghost use Rattle.utf8.specs.Decode.{scalars_of};

    ghost Value = { List ℕ };

    ghost view = { λ s. scalars_of (drop s.at s.bytes.now) };
}

impl<'a, 'p, P: Page> Iterator for Chars<'a, 'p, P> {
    type Item = char;

    ghost next_gives = { YieldsFirst (λ s. s) };

    ghost remaining = { item_count (λ s. s) };

    #[inline(always)]
    fn next(&mut self) -> Option<char> {
        let (c, w) = self.bytes.char_at(self.at)?;
        self.at += w;
        Some(c)
    }
}
