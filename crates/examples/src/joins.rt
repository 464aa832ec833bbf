// Worked examples of joining: references on one base, as RFC 3986, section 5.4, lists them.
ghost use Rattle.std.specs.Prelude.{◌≡◌};
ghost use Rattle.examples.specs.Joins.{base, JoinsStand};

// The base that the references of the table are joined to.
pub fn joined_base() -> &'static [u8]
    ensures base { result.now ≡ base }
    ensures joins { JoinsStand }
{
    b"http://a/b/c/d;p?q"
}
