ghost use Rattle.std.specs.Prelude.{◌≡◌, true};
ghost use Rattle.builder.specs.Stored.{state_in};
ghost use Rattle.builder.specs.Sound.{sound};

use crate::store::Store;

// A page under construction in lent records. What is used of them is a page at any time, so nothing ends a builder.
#[derive(Drop)]
pub struct Builder<'a> {
    pub(crate) store: Store<'a>,
    ghost sound: { sound (state_in store) ≡ true },
}
