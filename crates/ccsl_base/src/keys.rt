//! The keys of hash tables whose texts a stranger chooses.

ghost use Rattle.core.specs.Hash.DefaultHasher.{with_keys};

use core::hash::{BuildHasher, DefaultHasher, keyed_hasher};

/// The keys by which texts are hashed. Nobody who does not know them can choose texts that collide, so they are to be
/// drawn at random; no answer depends on them.
#[derive(Clone, Copy)]
pub struct HashKeys {
    pub first: u64,
    pub second: u64,
}

impl BuildHasher for HashKeys {
    type Hasher = DefaultHasher;

    ghost build_hasher = { λ keys. with_keys keys.first keys.second };

    fn build_hasher(&self) -> DefaultHasher {
        keyed_hasher(self.first, self.second)
    }
}
