// How tables hash the texts that a page brings.
use std::hash::{BuildHasherDefault, DefaultHasher};

/// What makes the hashers of a table. They are SipHash, as `Attrs::digest` is: nobody computes it
/// backwards, so a page can't bring many keys of one hash.
pub type Hashing = BuildHasherDefault<DefaultHasher>;
