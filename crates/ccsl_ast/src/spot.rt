//! Names with their places.

use ccsl_base::text::Text;

/// A name, and the offset of its first byte in the text.
#[derive(Drop)]
pub struct Spot {
    pub at: usize,
    pub name: Text,
}
