//! The names of clocks behind the paths of calls.

ghost use Rattle.std.specs.Prelude.{◌≡◌, IfOk};
ghost use Rattle.ccsl_rules.specs.Unfolded.{inside, call_path};

use ccsl_base::Memory;
use std::alloc::Global;

/// A name behind a path, after a dot where the path is not empty.
pub fn inside(alloc: Global, path: &[u8], name: &[u8]) -> Result<Vec<u8>, Memory>
    ensures { IfOk result (λ v. v.items ≡ inside path.now name.now) }
{
    let mut whole = Vec::from_slice(alloc, path)?;
    if !path.is_empty() {
        whole.push(b'.')?;
    }
    whole.extend_from_slice(name)?;
    Ok(whole)
}

/// The path of the call of a name that stands at a place of a body: the name, `@` and the place.
pub fn call_path(alloc: Global, path: &[u8], name: &[u8], place: usize) -> Result<Vec<u8>, Memory>
    ensures { IfOk result (λ v. v.items ≡ call_path path.now name.now place) }
{
    let digits = format!(in alloc; "{place}")?;
    let mut site = Vec::from_slice(alloc, name)?;
    site.push(b'@')?;
    site.extend_from_slice(digits.as_bytes())?;
    inside(alloc, path, &site)
}
