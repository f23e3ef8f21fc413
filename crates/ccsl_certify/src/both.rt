//! Two values, where there is a second one.

ghost use Rattle.std.specs.Prelude.{◌≡◌, Ok, Err, IfOk, IfErr};

/// The first with the second, where there is one. It is for any type: the drop of a known type that is large is dear to
/// check.
pub(crate) fn both<A: Drop, B, E>(first: A, second: Result<B, E>) -> Result<(A, B), E>
    ensures pair { IfOk result (λ pair. (pair.0 ≡ first) × (second ≡ Ok pair.1)) }
    ensures fault { IfErr result (λ fault. second ≡ Err fault) }
{
    match second {
        Ok(second) => Ok((first, second)),
        Err(fault) => Err(fault),
    }
}
