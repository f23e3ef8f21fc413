//! The elaborator.

ghost use Rattle.std.specs.Prelude.{◌≡◌, ◌≢◌, ◌≤◌, IfOk, IfErr, OnOk, Ok, Some, None};
ghost use Rattle.ccsl_base.specs.declared.limits.TheConstants.{MAX_CELLS};
ghost use Rattle.ccsl_ast.specs.Files.{plain_file};
ghost use Rattle.ccsl_kernel.specs.Cells.{cells};
ghost use Rattle.ccsl_rules.specs.Elaborated.{refusal};
ghost use Rattle.ccsl_rules.specs.Expansion.{expand};
ghost use Rattle.ccsl_accepts.specs.Acceptance.{empty, IsFaultless};
ghost use Rattle.ccsl_elaborate.specs.Answered.{IsAnswer};

use crate::counts::{cell_count, clock_count, constraint_count};
use ccsl_accepts::laws::{files_expand, names_are_distinct};
use ccsl_ast::File;
use ccsl_ast::laws::every_file_is_kept;
use ccsl_base::{MAX_CELLS, MAX_CLOCKS, MAX_CONSTRAINTS, Memory};
use ccsl_expand::expand;
use ccsl_faults::first_fault;
use ccsl_kernel::System;
use ccsl_rules::Refusal;
use std::alloc::Global;

// The count of cells of a file that is not refused, or the file's refusal. Nothing is expanded for either.
fn weighed(alloc: Global, library: &File, file: &File) -> Result<Result<u32, Refusal>, Memory>
    ensures refused { IfOk result (λ found.
        IfErr found (λ r. refusal (plain_file library.now) (plain_file file.now) ≡ Some r)) }
    ensures faultless { IfOk result (λ found.
        OnOk found (IsFaultless (plain_file library.now) (plain_file file.now))) }
    ensures cells { IfOk result (λ found.
        IfOk found (λ n. n ≡ cells (expand (plain_file library.now) (plain_file file.now)))) }
    ensures few { IfOk result (λ found. IfOk found (λ n. n ≤ MAX_CELLS)) }
{
    if let Some(fault) = first_fault(alloc, file, library)? {
        return Ok(Err(fault.refusal()));
    }
    let clocks = clock_count(alloc, library, file)?;
    if clocks > MAX_CLOCKS {
        return Ok(Err(Refusal::TooManyClocks(clocks)));
    }
    let constraints = constraint_count(alloc, library, file)?;
    if constraints > MAX_CONSTRAINTS {
        return Ok(Err(Refusal::TooManyConstraints(constraints)));
    }
    let count = cell_count(alloc, library, file)?;
    if count > MAX_CELLS {
        return Ok(Err(Refusal::StateTooLarge(count)));
    }
    Ok(Ok(count))
}

// The system of a file that has no fault and no total above its limit, from the count of its cells.
fn assembled(alloc: Global, library: &File, file: &File, count: u32) -> Result<System, Memory>
    requires library { refusal empty (plain_file library.now) ≡ None }
    requires faultless { IsFaultless (plain_file library.now) (plain_file file.now) }
    requires cells { count ≡ cells (expand (plain_file library.now) (plain_file file.now)) }
    requires few { count ≤ MAX_CELLS }
    ensures { IfOk result
        (λ system. IsAnswer (plain_file library.now) (plain_file file.now) (Ok system)) }
{
    every_file_is_kept(library);
    every_file_is_kept(file);
    names_are_distinct();
    files_expand();
    let parts = expand(alloc, library, file)?;
    Ok(System::assemble(parts, count))
}

// The answer to a file. Want of memory stands apart from it: so `?` hands that on alone, and `elaborate` joins the two.
fn judged(alloc: Global, library: &File, file: &File) -> Result<Result<System, Refusal>, Memory>
    requires { refusal empty (plain_file library.now) ≡ None }
    ensures { IfOk result
        (λ answer. IsAnswer (plain_file library.now) (plain_file file.now) answer) }
{
    match weighed(alloc, library, file)? {
        Err(refusal) => Ok(Err(refusal)),
        Ok(count) => Ok(Ok(assembled(alloc, library, file, count)?)),
    }
}

/// The system that a file stands for behind a library, or the file's refusal: of its faults the one with the least
/// place, and where it has none the first total above its limit. The library is one that is accepted by itself.
pub fn elaborate(alloc: Global, file: &File, library: &File) -> Result<System, Refusal>
    requires library { refusal empty (plain_file library.now) ≡ None }
    ensures accepted { OnOk result (refusal (plain_file library.now) (plain_file file.now) ≡ None) }
    ensures expansion { IfOk result (λ system.
        system ≡ expand (plain_file library.now) (plain_file file.now)) }
    ensures refused { IfErr result (λ r.
        r ≢ Refusal.Memory → refusal (plain_file library.now) (plain_file file.now) ≡ Some r) }
{
    match judged(alloc, library, file) {
        Ok(answer) => answer,
        Err(_) => Err(Refusal::Memory),
    }
}
