//! The header of a dump.

ghost use Rattle.std.specs.Prelude.{◌≡◌, ◌⊎◌, ◌≤◌, ◌<◌, ◌++◌, ◌∷◌, [], None, IsTrue, OnOk, IfOk, IfErr, length};
ghost use Rattle.ccsl_base.specs.Names.{find_name};
ghost use Rattle.ccsl_scopes.specs.Codes.{are_declared};
ghost use Rattle.ccsl_scopes.specs.Headings.{with_code};

use crate::variable::Variable;
use ccsl_base::{HashKeys, Memory, Names};
use ccsl_vcd::VcdFault;
use std::alloc::Global;

/// What a header declares.
#[derive(Drop)]
pub struct Header {
    pub variables: Vec<Variable>,
    /// the codes, in the order in which they are declared first
    pub codes: Names<HashKeys>,
    /// what stands between `$timescale` and its `$end`, with a blank between two tokens
    pub timescale: Option<Vec<u8>>,
    pub ghost declared: { IsTrue (are_declared (length codes) variables.items) },
}

impl Header {
    pub(crate) fn new(alloc: Global, keys: HashKeys) -> Header
        ensures variables { result.variables.items ≡ [] }
        ensures codes { result.codes ≡ [] }
        ensures timescale { result.timescale ≡ None }
    {
        Header {
            variables: Vec::new(alloc),
            codes: Names::with_hasher(alloc, keys),
            timescale: None,
        }
    }

    /// The number of a code, which is declared from here on. So many codes have room.
    pub(crate) fn code(&mut self, room: u32, at: u64, text: &[u8]) -> Result<u32, VcdFault>
        ensures known { OnOk result (self.new.codes ≡ with_code self.old.codes text.now) }
        ensures number { IfOk result (λ n. find_name text.now self.new.codes ≡ Some n) }
        ensures declared { IfOk result (λ code. code < length self.new.codes) }
        ensures kept { length self.old.codes ≤ length self.new.codes }
        ensures variables { self.new.variables ≡ self.old.variables }
        ensures timescale { self.new.timescale ≡ self.old.timescale }
        ensures refused { IfErr result (λ f. (f ≡ VcdFault.Memory)
            ⊎ (room ≤ length self.old.codes)) }
    {
        if let Some(code) = self.codes.find(text) {
            return Ok(code);
        }
        let code = self.codes.len();
        if code >= room {
            return Err(VcdFault::TooManyVars { at });
        }
        self.codes.add(text)?;
        Ok(code)
    }

    /// One variable more, whose code is declared.
    pub(crate) fn put(&mut self, variable: Variable) -> Result<(), Memory>
        requires { variable.code < length self.old.codes }
        ensures variables { OnOk result (self.new.variables.items
            ≡ self.old.variables.items ++ variable ∷ []) }
        ensures codes { self.new.codes ≡ self.old.codes }
        ensures timescale { self.new.timescale ≡ self.old.timescale }
    {
        self.variables.push(variable)?;
        Ok(())
    }
}
