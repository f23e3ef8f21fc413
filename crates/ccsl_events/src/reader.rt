//! Reading a dump piece by piece.

ghost use Rattle.std.specs.Prelude.{◌≡◌, ◌⊎◌, ◌≤◌, ◌<◌, ◌+◌, ◌-◌, ◌^◌, ℕ, List, [], length, true, false, None, IfOk, OnOk, IsSomeAnd};
ghost use Rattle.ccsl_vcd_lex.specs.Tokens.{token};
ghost use Rattle.ccsl_events.specs.Dump.{Plan, Place, begin, token_says, ends_at};
ghost use Rattle.ccsl_events.specs.Standing.{Stands, counted};
ghost use Rattle.ccsl_vcd.specs.Places.{Among, commands};
ghost use Rattle.ccsl_scopes.specs.Headings as headings;
ghost use Rattle.ccsl_scopes.specs.Standing.{IsHeaderOf};
ghost use Rattle.ccsl_events.specs.Fed.{ReadsHeader, IsInHeader, IsBehindHeader, SaysHeader, MayBegin};
ghost use Rattle.ccsl_events.specs.Fed.{HasTaken, Says, TakesPiece};

use crate::body::Body;
use crate::output::FULL;
use ccsl_base::{HashKeys, MAX_TOKEN_BYTES, Memory};
use ccsl_scopes::{Header, HeaderReader};
use ccsl_vcd::{Limits, VcdFault};
use ccsl_vcd_lex::run_end;
use std::alloc::Global;

/// Takes the bytes of a dump. It keeps the token that a piece ends in.
pub struct Reader {
    heading: Option<HeaderReader>,
    is_header_over: bool,
    body: Option<Body>,
    carry: Vec<u8>,
    // how many bytes were taken
    taken: u64,
}

// By hand and not derived: to the prover, an early return then drops one by a single call.
impl Drop for Reader {
    fn drop(self) {
        let Reader {
            heading: _heading,
            is_header_over: _,
            body: _body,
            carry: _carry,
            taken: _,
        } = self;
    }
}

impl Reader {
    /// A reader before the first byte.
    pub fn open(alloc: Global, keys: HashKeys, limits: Limits) -> Result<Reader, Memory>
        ensures { IfOk result (λ r. IsInHeader limits [] commands headings.begin r) }
    {
        let carry = Vec::with_capacity(alloc, MAX_TOKEN_BYTES)?;
        Ok(Reader {
            heading: Some(HeaderReader::new(alloc, keys, limits)),
            is_header_over: false,
            body: None,
            carry,
            taken: 0,
        })
    }

    /// How many times have a row so far.
    pub fn times(&self) -> u64
        ensures { (plan : Plan) (p : Place) (body : Body) → self.now.body ≡ Some body →
            Stands plan p body → result ≡ counted p.times }
    {
        match &self.body {
            Some(body) => body.times(),
            None => 0,
        }
    }

    /// The header, once its last token was taken.
    pub fn take_header(&mut self) -> Option<Header>
        ensures header { (limits : Limits) (bytes : List ℕ) (h : headings.Heading) →
            IsBehindHeader limits bytes h self.old →
            IsSomeAnd result (λ header. IsHeaderOf h header) × MayBegin (length bytes) self.new }
        ensures goes_on { (limits : Limits) (bytes : List ℕ) (among : Among)
            (h : headings.Heading) → IsInHeader limits bytes among h self.old →
            (result ≡ None) × (self.new ≡ self.old) }
    {
        if !self.is_header_over {
            return None;
        }
        self.is_header_over = false;
        match self.heading.take() {
            Some(heading) => Some(heading.into_header()),
            None => None,
        }
    }

    /// The body begins.
    pub fn begin(&mut self, body: Body)
        ensures { (plan : Plan) (start : ℕ) → MayBegin start self.old → Stands plan begin body →
            HasTaken plan start [] begin self.new }
    {
        self.body = Some(body);
    }

    // The token that is kept has ended.
    fn hear(&mut self, out: &mut Vec<u8>) -> Result<(), VcdFault>
        ensures says { (plan : Plan) (p : Place) (body : Body) →
            self.old.body ≡ Some body → Stands plan p body →
            let kept = token (self.old.taken - length self.old.carry.items) self.old.carry.items in
            Says plan p.written (token_says plan p kept p.amid) result self.new
            out.old.items out.new.items }
        ensures heads { (limits : Limits) (among : Among) (h : headings.Heading) →
            ReadsHeader limits among h self.old →
            let kept = token (self.old.taken - length self.old.carry.items) self.old.carry.items in
            SaysHeader limits (headings.heading_says limits h kept among) result self.new
            × (out.new.items ≡ out.old.items) }
        ensures clears { OnOk result (self.new.carry.items ≡ []) }
        ensures place { self.new.taken ≡ self.old.taken }
        ensures header { (body : Body) → self.old.body ≡ Some body →
            self.new.is_header_over ≡ self.old.is_header_over }
    {
        let at = self.taken.saturating_sub(self.carry.len() as u64);
        let text = self.carry.as_slice();
        if let Some(body) = &mut self.body {
            body.hear(at, text, out)?;
        } else if let Some(heading) = &mut self.heading {
            self.is_header_over = heading.hear(at, text)?;
        }
        self.carry.clear();
        Ok(())
    }

    // Takes the bytes up to the end of the token that is open.
    fn part(&mut self, bytes: &[u8], out: &mut Vec<u8>) -> Result<usize, VcdFault>
        requires { 0 < length bytes.now }
        ensures { TakesPiece bytes.now result self.old self.new out.old.items out.new.items }
    {
        let end = run_end(bytes, 0);
        if end > MAX_TOKEN_BYTES - self.carry.len().min(MAX_TOKEN_BYTES) {
            let at = self.taken.saturating_sub(self.carry.len() as u64);
            return Err(VcdFault::TokenTooLong { at });
        }
        self.carry.extend_from_slice(&bytes[..end])?;
        self.taken = self.taken.saturating_add(end as u64);
        if end == bytes.len() {
            return Ok(end);
        }
        if !self.carry.is_empty() {
            self.hear(out)?;
        }
        self.taken = self.taken.saturating_add(1);
        Ok(end + 1)
    }

    // Takes the tokens that lie whole in some bytes, or a part of one.
    fn stride(&mut self, bytes: &[u8], out: &mut Vec<u8>) -> Result<usize, VcdFault>
        requires { 0 < length bytes.now }
        ensures { TakesPiece bytes.now result self.old self.new out.old.items out.new.items }
    {
        if self.carry.is_empty() {
            if let Some(body) = &mut self.body {
                let taken = body.run(self.taken, bytes, out)?;
                if taken > 0 {
                    self.taken = self.taken.saturating_add(taken as u64);
                    return Ok(taken);
                }
            }
        }
        self.part(bytes, out)
    }

    /// Takes bytes of a piece, one at least, up to the header's end or to where the output is full. It answers how
    /// many.
    pub fn feed(&mut self, piece: &[u8], out: &mut Vec<u8>) -> Result<usize, VcdFault>
        requires { 0 < length piece.now }
        ensures takes { TakesPiece piece.now result self.old self.new out.old.items out.new.items }
        ensures stops { IfOk result (λ taken. (taken ≡ length piece.now)
            ⊎ (FULL ≤ length out.new.items) ⊎
            (self.new.is_header_over ≡ true)) }
    {
        let first = self.stride(piece, out)?;
        let mut rest = &piece[first..];
        'strides: while !rest.is_empty() && out.len() < FULL && !self.is_header_over {
            let taken = self.stride(rest, out)?;
            rest = &rest[taken..];
        }
        Ok(piece.len() - rest.len())
    }

    /// Ends the dump: the row of the last time is appended, if the dump may end here.
    pub fn finish(&mut self, len: u64, out: &mut Vec<u8>) -> Result<(), VcdFault>
        ensures { (plan : Plan) (start : ℕ) (bytes : List ℕ) (p : Place) →
            HasTaken plan start bytes p self.old →
            Says plan p.written (ends_at plan len p) result self.new out.old.items out.new.items }
    {
        match &mut self.body {
            Some(body) if body.may_end() => body.settle(out),
            _ => Err(VcdFault::Truncated { at: len }),
        }
    }
}
