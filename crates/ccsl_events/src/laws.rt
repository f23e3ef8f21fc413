//! What the definitions of a body mean. This function does nothing: it has laws as its contract.

ghost use Rattle.std.specs.Prelude.{◌≡◌, ℕ, List, [], ◌∷◌, ◌++◌, map, true};
ghost use Rattle.ccsl_vcd.specs.declared.fault.VcdFault.{VcdFault};
ghost use Rattle.ccsl_events.specs.declared.reader.Reader.{Reader};
ghost use Rattle.ccsl_events.specs.Dump.{Plan, Place, begin, refused, story, ends_at, body_says};
ghost use Rattle.ccsl_vcd_lex.specs.Tokens.{hear, tokens_from};
ghost use Rattle.ccsl_events.specs.Run.{Breaks};
ghost use Rattle.ccsl_events.specs.Fed.{HasTaken};

/// A reader that was fed a body and a line feed stands where the body ends. A fault that it finds is what the body
/// says, and the rows before the fault are those of the body's tokens.
pub fn whole_body()
    ensures ends { (plan : Plan) (start len : ℕ) (bytes : List ℕ) (p : Place) (r : Reader) →
        HasTaken plan start (bytes ++ 10 ∷ []) p r →
        body_says plan start len bytes ≡ ends_at plan len p }
    ensures breaks { (plan : Plan) (start len : ℕ) (bytes more : List ℕ) (f : VcdFault)
        (before old new : List ℕ) → Breaks plan begin start bytes f before old new →
        body_says plan start len (bytes ++ more) ≡ refused f }
    ensures rows { (plan : Plan) (start : ℕ) (bytes more : List ℕ) (f : VcdFault)
        (before old new : List ℕ) → (b : Breaks plan begin start bytes f before old new) →
        (story plan (map hear (tokens_from true start (bytes ++ more)))).place ≡ b.place }
    ensures line_feed { (plan : Plan) (start len : ℕ) (bytes : List ℕ) →
        body_says plan start len (bytes ++ 10 ∷ []) ≡ body_says plan start len bytes }
{}
