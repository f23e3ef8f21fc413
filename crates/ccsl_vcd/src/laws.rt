//! What the definitions mean. These functions do nothing: each has laws as its contract.

ghost use Rattle.std.specs.Prelude.{◌≡◌, ℕ, ◌+◌, ◌≤◌, ◌<◌, List, [], ◌∷◌, ◌++◌, length, Some, Ok, Err, fold, map};
ghost use Rattle.ccsl_vcd_lex.specs.Tokens.{Token, word};
ghost use Rattle.ccsl_vcd.specs.declared.fault.VcdFault.TheVariants.{Unbound, Ambiguous};
ghost use Rattle.ccsl_vcd.specs.declared.limits.Limits.{Limits};
ghost use Rattle.ccsl_vcd.specs.Binding.{Declaration, Wanted, Bound, bind};
ghost use Rattle.ccsl_vcd.specs.Places.{Change, Body, body};
ghost use Rattle.ccsl_vcd.specs.Reading.{next, story, so_far, reading};
ghost use Rattle.ccsl_vcd.specs.Rows.{IsRead, recorded};
ghost use Rattle.ccsl_vcd.specs.Completed.{done};
ghost use Rattle.ccsl_vcd.specs.Grammar.{Item, IsBody, items_tokens, changes_of, time_after, body_story, EndsWell};
ghost use Rattle.ccsl_vcd.specs.Commands.{Command, IsHeader, header_tokens, declarations, BeginsWithHeader, IsTrace};

use crate::fault::VcdFault;

/// A fault that some bytes decide is the fault of every file that begins with them, and with it stands all that was
/// read before it.
pub fn decided_first()
    ensures whole { (w : Wanted) (l : Limits) (front rest : List ℕ) (f : VcdFault) →
        (so_far w l front).fault ≡ Some f → (reading w l (front ++ rest)).fault ≡ Some f }
    ensures stays { (w : Wanted) (l : Limits) (front rest : List ℕ) (f : VcdFault) →
        (so_far w l front).fault ≡ Some f → so_far w l (front ++ rest) ≡ so_far w l front }
{}

/// What is spelled by the grammar of a body is read without a fault, with the changes that its items make. What is read
/// without a fault up to a place where a file may end is spelled so.
pub fn body_grammar()
    ensures read { (w : Wanted) (l : Limits) (ds : List Declaration) (bs : List Bound)
        (cs : List Change) (now : ℕ)
        (items : List Item) → IsBody ds now items →
        fold (next w l) (body_story cs now ds bs) (map word (items_tokens items))
        ≡ body_story (cs ++ changes_of now items) (time_after now items) ds bs }
    ensures spelled { (w : Wanted) (l : Limits) (ds : List Declaration) (bs : List Bound)
        (cs : List Change) (now : ℕ)
        (tokens : List Token) →
        EndsWell (fold (next w l) (body_story cs now ds bs) (map word tokens)) →
        (items : List Item) × IsBody ds now items × (tokens ≡ items_tokens items) }
{}

/// What is spelled by the grammar of a header is read into a body, with the declarations of its commands, or to the
/// fault of their binding. What is read into a body begins with a header of the grammar.
pub fn header_grammar()
    ensures read { (w : Wanted) (l : Limits) (commands : List Command)
        (last : Command) (bound : List Bound) →
        IsHeader l commands last → bind w (declarations 0 commands) ≡ Ok bound →
        story w l (map word (header_tokens commands last))
        ≡ body_story [] 0 (declarations 0 commands) bound }
    ensures refused { (w : Wanted) (l : Limits) (commands : List Command)
        (last : Command) (f : VcdFault) →
        IsHeader l commands last → bind w (declarations 0 commands) ≡ Err f →
        (story w l (map word (header_tokens commands last))).fault ≡ Some f }
    ensures spelled { (w : Wanted) (l : Limits) (tokens : List Token) (b : Body) →
        (story w l (map word tokens)).place ≡ body b → BeginsWithHeader l tokens }
{}

/// A file that is spelled by the two grammars is read without a fault, with the declarations of its header, the clocks
/// that they bind, and the changes of its body. A file that is read without a fault is spelled so.
pub fn file_grammar()
    ensures read { (w : Wanted) (l : Limits) (file : List ℕ) (t : IsTrace w l file) →
        reading w l file
        ≡ body_story (changes_of 0 t.items) (time_after 0 t.items)
        (declarations 0 t.commands) t.bound }
    ensures spelled { (w : Wanted) (l : Limits) (file : List ℕ) →
        IsRead w l file → IsTrace w l file }
{}

/// A byte completes at most one row, and so does the end of a file.
pub fn rows_come_one_by_one()
    ensures byte { (w : Wanted) (l : Limits) (bytes : List ℕ) (b : ℕ) →
        length (done w l (bytes ++ b ∷ [])) ≤ length (done w l bytes) + 1 }
    ensures end { (w : Wanted) (l : Limits) (file : List ℕ) →
        length (recorded w l file) ≤ length (done w l file) + 1 }
{}

/// A fault that names a clock names one that a trace may bind, and where it is that the clock is not bound, one that it
/// has to bind.
pub fn faults_name_clocks()
    ensures unbound { (w : Wanted) (l : Limits) (file : List ℕ) (clock : ℕ) →
        (reading w l file).fault ≡ Some (Unbound clock) →
        clock < length w.names × clock < w.declared }
    ensures ambiguous { (w : Wanted) (l : Limits) (file : List ℕ) (clock : ℕ) →
        (reading w l file).fault ≡ Some (Ambiguous clock) → clock < length w.names }
{}
