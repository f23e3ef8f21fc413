//! What the definitions of tokens mean. These functions do nothing: each has a law as its contract.

ghost use Rattle.std.specs.Prelude.{◌≡◌, ℕ, List, ◌++◌, Contains, map};
ghost use Rattle.std.specs.List.Sorted.{IsStrictlyIncreasing};
ghost use Rattle.ccsl_vcd_lex.specs.Tokens.{Token, Heard, tokens, heard, settled};
ghost use Rattle.ccsl_vcd_lex.specs.Runs.{IsRun};

/// The tokens of a list of bytes are its longest runs of bytes that are not white, and nothing else, in their order.
pub fn longest_runs()
    ensures found { (bytes : List ℕ) (t : Token) → Contains (tokens bytes) t → IsRun bytes t }
    ensures all { (bytes : List ℕ) (t : Token) → IsRun bytes t → Contains (tokens bytes) t }
    ensures ascending { (bytes : List ℕ) → IsStrictlyIncreasing (map (λ t. t.at) (tokens bytes)) }
{}

/// What bytes settle comes first in what more bytes settle, and in what is said of a whole file that begins with them.
pub fn settled_stays()
    ensures further { (bytes more : List ℕ) →
        (rest : List Heard) × (settled (bytes ++ more) ≡ settled bytes ++ rest) }
    ensures whole { (bytes more : List ℕ) →
        (rest : List Heard) × (heard (bytes ++ more) ≡ settled bytes ++ rest) }
{}
