//! The letters at the front of a text.

ghost use Rattle.std.specs.Prelude.{◌≡◌, ◌+◌, ◌≤◌, ◌≢◌, IfOk, IfErr, vec_len};
ghost use Rattle.ccsl_words.specs.Front.{LeadsWith, HasLetters};

use crate::fault::WordFault;
use ccsl_base::MAX_LETTERS;
use std::alloc::Global;

/// All letters at the front of a text, with room for so many.
pub fn letters_at_front(alloc: Global, text: &[u8], room: usize) -> Result<Vec<bool>, WordFault>
    requires { room ≤ MAX_LETTERS }
    ensures letters { IfOk result (λ v. LeadsWith text.now v.items) }
    ensures few { IfOk result (λ v. vec_len v ≤ room) }
    ensures cause { IfErr result (λ e. e ≢ WordFault.Memory → e ≡ WordFault.TooLong) }
    ensures long { IfErr result (λ e. e ≢ WordFault.Memory → HasLetters text.now (room + 1)) }
{
    let mut letters = Vec::new(alloc);
    for byte in text {
        let letter = match byte {
            b'0' => false,
            b'1' => true,
            _ => return Ok(letters),
        };
        if letters.len() == room {
            return Err(WordFault::TooLong);
        }
        if letters.push(letter).is_err() {
            return Err(WordFault::Memory);
        }
    }
    Ok(letters)
}
