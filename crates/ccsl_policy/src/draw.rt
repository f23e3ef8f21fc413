//! The words of a seed.

ghost use Rattle.std.specs.Prelude.{◌≡◌, ◌+◌, ℕ, IfOk, OnErr};
ghost use Rattle.ccsl_policy.specs.Words.{words_from};
ghost use Rattle.ccsl_policy.specs.Generator.{StandsFor};

use ccsl_base::Memory;
use rand_core::utils::NextWord;
use rand_pcg::Pcg32;
use std::alloc::Global;
use std::marker::Model;

/// The stream of the generator.
const STREAM: u64 = 54;

/// The words of a seed, one after another.
#[derive(Drop)]
pub struct Draw {
    generator: Pcg32,
}

impl Model for Draw {
    ghost use Rattle.rand_pcg.specs.Lcg.{Lcg};

    ghost Value = { Lcg };

    ghost view = { λ d. d.generator };
}

impl Draw {
    /// The words of a seed, from the first on: those of PCG XSH RR 64/32 in one stream.
    pub fn new(seed: u64) -> Draw
        ensures { StandsFor result seed 0 }
    {
        Draw {
            generator: Pcg32::new(seed, STREAM),
        }
    }

    /// The same with so many words taken already. It costs no more for many than for few.
    pub fn at(seed: u64, taken: u64) -> Draw
        ensures { StandsFor result seed taken }
    {
        let mut generator = Pcg32::new(seed, STREAM);
        generator.advance(taken);
        Draw { generator }
    }

    /// The next words. On `Memory` no word is taken.
    pub fn next(&mut self, alloc: Global, n: u32) -> Result<Vec<u32>, Memory>
        ensures words { IfOk result (λ v. (seed j : ℕ) → StandsFor self.old seed j →
            v.items ≡ words_from seed j n) }
        ensures stands { IfOk result (λ _. (seed j : ℕ) → StandsFor self.old seed j →
            StandsFor self.new seed (j + n)) }
        ensures kept { OnErr result (self.new ≡ self.old) }
    {
        drawn(&mut self.generator, alloc, n)
    }
}

/// The next words of a generator. Room for them is taken first.
fn drawn(generator: &mut Pcg32, alloc: Global, n: u32) -> Result<Vec<u32>, Memory>
    ensures words { IfOk result (λ v. (seed j : ℕ) → StandsFor generator.old seed j →
        v.items ≡ words_from seed j n) }
    ensures stands { IfOk result (λ _. (seed j : ℕ) → StandsFor generator.old seed j →
        StandsFor generator.new seed (j + n)) }
    ensures kept { OnErr result (generator.new ≡ generator.old) }
{
    let mut list = Vec::with_capacity(alloc, n as usize)?;
    for i in 0..n {
        list.push_reserved(generator.next_word());
    }
    Ok(list)
}
