//! The nesting of a block's canonical text: its levels, or a sixty-fourth of its operators where that is more.
//! A text that nests beyond 64 is not in the grammar, so this says whether a block can be written down.
//! The nesting of a tree is in `specs/BlockGrammar.antt`, the canonical tree in `specs/BlockCanonical.antt`.

ghost use Rattle.std.specs.Prelude.{◌≡◌, [], min, ◌^◌};
ghost use Rattle.toy_imp.specs.BlockCanonical.{canonical_block};
ghost use Rattle.toy_imp.specs.BlockGrammar.{stmts_nesting};

use crate::block::Block;
use crate::levels::block_levels;
use crate::operators::block_operators;

/// The greatest nesting that is told.
const MOST_NESTING: u64 = 4_294_967_296;

impl Block {
    /// The nesting of the canonical text of the statements, without a block round the whole, or
    /// 2^32 where it is greater. It takes no memory.
    #[tactic(auto, using(crate::proofs::Nestings::nesting_of_counts))]
    pub fn nesting(&self) -> u64
        ensures { result ≡ min (stmts_nesting (canonical_block [] self.now)) (2 ^ 32) }
    {
        let sixty_fourths = block_operators(self).div_ceil(64);
        block_levels(self).max(sixty_fourths).min(MOST_NESTING)
    }
}
