// Layers over layers: each is an engine again, so piles of any depth and mixture are.
ghost use Rattle.std.specs.Prelude.{◌≡◌};
ghost use Rattle.engine.specs.Layers.{capped, masked, cascaded, cap_means, mask_means, cascade_means};

use crate::{Cap, Cascade, Engine, Mask};

// A mask over a cap over a cascade of a masked engine and a capped one.
pub type Pile<E, F> = Mask<Cap<Cascade<Mask<E>, Cap<F>>>>;

// The pile over two engines, with one pair of blocks for both masks and one limit for both caps.
pub fn pile_up<E: Engine, F: Engine<Block = E::Block>>(
    first: E,
    second: F,
    before: E::Block,
    after: E::Block,
    limit: u32,
) -> Pile<E, F>
    ensures { mask_means E.Block.Block.arith (cap_means (cascade_means (mask_means E.Block.Block.arith E.Engine.means) (cap_means F.Engine.means))) result ≡ masked E.Block.Block.arith before after (capped limit (cascaded (masked E.Block.Block.arith before after (E.Engine.means first)) (capped limit (F.Engine.means second)))) }
{
    let cascade = Cascade::new(Mask::new(before, after, first), Cap::new(limit, second));
    Mask::new(before, after, Cap::new(limit, cascade))
}
