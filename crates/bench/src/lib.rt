// What `bench/` times: sums of enciphered and of deciphered blocks, full tags, and the calls of an overlay.
#![tactic(auto)]

mod calls;
mod sums;
mod tags;

ghost use Rattle.std.specs.Prelude.{◌≡◌, ◌*◌, length, IfSome};
ghost use Rattle.aes.specs.Maps.{aes};
ghost use Rattle.xtea.specs.Xtea.{made as xtea_of};
ghost use Rattle.bench.specs.Calls.{standing128};
ghost use Rattle.bench.specs.Sums.{IsWay, folded, enciphering, deciphering, total_under, tag_under};
ghost use Rattle.engine.specs.Meaning.{Meaning};
ghost use Rattle.std.specs.Option.{option_map};
ghost use Rattle.block.specs.Blocks.{arith64, arith128};

use aes::Aes128;
use block::{Block, Block128};
use engine::{Engine, EngineFault, Keyed};
use xtea::Xtea;

// The sum of the blocks of `memory`, enciphered under `key`; none where that is refused.
pub fn bench_aes128_encipher(key: &[u8], memory: &[u8]) -> Option<u64>
    ensures { IfSome result (λ sum. sum ≡ enciphering (aes 4 key.now 4294967295) memory.now) }
{
    let sum = sum_under(
        key,
        memory,
        |engine: &mut Aes128, block| engine.encipher(block),
    )?;
    Some(fold(sum))
}

// The same, deciphered.
pub fn bench_aes128_decipher(key: &[u8], memory: &[u8]) -> Option<u64>
    ensures { IfSome result (λ sum. sum ≡ deciphering (aes 4 key.now 4294967295) memory.now) }
{
    let sum = sum_under(
        key,
        memory,
        |engine: &mut Aes128, block| engine.decipher(block),
    )?;
    Some(fold(sum))
}

// The full tag of `memory` under AES-128; none where that is refused.
pub fn bench_aes128_pmac(key: &[u8], memory: &[u8]) -> Option<u64>
    ensures { result ≡ option_map folded (tag_under arith128 (aes 4 key.now 4294967295) memory.now) }
{
    tag_under::<Aes128>(key, memory).map(fold)
}

// The same under XTEA.
pub fn bench_xtea_pmac(key: &[u8], memory: &[u8]) -> Option<u64>
    ensures { result ≡ option_map (λ tag. tag.value) (tag_under arith64 (xtea_of key.now 4294967295) memory.now) }
{
    tag_under::<Xtea>(key, memory).map(|tag| tag.value() as u64)
}

// The tag of what stands in `memory` after `message` was added to an overlay in pieces of `piece` bytes, and then
// edited block by block; none where one of these is refused.
pub fn bench_aes128_calls(
    key: &[u8],
    memory: &mut [u8],
    message: &[u8],
    piece: usize,
    edits: u32,
) -> Option<u64>
    ensures { IfSome result (λ tag. tag ≡ standing128 (aes 4 key.now 4294967295) memory.new (8 * length message.now)) }
{
    let Ok(engine) = Aes128::new(key, u32::MAX) else {
        return None;
    };
    let mut tag = [0u8; 16];
    calls::tag_by_calls(engine, memory, message, piece, edits, &mut tag)?;
    Some(fold(Block128::read(&tag)))
}

// The sum of the blocks of `memory`, each sent one way through a cipher under `key`; none where that is refused.
fn sum_under<C: Keyed + Drop, W: Fn(&mut C, C::Block) -> Result<C::Block, EngineFault>>(
    key: &[u8],
    memory: &[u8],
    way: W,
) -> Option<C::Block>
    requires { W.IsAlwaysCallable way }
    ensures { (f : Meaning C.Block → C.Block → C.Block) → IsWay C.Engine.means f W.Fn way → IfSome result (λ sum. Some sum ≡ total_under C.Block.Block.arith f (C.made key.now 4294967295) memory.now) }
{
    let Ok(mut engine) = C::new(key, u32::MAX) else {
        return None;
    };
    sums::sum_of(&mut engine, memory, way).ok()
}

// The full tag of `memory` under a cipher; none where that is refused.
fn tag_under<C: Keyed + Drop>(key: &[u8], memory: &[u8]) -> Option<C::Block>
    ensures { result ≡ tag_under C.Block.Block.arith (C.made key.now 4294967295) memory.now }
{
    let mut engine = C::new(key, u32::MAX).ok()?;
    tags::full_tag(&mut engine, memory)
}

// All 128 bits in 64, so that none of the work is left out.
fn fold(sum: Block128) -> u64
    ensures { result ≡ folded sum }
{
    let v = sum.value();
    (v >> 64) as u64 ^ (v % 0x1_0000_0000_0000_0000) as u64
}
