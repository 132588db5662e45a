// The functions of `bench` as C calls them, under the same names. A slice is a pointer and then a length, and 0 stands for
// what was refused: C has no Option.
#![tactic(auto)]

ghost use Rattle.std.specs.Prelude.{◌≡◌, ◌*◌, ◌⊎◌, length};
ghost use Rattle.aes.specs.Maps.{aes};
ghost use Rattle.xtea.specs.Xtea.{made as xtea_of};
ghost use Rattle.bench.specs.Calls.{standing128};
ghost use Rattle.bench.specs.Sums.{enciphering, deciphering, tag128, tag64};

#[unsafe(no_mangle)]
pub extern "C" fn bench_aes128_encipher(key: &[u8], memory: &[u8]) -> u64
    ensures { (result ≡ 0) ⊎ (result ≡ enciphering (aes 4 key.now 4294967295) memory.now) }
{
    bench::bench_aes128_encipher(key, memory).unwrap_or(0)
}

#[unsafe(no_mangle)]
pub extern "C" fn bench_aes128_decipher(key: &[u8], memory: &[u8]) -> u64
    ensures { (result ≡ 0) ⊎ (result ≡ deciphering (aes 4 key.now 4294967295) memory.now) }
{
    bench::bench_aes128_decipher(key, memory).unwrap_or(0)
}

#[unsafe(no_mangle)]
pub extern "C" fn bench_aes128_pmac(key: &[u8], memory: &[u8]) -> u64
    ensures { result ≡ tag128 (aes 4 key.now 4294967295) memory.now }
{
    bench::bench_aes128_pmac(key, memory).unwrap_or(0)
}

#[unsafe(no_mangle)]
pub extern "C" fn bench_xtea_pmac(key: &[u8], memory: &[u8]) -> u64
    ensures { result ≡ tag64 (xtea_of key.now 4294967295) memory.now }
{
    bench::bench_xtea_pmac(key, memory).unwrap_or(0)
}

#[unsafe(no_mangle)]
pub extern "C" fn bench_aes128_calls(
    key: &[u8],
    memory: &mut [u8],
    message: &[u8],
    piece: usize,
    edits: u32,
) -> u64
    ensures { (result ≡ 0) ⊎ (result ≡ standing128 (aes 4 key.now 4294967295) memory.new (8 * length message.now)) }
{
    bench::bench_aes128_calls(key, memory, message, piece, edits).unwrap_or(0)
}
