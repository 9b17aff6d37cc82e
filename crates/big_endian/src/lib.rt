// Numbers from bytes, the highest byte first.
#![tactic(auto)]

ghost use Rattle.std.specs.Prelude.{◌≡◌, take};
ghost use Rattle.big_endian.specs.Bytes.{from_bytes, spelled};

// The number that the first eight bytes spell, or as many as there are.
pub fn number(bytes: &[u8]) -> u64
    ensures { result ≡ from_bytes (take 8 bytes.now) }
{
    let first = &bytes[..bytes.len().min(8)];
    let mut n = 0;
    for byte in first {
        n = n * 256 + u64::from(*byte);
    }
    n
}

// Writes the numbers that bytes spell to the front of the words, each of as many bytes as the width, as far as both go.
pub fn numbers(words: &mut [u64], bytes: &[u8], width: usize)
    ensures { words.new ≡ spelled width words.old bytes.now }
{
    let mut rest = bytes;
    for word in words.iter_mut() {
        let Some((first, others)) = rest.split_at_checked(width) else {
            return;
        };
        *word = number(first);
        rest = others;
    }
}
