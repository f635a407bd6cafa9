// Bytes to words of four bytes, the lowest first: for programs that read a machine's words from a
// file.
#![tactic(auto)]

ghost use Rattle.std.specs.Prelude.{◌≡◌, ℕ, ◌*◌, ◌/◌, ◌<◌, min, length, get_or};
ghost use Rattle.words.specs.Little.{word_at};
ghost use Rattle.console.specs.Counts.{IsPrefixLen};

// The whole words of the bytes, as many as fit.
pub fn words_of(bytes: &[u8], words: &mut [u32]) -> usize
    ensures prefix_len { IsPrefixLen result words.new }
    ensures value { result ≡ min (length bytes.now / 4) (length words.old) }
    ensures by_index { (k : ℕ) → k < result → get_or words.new k 0 ≡ word_at bytes.now (k * 4) }
{
    let (chunks, _) = bytes.as_chunks::<4>();
    let n = chunks.len().min(words.len());
    for j in 0..n {
        words[j] = u32::from_le_bytes(chunks[j]);
    }
    n
}
