// Eight bytes held in one 64-bit word.
#![tactic(auto)]

ghost use Rattle.std.specs.Prelude.{◌≡◌, ◌+◌, ◌≤◌, length, take, drop};
ghost use Rattle.words.specs.Word.{bytes_of};

// The word that holds the eight bytes of s from a place on. They are cut out first, so that the compiler drops the test of their length.
pub fn word_at(s: &[u8], i: usize) -> u64
    requires { i + 8 ≤ length s.now }
    ensures { bytes_of 8 result ≡ take 8 (drop i s.now) }
{
    let bytes = s[i..i + 8].first_chunk::<8>().unwrap();
    u64::from_le_bytes(*bytes)
}
