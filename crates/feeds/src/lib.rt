// Where a line ends: the length of the line that a text begins with, found eight bytes at once.
#![tactic(auto)]

ghost use Rattle.std.specs.Prelude.{◌≡◌, ◌%◌, length};
ghost use Rattle.words.specs.Word.{bytes_of};
ghost use Rattle.feeds.specs.Feed.{line_length};

// The length of the line that a word's bytes begin with, 8 where no line ends in them. A byte of x is 0 for a line feed alone: for any other,
// bit 7 is set in it or in 127 more than its low seven bits, which carries into no other byte.
#[tactic(auto, using(std::proofs::lemmas::Nat::and_le_r, std::proofs::lemmas::Nat::trailing_le))]
fn word_length(w: u64) -> usize
    ensures { result ≡ line_length (bytes_of 8 w) }
{
    let x = w ^ 0x0a0a_0a0a_0a0a_0a0a;
    let others = ((x & 0x7f7f_7f7f_7f7f_7f7f) + 0x7f7f_7f7f_7f7f_7f7f) | x;
    let feeds = (others & 0x8080_8080_8080_8080) ^ 0x8080_8080_8080_8080;
    (feeds.trailing_zeros() / 8) as usize
}

// The length of the line that whole words begin with, or of all of them where no line ends in them.
// Counted in bytes: a loop over `0..s.len() / 8` keeps two counters, and is slower.
fn words_length(s: &[u8]) -> usize
    requires { length s.now % 8 ≡ 0 }
    ensures { result ≡ line_length s.now }
{
    for i in (0..s.len()).step_by(8) {
        let n = word_length(words::word_at(s, i));
        if n < 8 {
            return i + n;
        }
    }
    s.len()
}

// The same, a byte at a time.
fn bytes_length(s: &[u8]) -> usize
    ensures { result ≡ line_length s.now }
{
    s.iter().position(|b| *b == b'\n').unwrap_or(s.len())
}

// The length of the line that s begins with, or of s where no line ends in it: eight bytes at once, and singly the fewer than eight at its end.
pub fn line_length(s: &[u8]) -> usize
    ensures { result ≡ line_length s.now }
{
    let (words, rest) = s.split_at(s.len() / 8 * 8);
    let n = words_length(words);
    if n < words.len() {
        n
    } else {
        n + bytes_length(rest)
    }
}
