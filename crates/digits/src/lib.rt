// Upper-case hexadecimal digits: tested, read and written.
#![tactic(auto)]

ghost use Rattle.std.specs.Prelude.{◌≡◌, true, map, ◌%◌, ◌≤◌, ◌<◌, eqb, length};
ghost use Rattle.std.specs.List.{list_all};
ghost use Rattle.digits.specs.Digit.{is_digit, all_digits, passes, digit_value, hex_value, digit_of, places_of, spelt, signed16, word32};

// Whether b is a digit, 0 to 9 or A to F.
#[tactic(auto, using(std::proofs::lemmas::Bool::Decides::nat_tests), unfolding(crate::specs::Digit::is_digit))]
pub fn is_digit(b: u8) -> bool
    ensures { result ≡ is_digit b }
{
    matches!(b, b'0'..=b'9' | b'A'..=b'F')
}

// 0 for a word that passes, and for no other. Without their bits 7 the bytes leave room for sums that carry into no other.
// Bit 7 of b + 80, b + 70, b + 63 and b + 57 is set from '0', from ':', from 'A' and from 'G' on, so in one or three of them for a digit alone.
#[tactic(auto, using(std::proofs::lemmas::Nat::and_le_r))]
fn faults(w: u64) -> u64
    ensures { eqb result 0 ≡ passes w }
{
    let b = w & 0x7f7f_7f7f_7f7f_7f7f;
    let odd = (b + 0x5050_5050_5050_5050)
        ^ (b + 0x4646_4646_4646_4646)
        ^ (b + 0x3f3f_3f3f_3f3f_3f3f)
        ^ (b + 0x3939_3939_3939_3939);
    ((odd ^ 0x8080_8080_8080_8080) | w) & 0x8080_8080_8080_8080
}

// Whether whole words hold digits and nothing else. It reads all of s: a loop that never leaves early takes four words at a time.
fn words_pass(s: &[u8]) -> bool
    requires { length s.now % 8 ≡ 0 }
    ensures { result ≡ all_digits s.now }
{
    let mut mark = 0;
    for k in 0..s.len() / 8 {
        mark |= faults(words::word_at(s, 8 * k));
    }
    mark == 0
}

// The same, a byte at a time.
fn bytes_pass(s: &[u8]) -> bool
    ensures { result ≡ list_all is_digit s.now }
{
    s.iter().all(|b| is_digit(*b))
}

// Whether s holds digits and nothing else: eight at once, and singly the fewer than eight at its end.
pub fn all_digits(s: &[u8]) -> bool
    ensures { result ≡ all_digits s.now }
{
    let (words, rest) = s.split_at(s.len() / 8 * 8);
    words_pass(words) && bytes_pass(rest)
}

// What a digit stands for.
#[tactic(auto, using(std::proofs::lemmas::Bool::Decides::nat_tests), unfolding(crate::specs::Digit::is_digit, crate::specs::Digit::digit_value))]
pub fn digit_value(b: u8) -> u32
    requires { is_digit b ≡ true }
    ensures { (result ≡ digit_value b) × (result < 16) }
{
    let v = u32::from(b);
    v % 16 + 9 * (v / 64)
}

// The number that up to four digits write.
pub fn hex_value(s: &[u8]) -> u32
    requires { (length s.now ≤ 4) × (all_digits s.now ≡ true) }
    ensures { (result ≡ hex_value s.now) × (result < 65536) }
{
    let mut v = 0;
    for b in s {
        v = v * 16 + digit_value(*b);
    }
    v
}

// Four digits' number in two's complement.
#[tactic(auto, using(std::proofs::lemmas::Int::ints, std::proofs::lemmas::Bool::Decides::nat_tests), unfolding(crate::specs::Digit::signed16))]
pub fn signed_value(v: u32) -> i32
    requires { v < 65536 }
    ensures { result ≡ signed16 v }
{
    i32::from((v as u16).cast_signed())
}

// A sample as a number whose lowest eight digits are its two's complement. `word32` is 2^32 more than v: `cast_unsigned` gives v itself from 0 on.
#[tactic(auto, using(std::proofs::lemmas::Int::ints), unfolding(crate::specs::Digit::word32))]
pub fn word_of(v: i32) -> u64
    ensures { result ≡ word32 v }
{
    (i64::from(v) + 0x1_0000_0000) as u64
}

// Fills out with the lowest places of v to the base 16, still as numbers.
pub fn put_places(out: &mut [u8], v: u64)
    ensures { out.new ≡ places_of (length out.old) v }
{
    let mut rest = v;
    for n in (0..out.len()).rev() {
        out[n] = (rest % 16) as u8;
        rest /= 16;
    }
}

// The digit for a number below 16.
#[tactic(auto, using(std::proofs::lemmas::Bool::Decides::nat_tests), unfolding(crate::specs::Digit::digit_of))]
fn digit_of(v: u8) -> u8
    requires { v < 16 }
    ensures { result ≡ digit_of v }
{
    if v < 10 { b'0' + v } else { b'A' - 10 + v }
}

// Puts the digit for each number of out in its place. One run over all places of a text is cheaper than a digit at a time.
pub fn spell(out: &mut [u8])
    ensures { out.new ≡ map spelt out.old }
{
    for place in out.iter_mut() {
        *place = digit_of(*place % 16);
    }
}
