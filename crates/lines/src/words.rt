// The words of a line, and the numbers and bytes that they stand for.
ghost use Rattle.std.specs.Prelude.{◌≡◌, ◌≤◌, [], length, slice_get, ◌==◌, IfSome};
ghost use Rattle.std.specs.List.{slice_split};
ghost use Rattle.std.specs.Option.{option_map, unwrap_or};
ghost use Rattle.lines.specs.Words as meaning;

// Whether a line holds nothing to answer.
pub fn is_comment(line: &[u8]) -> bool
    ensures { result ≡ meaning.is_comment line.now }
{
    matches!(line, [] | [b'#', ..])
}

// A word, counted from 0, where words are what stands between spaces. A text without it gives the empty one.
pub fn word(text: &[u8], n: usize) -> &[u8]
    ensures { result.now ≡ unwrap_or (slice_get (slice_split (λ b. b == 32) text.now) n) [] }
{
    text.split(|b| *b == b' ').nth(n).unwrap_or(b"")
}

// The number that a digit stands for. Upper-case letters are none.
fn digit(b: u8) -> Option<u8>
    ensures { result ≡ meaning.hex_digit b }
{
    match b {
        b'0'..=b'9' => Some(b - b'0'),
        b'a'..=b'f' => Some(b - b'a' + 10),
        _ => None,
    }
}

// A decimal number, up to the largest usize.
pub fn large_number(word: &[u8]) -> Option<usize>
    ensures { result ≡ meaning.decimal_number word.now }
{
    if word.is_empty() {
        return None;
    }
    let mut n: usize = 0;
    for b in word {
        let ones = digit(*b).filter(|d| *d < 10)?;
        n = n.checked_mul(10)?.checked_add(usize::from(ones))?;
    }
    Some(n)
}

// The least number of eight digits.
const TOO_LARGE: usize = 10_000_000;

// A decimal number of at most seven digits, zeros in front aside.
pub fn number(word: &[u8]) -> Option<usize>
    ensures { result ≡ meaning.below_eight_digits (meaning.decimal_number word.now) }
{
    large_number(word).filter(|n| *n < TOO_LARGE)
}

// The bytes of a word, at the front of the room: two lower-case hex digits each, and - for no bytes. The empty word stands for
// nothing, nor does one that is no hex or has more bytes than the room. How many bytes there are is promised, their values not:
// over a `zip` with a mutable slice, what the loop keeps are the bytes that are left, and not those that were written.
pub fn unhex<'a>(word: &[u8], room: &'a mut [u8]) -> Option<&'a [u8]>
    ensures fits { IfSome result (λ bytes. length bytes.now ≤ length room.old) }
    ensures count { option_map (λ bytes. length bytes.now) result ≡ meaning.byte_count (length room.old) word.now }
{
    if word == b"-".as_slice() {
        return Some(&room[..0]);
    }
    if word.is_empty() || word.len() % 2 == 1 {
        return None;
    }
    let bytes = room.get_mut(..word.len() / 2)?;
    for (byte, pair) in bytes.iter_mut().zip(word.chunks_exact(2)) {
        *byte = digit(pair[0])? * 16 + digit(pair[1])?;
    }
    Some(bytes)
}
