// Whether bytes are well-formed UTF-8 (RFC 3629), a character of one to four bytes at a time, by the RFC's own syntax.
ghost use Rattle.std.specs.Prelude.{◌≡◌, ◌<◌, length, Decides};
ghost use Rattle.util.specs.Utf8.{is_utf8};
ghost use Rattle.util.specs.Chars.{Two, Three, Four, CharAt};

// Row by row, and not by std's `from_utf8`: the must-fail edit surrogate_is_utf8 needs the row of ED. Each pattern is one
// alternative of the RFC's syntax. The three lengths are told apart by functions of their own, the shortest first: as one
// match over all rows, two-byte characters take three times as long.

#[tactic(auto, using(std::proofs::lemmas::Bool::Decides::nat_tests))]
fn is_two(bytes: &[u8]) -> bool
    ensures { Decides result (Two bytes.now) }
{
    matches!(bytes, [0xc2..=0xdf, 0x80..=0xbf, ..])
}

#[tactic(auto, using(std::proofs::lemmas::Bool::Decides::nat_tests))]
fn is_three(bytes: &[u8]) -> bool
    ensures { Decides result (Three bytes.now) }
{
    matches!(bytes, [0xe0, 0xa0..=0xbf, 0x80..=0xbf, ..])
        || matches!(bytes, [0xe1..=0xec, 0x80..=0xbf, 0x80..=0xbf, ..])
        || matches!(bytes, [0xed, 0x80..=0x9f, 0x80..=0xbf, ..])
        || matches!(bytes, [0xee..=0xef, 0x80..=0xbf, 0x80..=0xbf, ..])
}

#[tactic(auto, using(std::proofs::lemmas::Bool::Decides::nat_tests))]
fn is_four(bytes: &[u8]) -> bool
    ensures { Decides result (Four bytes.now) }
{
    matches!(bytes, [0xf0, 0x90..=0xbf, 0x80..=0xbf, 0x80..=0xbf, ..])
        || matches!(
            bytes,
            [0xf1..=0xf3, 0x80..=0xbf, 0x80..=0xbf, 0x80..=0xbf, ..]
        )
        || matches!(bytes, [0xf4, 0x80..=0x8f, 0x80..=0xbf, 0x80..=0xbf, ..])
}

// How many bytes the character at the front has, or None where none stands there. ASCII first: it is most of any text.
#[tactic(auto, using(crate::proofs::Chars::chars))]
fn char_len(bytes: &[u8]) -> Option<usize>
    requires { 0 < length bytes.now }
    ensures { CharAt bytes.now result }
{
    if bytes[0] < 0x80 {
        Some(1)
    } else if is_two(bytes) {
        Some(2)
    } else if is_three(bytes) {
        Some(3)
    } else if is_four(bytes) {
        Some(4)
    } else {
        None
    }
}

#[tactic(auto, using(crate::proofs::Chars::passed), unfolding(crate::specs::Utf8::is_utf8))]
pub fn is_utf8(bytes: &[u8]) -> bool
    ensures { result ≡ is_utf8 bytes.now }
{
    let mut i = 0;
    while i < bytes.len() {
        let Some(n) = char_len(&bytes[i..]) else {
            return false;
        };
        i += n;
    }
    true
}
