// Bytes at the front of a lent buffer, and the byte at an index.
#![tactic(auto)]

ghost use Rattle.std.specs.Prelude.{◌≡◌};
ghost use Rattle.bits.specs.Bits.{byte};
ghost use Rattle.bits.specs.Front.{Put};

// A writer writes all of its bytes and returns how many they are, or, where the buffer has no room for them, writes nothing and
// returns 0: the count of bytes written is what the clause `Put` promises in both cases.

pub fn put<const N: usize>(bytes: [u8; N], out: &mut [u8]) -> usize
    ensures { Put bytes.entry out.old out.new result }
{
    put_all(&bytes, out)
}

// Byte by byte: `copy_from_slice` between two lent slices would have the archive for C need `memmove` from outside.
pub fn put_all(bytes: &[u8], out: &mut [u8]) -> usize
    ensures { Put bytes.now out.old out.new result }
{
    if out.len() < bytes.len() {
        return 0;
    }
    for (i, b) in bytes.iter().enumerate() {
        out[i] = *b;
    }
    bytes.len()
}

// The byte at an index, and 0 past the end, as the clause has it: document 01 counts bytes that are not there as 0.
pub fn byte_at(bytes: &[u8], i: usize) -> u8
    ensures { result ≡ byte i bytes.now }
{
    bytes.get(i).copied().unwrap_or(0)
}
