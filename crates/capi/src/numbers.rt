// Numbers and parts as bytes, numbers with the least significant byte first.
ghost use Rattle.std.specs.Prelude.{◌≡◌, ◌+◌, ◌*◌, ◌≤◌, length};
ghost use Rattle.bits.specs.Front.{Wrote};
ghost use Rattle.capi.specs.Bytes.{numbers_bytes, part, number_at};

// Eight bytes for each number.
pub(crate) fn put_numbers(numbers: &[u64], out: &mut [u8]) -> usize
    requires { 8 * length numbers.now ≤ length out.old }
    ensures { Wrote (numbers_bytes numbers.now) out.old out.new result }
{
    let mut at = 0;
    for n in numbers {
        at += bits::put_all(&n.to_le_bytes(), &mut out[at..]);
    }
    at
}

// A copy of the bytes at an offset.
pub(crate) fn part_at<const N: usize>(bytes: &[u8], at: usize) -> [u8; N]
    requires { at + N ≤ length bytes.now }
    ensures { result ≡ part at N bytes.now }
{
    let mut part = [0; N];
    part.copy_from_slice(&bytes[at..at + N]);
    part
}

pub(crate) fn eight_at(bytes: &[u8], at: usize) -> usize
    requires { at + 8 ≤ length bytes.now }
    ensures { result ≡ number_at at 8 bytes.now }
{
    usize::from_le_bytes(part_at(bytes, at))
}

pub(crate) fn four_at(bytes: &[u8], at: usize) -> u32
    requires { at + 4 ≤ length bytes.now }
    ensures { result ≡ number_at at 4 bytes.now }
{
    u32::from_le_bytes(part_at(bytes, at))
}
