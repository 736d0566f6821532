// Numbers in bytes, the high byte first: read from a slice, and put into a part that is lent.
ghost use Rattle.std.specs.Prelude.{◌≡◌, ◌+◌, ◌*◌, ◌/◌, ◌%◌, ◌^◌, ◌<◌, length, slice_index};
ghost use Rattle.bits.specs.Bit.{word_bits};
ghost use Rattle.cycle.specs.Each.{table};
ghost use Rattle.feed.specs.Bytes.{two, four, in_two, in_four, put_over};
ghost use Rattle.feed.specs.Inside.LowFirst.{low_four, turned};

use std::array;

// The two bytes from `i` on as a number whose low byte is the first.
pub(crate) fn low_two_at(s: &[u8], i: usize) -> u16
    requires { i + 1 < length s.now }
    ensures { (result % 256 ≡ slice_index s.now i) × (result / 256 ≡ slice_index s.now (i + 1)) × (result < 65536) }
{
    u16::from_le_bytes([s[i], s[i + 1]])
}

// The number in the two bytes from `i` on.
pub(crate) fn two_at(s: &[u8], i: usize) -> u16
    requires { i + 1 < length s.now }
    ensures { result ≡ two s.now i }
{
    u16::from_be_bytes([s[i], s[i + 1]])
}

// The two numbers of two bytes each from `i` on, as one number: the first is its high half.
pub(crate) fn pair_at(s: &[u8], i: usize) -> u32
    requires { i + 3 < length s.now }
    ensures result_value { (result / 65536 ≡ two s.now i) × (result < 4294967296) }
    ensures result_value_2 { result % 65536 ≡ slice_index s.now (i + 2) * 256 + slice_index s.now (i + 3) }
{
    four_at(s, i)
}

// The number in the four bytes from `i` on.
pub(crate) fn four_at(s: &[u8], i: usize) -> u32
    requires { i + 3 < length s.now }
    ensures { result ≡ four s.now i }
{
    u32::from_be_bytes([s[i], s[i + 1], s[i + 2], s[i + 3]])
}

// The byte at `k`; past the end it is 0.
fn byte_at(s: &[u8], k: usize) -> u8
    ensures { result ≡ slice_index s.now k }
{
    s.get(k).copied().unwrap_or(0)
}

// The N bytes from `i` on; bytes past the end are 0.
fn bytes_from<const N: usize>(s: &[u8], i: usize) -> [u8; N]
    ensures { result ≡ table N (λ k. slice_index s.now (i + k)) }
{
    let rest = s.get(i..).unwrap_or(&[]);
    array::from_fn(|k| byte_at(rest, k))
}

// The same numbers of any slice: bytes past its end are 0.
pub fn read_two(s: &[u8], i: usize) -> u16
    ensures { result ≡ two s.now i }
{
    u16::from_be_bytes(bytes_from(s, i))
}

pub fn read_four(s: &[u8], i: usize) -> u32
    ensures { result ≡ four s.now i }
{
    u32::from_be_bytes(bytes_from(s, i))
}

// A number with its bytes in the other order.
pub(crate) fn turned32(x: u32) -> u32
    ensures result_value { low_four result ≡ in_four x }
    ensures value { (result ≡ turned x) × (x < 2 ^ word_bits) }
{
    x.swap_bytes()
}

// Bytes over a part that is as long; a part of any other length keeps its own.
fn put_bytes<const N: usize>(s: &mut [u8], bytes: &[u8; N])
    ensures { s.new ≡ put_over bytes.now s.old }
{
    if s.len() == N {
        s.copy_from_slice(bytes);
    }
}

// The number's two bytes, over a part of two; a part of any other length keeps its bytes.
pub fn put_two(s: &mut [u8], x: u16)
    ensures { s.new ≡ put_over (in_two x) s.old }
{
    put_bytes(s, &x.to_be_bytes());
}

// The number's four bytes, over a part of four.
pub fn put_four(s: &mut [u8], x: u32)
    ensures { s.new ≡ put_over (in_four x) s.old }
{
    put_bytes(s, &x.to_be_bytes());
}
