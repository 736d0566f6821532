// Words and single bits: the one place where the two meet. Every function is total: past the last position `has` says no and `with_bit`
// changes nothing. What a bit of a result is, for all positions at once, is in proofs/.
#![tactic(auto)]

ghost use Rattle.std.specs.Prelude.{◌≡◌};
ghost use Rattle.bits.specs.Bit.{bit, without, with_bit, meets};

// The number of positions in a word.
pub const WORD_BITS: usize = 32;

// The bits of `a` that `b` has not.
pub fn without(a: u32, b: u32) -> u32
    ensures { result ≡ without a b }
{
    a & !b
}

// Is bit `j` of `w` set?
pub fn has(w: u32, j: usize) -> bool
    ensures { result ≡ bit j w }
{
    if j < WORD_BITS {
        (w >> j) % 2 == 1
    } else {
        false
    }
}

// `w`, with bit `j` set too if `b` is true.
pub fn with_bit(w: u32, j: usize, b: bool) -> u32
    ensures { result ≡ with_bit w j b }
{
    if j < WORD_BITS {
        if b { w | (1 << j) } else { w }
    } else {
        w
    }
}

// Do two words share a bit?
pub fn meets(a: u32, b: u32) -> bool
    ensures { result ≡ meets a b }
{
    a & b != 0
}
