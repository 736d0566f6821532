// The parts of a record: values that are put as bytes, and several of a kind one behind the other.
ghost use Rattle.std.specs.Prelude.{◌≡◌, ℕ, ◌*◌, List, length, flat_map};

// A value with its bytes, of which each value of the type has as many.
pub(crate) trait Part {
    ghost LENGTH: { ℕ };

    ghost bytes: { Self → List ℕ };

    const LENGTH: usize;

    fn put(self, b: &mut [u8])
        requires { length b.old ≡ LENGTH }
        ensures { b.new ≡ bytes self };
}

// Each into its place.
pub(crate) fn put_each<P: Part + Copy>(b: &mut [u8], each: &[P])
    requires { length b.old ≡ P.LENGTH * length each.now }
    ensures { b.new ≡ flat_map P.bytes each.now }
{
    for (i, part) in each.iter().enumerate() {
        let at = P::LENGTH * i;
        part.put(&mut b[at..at + P::LENGTH]);
    }
}
