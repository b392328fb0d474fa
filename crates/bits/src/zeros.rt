// What stands from an index on, written over.
ghost use Rattle.std.specs.Prelude.{◌≡◌};
ghost use Rattle.bits.specs.Clear.{filled};

// One value from an index on: zeros from a byte or a word on. For an index that may lie past the end, where a slice would not be. A loop and not `fill`,
// which was tried: it clones, and of the clone of any type that is Copy nothing is known.
pub fn fill_from<T: Copy>(s: &mut [T], from: usize, x: T)
    ensures { s.new ≡ filled from x s.old }
{
    for i in from..s.len() {
        s[i] = x;
    }
}
