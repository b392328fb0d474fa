// What proofs know of a tree.
ghost use Rattle.std.specs.Prelude.{◌^◌, ◌<◌, length};
ghost use Rattle.laws.specs.Bits.{Bytes};

// A tree is bytes, fewer than 2 ^ 63. Proofs know it of a slice that is passed, not of one in a struct: this says it of that.
pub fn are_bytes(tree: &[u8])
    ensures bytes { Bytes tree.now }
    ensures few { length tree.now < 2 ^ 63 }
{}
