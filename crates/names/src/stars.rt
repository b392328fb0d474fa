// Texts with `*` behind them. Text and number go side by side in names, and not as pack's Starred: the number is what is sought or answered, so that the
// struct would be made anew for each call.
// A number of stars is made a length by `as usize`, which has no From<u32>.
ghost use Rattle.std.specs.Prelude.{◌≡◌, get_or};
ghost use Rattle.definition.specs.Base.{same};
ghost use Rattle.pack.specs.Value.{starred_by};

// The byte at i of a text with `*` behind it.
fn byte_of(s: &[u8], i: usize) -> u8
    ensures { result ≡ get_or s.now i 42 }
{
    s.get(i).copied().unwrap_or(b'*')
}

// Whether two texts are the same, each with so many `*` behind it. No `==`: a text with `*` behind it is no slice.
pub(crate) fn same_starred(a: &[u8], m: u32, b: &[u8], n: u32) -> bool
    ensures { result ≡ same (starred_by a.now m) (starred_by b.now n) }
{
    let len = a.len() + m as usize;
    if len != b.len() + n as usize {
        return false;
    }
    (0..len).all(|i| byte_of(a, i) == byte_of(b, i))
}
