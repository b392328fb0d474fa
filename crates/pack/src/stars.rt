// Texts with `*` behind them, and names of them that may be missing.
ghost use Rattle.std.specs.Prelude.{replicate, refl, ◌≡◌};
ghost use Rattle.definition.specs.Text.{Text};
ghost use Rattle.definition.specs.Bits.{bits_of};
ghost use Rattle.definition.specs.Format.{text};
ghost use Rattle.laws.specs.Buf.{◌▷◌};
ghost use Rattle.bits.specs.Steps.{Step, Puts};
ghost use Rattle.pack.specs.Value.{given_by, starred, name_meaning};

use crate::value::Put;
use bits::Place;

// So many `*`. No fold for this and put_each of bits, which says why.
fn put_stars(out: &mut [u8], p: Place, stars: u32) -> Place
    ensures { Step out.old p (λ b. b ▷ bits_of (replicate stars 42)) out.new result }
{
    let mut q = p;
    for _ in 0..stars {
        q = bits::put(out, q, 8, 42);
    }
    q
}

// A text, and how many `*` stand behind it.
#[derive(Clone, Copy)]
pub struct Starred<'a> {
    pub text: &'a [u8],
    pub stars: u32,
}

impl<'a> Starred<'a> {
    // A text, where it is known how many `*` stand behind it.
    pub fn named(text: &'a [u8], stars: Option<u32>) -> Option<Starred<'a>>
        ensures { given_by starred result ≡ name_meaning text.now stars }
    {
        stars.map(|stars| Starred { text, stars })
    }

    pub fn put(self, out: &mut [u8], p: Place) -> Place
        ensures { Puts text (starred self.entry) out.old p out.new result }
    {
        // `as u64`: u64 has no From<usize>.
        let a = bits::put(out, p, 32, self.text.len() as u64 + u64::from(self.stars));
        let b = bits::pad(out, a);
        let c = bits::put_bytes(out, b, self.text);
        put_stars(out, c, self.stars)
    }
}

impl Put for Starred<'_> {
    ghost Meant = { Text };

    ghost format = { text };

    ghost means = { starred };

    ghost given = { given_by starred };

    ghost of_none = { refl };

    ghost of_some = { λ x. refl };

    fn put(self, out: &mut [u8], p: Place) -> Place {
        self.put(out, p)
    }
}
