// What a C host links to compare the parts with the Rust: each export is the function of probe of that name, with its contract. A crate is a library
// or a static library, so that each export stands here again. C takes numbers and pointers: a result is a parameter of its own.
#![tactic(auto)]

mod days; // rules and their days

ghost use Rattle.std.specs.Prelude.{◌≡◌, length};
ghost use Rattle.definition.specs.Base.{same, given};
ghost use Rattle.definition.specs.Text.{trim, is_utf8, unsigned_of, signed_of};
ghost use Rattle.definition.specs.Date.{date_of};
ghost use Rattle.definition.specs.Number.{number_of as number_text};
ghost use Rattle.definition.specs.Duration.{duration_of};
ghost use Rattle.definition.specs.Time.{time_of};
ghost use Rattle.definition.specs.Refusal.{tree_refusal};
ghost use Rattle.definition.specs.Pack.{decode};
ghost use Rattle.definition.specs.Answer.{day_number_of};
ghost use Rattle.probe.specs.Answer.{Whole, Signed, Minutes, Number, one};

pub use days::{probe_next, probe_rule, probe_week_day};

#[unsafe(no_mangle)]
pub extern "C" fn probe_u64(s: &[u8], out: &mut u64) -> u32
    ensures { Whole (unsigned_of 64 s.now) result out.new }
{
    probe::probe_u64(s, out)
}

#[unsafe(no_mangle)]
pub extern "C" fn probe_u32(s: &[u8], out: &mut u32) -> u32
    ensures { Whole (unsigned_of 32 s.now) result out.new }
{
    probe::probe_u32(s, out)
}

#[unsafe(no_mangle)]
pub extern "C" fn probe_u16(s: &[u8], out: &mut u16) -> u32
    ensures { Whole (unsigned_of 16 s.now) result out.new }
{
    probe::probe_u16(s, out)
}

#[unsafe(no_mangle)]
pub extern "C" fn probe_i64(s: &[u8], out: &mut i64) -> u32
    ensures { Signed (signed_of 64 s.now) result out.new }
{
    probe::probe_i64(s, out)
}

#[unsafe(no_mangle)]
pub extern "C" fn probe_i32(s: &[u8], out: &mut i32) -> u32
    ensures { Signed (signed_of 32 s.now) result out.new }
{
    probe::probe_i32(s, out)
}

// How long the trimmed text is.
#[unsafe(no_mangle)]
pub extern "C" fn probe_trim(s: &[u8]) -> usize
    ensures { result ≡ length (trim s.now) }
{
    probe::probe_trim(s)
}

// Whether the trimmed text is t.
#[unsafe(no_mangle)]
pub extern "C" fn probe_trimmed(s: &[u8], t: &[u8]) -> u32
    ensures { result ≡ one (same (trim s.now) t.now) }
{
    probe::probe_trimmed(s, t)
}

#[unsafe(no_mangle)]
pub extern "C" fn probe_utf8(s: &[u8]) -> u32
    ensures { result ≡ one (is_utf8 s.now) }
{
    probe::probe_utf8(s)
}

#[unsafe(no_mangle)]
pub extern "C" fn probe_date(s: &[u8], out: &mut i32) -> u32
    ensures { Signed (day_number_of (date_of s.now)) result out.new }
{
    probe::probe_date(s, out)
}

#[unsafe(no_mangle)]
pub extern "C" fn probe_time(s: &[u8], out: &mut u16) -> u32
    ensures { Whole (time_of s.now) result out.new }
{
    probe::probe_time(s, out)
}

#[unsafe(no_mangle)]
pub extern "C" fn probe_duration(s: &[u8], minutes: &mut u32, whole: &mut u32) -> u32
    ensures { Minutes (duration_of s.now) result minutes.new whole.new }
{
    probe::probe_duration(s, minutes, whole)
}

#[unsafe(no_mangle)]
pub extern "C" fn probe_number(s: &[u8], out: &mut f64) -> u32
    ensures { Number (number_text s.now) result out.new }
{
    probe::probe_number(s, out)
}

// The refusal of a tree, 0 for none.
#[unsafe(no_mangle)]
pub extern "C" fn probe_tree(s: &[u8]) -> u32
    ensures { result ≡ tree_refusal s.now }
{
    probe::probe_tree(s)
}

// Whether a model decodes.
#[unsafe(no_mangle)]
pub extern "C" fn probe_model(s: &[u8]) -> u32
    ensures { result ≡ one (given (decode s.now)) }
{
    probe::probe_model(s)
}
