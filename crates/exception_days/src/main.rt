// What a rule means: a packed tree whose root is an Exception on standard input, its days on standard output, an ISO date and its weekday
// a line, or the line `skipped`. On a tree that breaks the layout, is not UTF-8, has another root or more than 65,536 bytes: nothing.
#![tactic(auto)]

ghost use Rattle.std.specs.Prelude.{◌≡◌};
ghost use Rattle.exception_days.specs.Line.{digit_of, iso_of};

use definition::{Date, Refusal, Ymd};
use recurrence::Rule;
use std::io;
use std::io::{Cursor, Read};
use tree::Element;

const MOST: usize = 65536;

// The rest of a line after its date, by the weekday: whole, for one `write_all`. By `println!` of the weekday a rule of 5,000 days takes 1.3 times as long.
const WEEKDAYS: [&str; 7] = [
    " Monday\n",
    " Tuesday\n",
    " Wednesday\n",
    " Thursday\n",
    " Friday\n",
    " Saturday\n",
    " Sunday\n",
];

// number has one for its own texts, over 64 bits and private; this program does not stand on that crate.
fn digit(n: u32) -> u8
    ensures { result ≡ digit_of n }
{
    // Below 10.
    b'0' + (n % 10) as u8
}

// Byte by byte, so that a clause says all ten: of what `print!` writes by `{:04}-{:02}-{:02}` none would.
fn iso(y: u32, m: u32, d: u32) -> [u8; 10]
    ensures { result ≡ iso_of y m d }
{
    [
        digit(y / 1000),
        digit(y / 100),
        digit(y / 10),
        digit(y),
        b'-',
        digit(m / 10),
        digit(m),
        b'-',
        digit(d / 10),
        digit(d),
    ]
}

fn weekday_text(w: u32) -> &'static str {
    // There is no From from u32 to usize.
    WEEKDAYS[(w % 7) as usize]
}

fn put_ymd(rt: &impl Print, c: Ymd) -> io::Result<()> {
    if c.year < 0 {
        print!(rt; "-")?;
    }
    rt.write_all(&iso(c.year.unsigned_abs(), c.month, c.day))
}

fn put_day(rt: &impl Print, d: Date) -> io::Result<()> {
    if let Some(c) = date::ymd(d) {
        put_ymd(rt, c)?;
    }
    if let Some(w) = date::weekday(d) {
        rt.write_all(weekday_text(w).as_bytes())?;
    }
    Ok(())
}

fn put_days(rt: &impl Print, r: Rule) -> io::Result<()> {
    for d in recurrence::days(r) {
        put_day(rt, d)?;
    }
    Ok(())
}

fn put_tree(rt: &impl Print, s: &[u8]) -> io::Result<()> {
    if let Err(Refusal::Layout | Refusal::Utf8) = tree::judge(s) {
        return Ok(());
    }
    let root = Element { tree: s, at: 0 };
    if !root.name_is(b"Exception") {
        return Ok(());
    }
    match recurrence::rule_of(root) {
        Some(r) => put_days(rt, r),
        None => println!(rt; "skipped"),
    }
}

// One byte more than a tree may have. A read that fails ends the input; a write that fails ends the program, which says nothing of it.
// read_model's has the same reading: a program cannot lend it to a program.
fn main(rt: HostRuntime) {
    let mut room = Cursor::new([0u8; MOST + 1]);
    // `Take` asks for no read after the last byte that it lets by. What came before a read failed stands in the room.
    let _ = io::copy(&mut rt.reader().take(MOST as u64 + 1), &mut room);
    let Ok(n) = usize::try_from(room.position()) else {
        return;
    };
    if MOST < n {
        return;
    }
    if let Some(s) = room.get_ref().get(..n) {
        let _ = put_tree(&rt, s);
    }
}
