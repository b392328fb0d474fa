// A packed tree on standard input, its model on standard output, 65,536 bytes at most each way; nothing on a refusal or a longer input.
#![tactic(auto)]

ghost use Rattle.std.specs.Prelude.{◌≡◌};
ghost use Rattle.io.specs.Counts.{IsPrefixLen};
ghost use Rattle.read_model.specs.Writes.{Writes};

use std::io;
use std::io::{Cursor, Read};

const MOST: usize = 65536;

// The model of a tree, at the front of the room, and how many bytes of it are written.
fn model_of(tree: &[u8], room: &mut [u8]) -> usize
    ensures prefix_len { IsPrefixLen result room.new }
    ensures writes { Writes tree.now room.old room.new result }
{
    if MOST < tree.len() {
        return 0;
    }
    let mut work = [0u32; 16384];
    read::read(tree, room, &mut work).unwrap_or(0)
}

fn put_model(rt: &impl Print, tree: &[u8]) -> io::Result<()> {
    let mut room = [0u8; MOST];
    let n = model_of(tree, &mut room);
    rt.write_all(&room[..n])
}

// One byte more than a tree may have. A read that fails ends the input; a write that fails ends the program, which says nothing of it.
// exception_days' has the same reading: a program cannot lend it to a program.
fn main(rt: HostRuntime) {
    let mut room = Cursor::new([0u8; MOST + 1]);
    // `Take` asks for no read after the last byte that it lets by. What came before a read failed stands in the room.
    let _ = io::copy(&mut rt.reader().take(MOST as u64 + 1), &mut room);
    let Ok(n) = usize::try_from(room.position()) else {
        return;
    };
    if let Some(tree) = room.get_ref().get(..n) {
        let _ = put_model(&rt, tree);
    }
}
