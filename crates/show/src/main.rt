// Reads a grammar and a record from standard input and prints the record's rows, or why it is refused. A read error counts as the
// end of the input, and one byte more than the longest input is enough to tell that it is too long.
#![tactic(auto)]

ghost use Rattle.std.specs.Prelude.{◌≤◌, length};

use std::io;
use std::io::Read;
use text::Text;

// Reads until the buffer is full, the input ends or a read fails, and gives how many bytes it put at the start of the buffer.
fn read_full(rt: &HostRuntime, buffer: &mut [u8]) -> usize
    ensures { result ≤ length buffer.new }
{
    let mut input = rt.stdin();
    let mut len: usize = 0;
    while len < buffer.len() {
        let Ok(n) = input.read(&mut buffer[len..]) else {
            break;
        };
        if n == 0 {
            break;
        }
        len += n;
    }
    len
}

fn main(rt: HostRuntime) -> io::Result<()> {
    let mut input = [0u8; input::MOST_INPUT + 1];
    let mut text = Text::new();
    let len = read_full(&rt, &mut input);
    text::show(&input[..len], &mut text);
    rt.write_all(text.as_bytes())
}
