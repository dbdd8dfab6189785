// Plays the script on standard input, and writes one line for each of its lines.
#![tactic(auto)]

ghost use Rattle.std.specs.Prelude.{◌≡◌, [], IfOk};

use script_state::Session;
use std::io;
use std::io::{Read, Write};
use text::Text;

// The session, the text that is to be written, and the line that is read; of one that is too long, over 8,192 bytes, the first 8,193.
#[derive(Drop)]
struct Player {
    session: Session,
    out: Text<262144>,
    line: Text<8193>,
}

impl Player {
    fn new() -> Player {
        Player {
            session: Session::new(),
            out: Text::new(),
            line: Text::new(),
        }
    }

    // The text is written.
    fn flush<W: Write>(&mut self, output: &mut W) -> io::Result<()>
        ensures { IfOk result (λ _. self.new.out ≡ []) }
    {
        output.write_all(self.out.as_slice())?;
        self.out.clear();
        Ok(())
    }

    // A line ends; one that is too long is no command.
    fn end_line<W: Write>(&mut self, output: &mut W) -> io::Result<()> {
        // There is room for an answer.
        if 100000 < self.out.len() {
            self.flush(output)?;
        }
        if 8192 < self.line.len() {
            self.out.put(b"error\n");
        } else {
            script_play::play(&mut self.session, self.line.as_slice(), &mut self.out);
        }
        self.line.clear();
        Ok(())
    }

    // One byte of input.
    fn take<W: Write>(&mut self, output: &mut W, b: u8) -> io::Result<()> {
        if b == b'\n' {
            return self.end_line(output);
        }
        if self.line.len() < 8193 {
            self.line.push(b);
        }
        Ok(())
    }

    // A block of input; what it answers is written.
    fn feed<W: Write>(&mut self, output: &mut W, input: &[u8]) -> io::Result<()> {
        for b in input {
            self.take(output, *b)?;
        }
        self.flush(output)
    }

    // A last line without a line feed is a line, if it has any byte.
    fn finish<W: Write>(&mut self, output: &mut W) -> io::Result<()> {
        if 0 < self.line.len() {
            self.end_line(output)?;
        }
        self.flush(output)
    }
}

// A proved loop ends: it has more turns than any input has blocks.
fn run<R: Read, W: Write>(reader: &mut R, output: &mut W) -> io::Result<()> {
    let mut player = Player::new();
    let mut input = [0; 4096];
    for _ in 0..u64::MAX {
        let n = reader.read(&mut input)?;
        if n == 0 {
            break;
        }
        player.feed(output, &input[..n])?;
    }
    player.finish(output)
}

fn main(rt: HostRuntime) -> io::Result<()> {
    run(&mut rt.stdin(), &mut rt.stdout())
}
