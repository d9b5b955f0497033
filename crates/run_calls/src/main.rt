// Reads a call file from standard input, makes its calls, and prints a line for each entry.
#![tactic(auto)]

ghost use Rattle.std.specs.Prelude.{◌≡◌, ◌≤◌, length, string_bytes, IfOk, OnOk};
ghost use Rattle.std.specs.Io.KnownBytes.{Appends, Keeps, append_known};
ghost use Rattle.std.specs.List.{concat};
ghost use Rattle.run_calls.specs.Run.{lines_of, printed};

mod entry;
mod line;
mod lookups;
mod state;

use entry::{Entry, Why};
use state::State;
use std::alloc::Global;
use std::io;
use std::io::{Read, Write};

// Octets of lines from which on they are written out, and room for the longest line after that.
const SPILL: usize = 65536;

const LINE: usize = 2048;

// Writes the lines out once they are many, so that a run keeps few of them.
fn spill<W: Write>(out: &mut W, text: &mut String) -> io::Result<()>
    ensures { OnOk result (Keeps (append_known (W.contents out.old) (string_bytes text.old))
        (append_known (W.contents out.new) (string_bytes text.new))) }
{
    if SPILL <= text.len() {
        out.write_all(text.as_bytes())?;
        text.clear();
    }
    Ok(())
}

// Writes the lines of a file, whose entries are taken in order.
fn run<W: Write>(alloc: Global, file: &[u8], out: &mut W) -> io::Result<()>
    ensures { OnOk result
        (Appends (W.contents out.old) (W.contents out.new) (concat (lines_of file.now))) }
{
    let mut state = State::fresh();
    let mut text = String::with_capacity(alloc, SPILL + LINE)?;
    let mut rest = file;
    let mut n = 0;
    // A while loop: each entry says where the next one begins, and one that cannot be read ends the
    // run, so no range or iterator is plainer.
    while !rest.is_empty() {
        let entry = match Entry::read(rest) {
            Ok(entry) => entry,
            Err(why) => {
                line::put_end(&mut text, file.len() - rest.len(), why)?;
                return out.write_all(text.as_bytes());
            }
        };
        let (taken, others) = rest.split_at(entry.len);
        state.take(entry.kind, &taken[Entry::HEAD..], n, &mut text)?;
        spill(out, &mut text)?;
        rest = others;
        n += 1;
    }
    out.write_all(text.as_bytes())
}

// Writes what is printed for a file; one that is too long is not read.
fn lines<W: Write>(alloc: Global, file: &[u8], out: &mut W) -> io::Result<()>
    ensures { OnOk result
        (Appends (W.contents out.old) (W.contents out.new) (concat (printed file.now))) }
{
    if Entry::FILE < file.len() {
        let mut text = String::new(alloc);
        line::put_end(&mut text, Entry::FILE, Why::Long)?;
        return out.write_all(text.as_bytes());
    }
    run(alloc, file, out)
}

// Reads until the buffer is full or the input ends, and gives the number of octets read.
// A loop: `read_to_end` asks for less at a time, so that of a socket that keeps packets the rest of
// one is lost, and what is printed may not change.
fn read_full(input: &mut impl Read, buffer: &mut [u8]) -> io::Result<usize>
    ensures { IfOk result (λ n. n ≤ length buffer.new) }
{
    let mut done = 0;
    while done < buffer.len() {
        let n = input.read(&mut buffer[done..])?;
        if n == 0 {
            break;
        }
        done += n;
    }
    Ok(done)
}

fn main(rt: HostRuntime) -> io::Result<()> {
    // One octet more than the longest file has, to tell a longer one.
    let mut file = vec![in rt.alloc(); 0; Entry::FILE + 1]?;
    let n = read_full(&mut rt.reader(), &mut file)?;
    lines(rt.alloc(), &file[..n], &mut io::writer(&rt))
}
