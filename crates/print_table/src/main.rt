// Prints the name table that is read from standard input: the number of names, then a line for each name with its number, kind,
// octets and records; or the refusal of a bad table.
#![tactic(auto)]

ghost use Rattle.std.specs.Prelude.{◌≤◌, length, IfOk};

use name_table::{Kind, Table, resources};
use refusal::Refusal;
use std::io;
use std::io::Read;

// The word for a name's kind, with the space after it.
// No Display: only two of the six kinds are ever printed, so it would be no plainer.
fn word(kind: Kind) -> &'static str {
    match kind {
        Kind::Unique => "unique ",
        Kind::Shared => "shared ",
        _ => "",
    }
}

fn print_names(rt: &impl Print, octets: &[u8], table: &Table) -> io::Result<()> {
    println!(rt; "names {}", table.len())?;
    for k in 0..table.len() {
        if let Some(name) = table.name(k) {
            let word = word(name.kind);
            let len = octets::part(octets, name.start, name.end).len();
            let records = resources::count_records(octets, name.end);
            println!(rt; "{k} {word}{len} {records}")?;
        }
    }
    Ok(())
}

fn print(rt: &impl Print, octets: &[u8]) -> io::Result<()> {
    match Table::read(octets) {
        Ok(table) => print_names(rt, octets, &table),
        Err(bad) => {
            let refusal = Refusal::from(bad);
            println!(rt; "refused {} at {}", refusal.number(), bad.at)
        }
    }
}

// Reads until the buffer is full or the input ends, and gives the number of octets read.
// As that of run_calls, and for its reason; a crate for both programs is no plainer.
fn read_full(input: &mut impl Read, buffer: &mut [u8]) -> io::Result<usize>
    ensures { IfOk result (λ n. n ≤ length buffer.new) }
{
    let mut done = 0;
    while done < buffer.len() {
        let n = input.read(&mut buffer[done..])?;
        if n == 0 {
            break;
        }
        done += n;
    }
    Ok(done)
}

// An array: a table is short. A Vec needs a heap, and std's copy into a vector of fixed capacity
// more stack; this way no memory runs out, and either is no plainer.
fn main(rt: HostRuntime) -> io::Result<()> {
    // One octet more than the longest table has, to tell a longer one.
    let mut octets = [0; Table::OCTETS + 1];
    let n = read_full(&mut rt.reader(), &mut octets)?;
    print(&rt, &octets[..n])
}
