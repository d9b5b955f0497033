// Writes replies to questions for scale3 from tables of many addresses, and prints how many octets and answers each has and
// whether TC is set.
#![tactic(auto)]

use arrayvec::ArrayVec;
use message::{Asked, ReplyHead, ResourceRecord, replies};
use name_table::{Record, Table};
use std::io;
use std::io::Write;

// The entry of the name, and those of an AAAA and of an A record.
const NAME: [u8; 12] = *b"\x0c\x00\x01\x00\x06scale3\x00";

const AAAA: [u8; 20] =
    *b"\x14\x00\x04\x00\x20\x01\x0d\xb8\x00\x00\x00\x00\x00\x00\x00\x00\x00\x00\x00\x01";

const A: [u8; 8] = *b"\x08\x00\x03\x00\xc0\x00\x02\x11";

/// A table with scale3, so many AAAA records and, behind a mask, so many A records; and the type that is asked for.
#[derive(Clone, Copy)]
struct Case {
    aaaa: u8,
    a: u8,
    mask: u8,
    qtype: u16,
}

impl Case {
    // An ArrayVec: the table is short, and with no heap no memory can run out.
    fn table(self) -> io::Result<ArrayVec<u8, 512>> {
        let mut table = ArrayVec::new();
        table.write_all(&NAME)?;
        for _ in 0..self.aaaa {
            table.write_all(&AAAA)?;
        }
        table.write_all(&[5, 0, 6, 0, self.mask])?;
        for _ in 0..self.a {
            table.write_all(&A)?;
        }
        Ok(table)
    }

    fn question(self) -> [u8; 12] {
        let mut question = *b"\x06scale3\x00\x00\x00\x00\x00";
        octets::put_big(&mut question, 8, self.qtype);
        octets::put_big(&mut question, 10, ResourceRecord::IN);
        question
    }

    // Asks on interface 0, and prints what the reply has.
    fn print(self, rt: &impl Print) -> io::Result<()> {
        let table = self.table()?;
        let question = self.question();
        let head = ReplyHead {
            id: 0x1234,
            conflict: false,
            tentative: false,
        };
        let asked = Asked {
            qtype: self.qtype,
            interface: 0,
            table: &table,
            records: NAME.len(),
        };
        // An array: a reply has 512 octets at the most, and a Vec is no plainer.
        let mut out = [0; 512];
        let len = replies::write_reply(&mut out, 512, head, &question, asked);
        let Case { aaaa, a, mask, .. } = self;
        let masked = if mask == Table::EVERYWHERE {
            ""
        } else {
            " with a mask"
        };
        print!(rt; "{aaaa} AAAA {a} A{masked}: octets {len}")?;
        let Some(header) = message::read_header(octets::part(&out, 0, len)) else {
            return println!(rt; " no header");
        };
        let tc = if header.truncated { "set" } else { "clear" };
        println!(rt; " answers {} TC {tc}", header.answers)
    }
}

fn main(rt: HostRuntime) -> io::Result<()> {
    let all = Table::EVERYWHERE;
    for (aaaa, a, mask, qtype) in [
        (17, 0, all, Record::AAAA),
        (18, 0, all, Record::AAAA),
        (18, 3, all, Record::AAAA),
        (10, 13, all, ResourceRecord::ANY),
        (10, 14, all, ResourceRecord::ANY),
        (10, 14, all, Record::AAAA),
        (0, 5, all, Record::AAAA),
        (17, 1, 2, ResourceRecord::ANY),
        (17, 1, 3, ResourceRecord::ANY),
        (18, 1, 2, ResourceRecord::ANY),
    ] {
        let case = Case {
            aaaa,
            a,
            mask,
            qtype,
        };
        case.print(&rt)?;
    }
    Ok(())
}
