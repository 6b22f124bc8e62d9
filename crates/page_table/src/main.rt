// Writes code page 037, a line for each byte. The gate compares this with IBM's published table, which is the file stdout.
#![tactic(auto)]

use std::io;
use std::io::{BufWriter, Write};

fn main(rt: HostRuntime) -> io::Result<()> {
    let mut out = BufWriter::new(rt.alloc(), io::writer(&rt))?;
    for byte in 0..=255u8 {
        let character = codepage::ebcdic037_to_unicode(byte);
        writeln!(out, "{byte:02x} U+{character:04x}")?;
    }
    out.flush()
}
