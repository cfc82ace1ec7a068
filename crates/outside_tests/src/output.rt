//! Standard output.
use rsfq_outside::{StdoutSink, write_all_to};
use std::cell::Cell;
use std::fmt::Display;
use std::io;
use std::test::Fail;

// A terminal that takes one byte of each piece, and counts them.
#[derive(Drop)]
struct SlowTerminal {
    taken: Cell<u64>,
}

impl Print for SlowTerminal {
    fn print<D: Display + Drop>(&self, _value: D) -> io::Result<()> {
        Ok(())
    }

    fn println<D: Display + Drop>(&self, _value: D) -> io::Result<()> {
        Ok(())
    }

    fn write_all(&self, _bytes: &[u8]) -> io::Result<()> {
        Ok(())
    }

    fn write_some(&self, bytes: &[u8]) -> io::Result<usize> {
        let count = bytes.len().min(1);
        self.taken
            .set(self.taken.get().saturating_add(count as u64));
        Ok(count)
    }
}

#[test]
fn stdout_sink_writes(rt: HostRuntime) -> Result<(), Fail> {
    let mut sink = StdoutSink::new(&rt);
    write_all_to(&mut sink, b"a line of standard output\n")?;
    write_all_to(&mut sink, b"")?;
    let slow = SlowTerminal {
        taken: Cell::new(0),
    };
    write_all_to(&mut StdoutSink::new(&slow), b"four")?;
    assert_eq!(rt; slow.taken.get(), 4);
    Ok(())
}
