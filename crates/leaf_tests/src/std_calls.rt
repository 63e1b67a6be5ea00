// Readers and writers of the standard library whose calls fail: each call of an adapter is one call of theirs.
use std::io;
use std::io::{ErrorKind, Read, Write};
use std::test::Fail;
use test_asserts::equal_at;
use text_lines::{ByteIn, ByteOut, CallFailed, StdIn, StdOut};

/// How its calls are answered, one after another: by how many bytes, or by a failure. Those behind them fail, too.
const ANSWERS: [Option<usize>; 6] = [None, Some(2), None, Some(0), None, Some(3)];

const FAILURES: [ErrorKind; 3] = [
    ErrorKind::Interrupted,
    ErrorKind::WouldBlock,
    ErrorKind::Other,
];

/// A reader and a writer that answer so, fail in this way, and count their calls.
#[derive(Drop)]
struct Answering {
    failure: ErrorKind,
    calls: usize,
}

impl Answering {
    fn turn(&mut self, len: usize) -> io::Result<usize> {
        let answer = ANSWERS.get(self.calls).copied().flatten();
        self.calls = self.calls.saturating_add(1);
        match answer {
            Some(count) => Ok(count.min(len)),
            None => Err(io::Error::from(self.failure)),
        }
    }
}

impl Read for Answering {
    fn read(&mut self, buf: &mut [u8]) -> io::Result<usize> {
        let count = self.turn(buf.len())?.min(buf.len());
        buf[..count].fill(b'a');
        Ok(count)
    }
}

impl Write for Answering {
    fn write(&mut self, buf: &[u8]) -> io::Result<usize> {
        Ok(self.turn(buf.len())?.min(buf.len()))
    }

    fn flush(&mut self) -> io::Result<()> {
        Ok(())
    }
}

#[test]
fn a_read_is_one_call_of_a_reader_of_std() -> Result<(), Fail> {
    for failure in FAILURES {
        let mut reader = StdIn::new(Answering { failure, calls: 0 });
        let mut into = [0u8; 8];
        // What is answered, and how many calls were made and failed by then.
        for wanted in [
            (Err(CallFailed), 1, 1),
            (Ok(2), 2, 1),
            (Err(CallFailed), 3, 2),
            (Ok(0), 4, 2),
            (Err(CallFailed), 5, 3),
            (Ok(3), 6, 3),
        ] {
            let got = reader.read(&mut into);
            equal_at(
                &failure,
                &(got, reader.reader.calls, reader.failed),
                &wanted,
            )?;
        }
    }
    Ok(())
}

#[test]
fn a_write_is_one_call_of_a_writer_of_std() -> Result<(), Fail> {
    for failure in FAILURES {
        let mut writer = StdOut::new(Answering { failure, calls: 0 });
        // What is answered, and how many calls were made and failed by then; one that takes no byte failed.
        for wanted in [
            (Err(CallFailed), 1, 1),
            (Ok(2), 2, 1),
            (Err(CallFailed), 3, 2),
            (Err(CallFailed), 4, 3),
            (Err(CallFailed), 5, 4),
            (Ok(3), 6, 4),
        ] {
            let got = writer.write(b"8 bytes.");
            equal_at(
                &failure,
                &(got, writer.writer.calls, writer.failed),
                &wanted,
            )?;
        }
    }
    Ok(())
}
