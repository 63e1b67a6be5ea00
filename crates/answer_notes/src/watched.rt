// A reader and a writer that let another look on. What they give and take is what they would give and take alone.
use std::cell::RefCell;
use text_lines::{ByteIn, ByteOut, CallFailed};

/// One who looks on while an input is read and its output is written.
pub trait Watcher {
    /// These bytes were read next; none where the input has ended.
    fn read(&mut self, bytes: &[u8]);

    /// These bytes were written next.
    fn written(&mut self, bytes: &[u8]);
}

/// A source that gives what the reader gives, and lets a watcher look on.
pub struct WatchedIn<'a, R, O> {
    /// The reader.
    pub reader: &'a mut R,
    /// Who looks on. While it is in use elsewhere it sees nothing.
    pub watcher: &'a RefCell<O>,
}

impl<R: ByteIn, O: Watcher> ByteIn for WatchedIn<'_, R, O> {
    ghost left = { λ s. R.left s.reader.now };

    ghost failed_calls = { λ s. R.failed_calls s.reader.now };

    ghost place = { λ s. R.place s.reader.now };

    fn read(&mut self, into: &mut [u8]) -> Result<usize, CallFailed> {
        match self.reader.read(into) {
            Err(failed) => Err(failed),
            Ok(count) => {
                if let Ok(mut watcher) = self.watcher.try_borrow_mut() {
                    watcher.read(&into[..count]);
                }
                Ok(count)
            }
        }
    }
}

/// A sink that hands on what it takes to the writer, and lets a watcher look on.
pub struct WatchedOut<'a, W, O> {
    /// The writer.
    pub writer: &'a mut W,
    /// Who looks on. While it is in use elsewhere it sees nothing.
    pub watcher: &'a RefCell<O>,
}

impl<W: ByteOut, O: Watcher> ByteOut for WatchedOut<'_, W, O> {
    ghost taken = { λ s. W.taken s.writer.now };

    ghost failed_calls = { λ s. W.failed_calls s.writer.now };

    fn write(&mut self, bytes: &[u8]) -> Result<usize, CallFailed> {
        match self.writer.write(bytes) {
            Err(failed) => Err(failed),
            Ok(count) => {
                if let Ok(mut watcher) = self.watcher.try_borrow_mut() {
                    watcher.written(&bytes[..count]);
                }
                Ok(count)
            }
        }
    }
}
