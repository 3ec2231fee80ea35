//! A reader and writer that fails.

ghost use Rattle.std.specs.Prelude.{◌≡◌, ◌≤◌, ◌<◌, ◌^◌, false, length};

use std::io;
use std::io::{Read, Write};

/// A reader of a text, or a writer, that moves one byte a call, and fails for good once `left`
/// calls are over. Each second call before that is interrupted.
#[derive(Drop)]
pub struct Failing<'a> {
    text: &'a [u8],
    left: usize,
    interrupted: bool,
    failed: bool,
    again: bool,
}

impl<'a> Failing<'a> {
    /// One that fails once so many calls are over.
    pub fn new(text: &'a str, left: usize) -> Failing<'a>
        ensures left { result.left ≡ left }
        ensures whole { (result.failed ≡ false) × (result.again ≡ false) }
    {
        Failing {
            text: text.as_bytes(),
            left,
            interrupted: false,
            failed: false,
            again: false,
        }
    }

    /// Whether it was called once more after it had failed.
    pub fn is_called_again(&self) -> bool
        ensures { result ≡ self.now.again }
    {
        self.again
    }

    fn turn(&mut self) -> io::Result<()> {
        self.again = self.failed;
        self.interrupted = !self.interrupted;
        if self.interrupted {
            return Err(io::Error::from(io::ErrorKind::Interrupted));
        }
        if self.left == 0 {
            self.failed = true;
            return Err(io::Error::from(io::ErrorKind::BrokenPipe));
        }
        self.left -= 1;
        Ok(())
    }
}

impl Read for Failing<'_> {
    fn read(&mut self, buf: &mut [u8]) -> io::Result<usize> {
        self.turn()?;
        let (Some(first), Some(place)) = (self.text.first(), buf.first_mut()) else {
            return Ok(0);
        };
        *place = *first;
        self.text = &self.text[1..];
        Ok(1)
    }
}

impl Write for Failing<'_> {
    fn write(&mut self, buf: &[u8]) -> io::Result<usize> {
        self.turn()?;
        Ok(buf.len().min(1))
    }

    fn flush(&mut self) -> io::Result<()> {
        Ok(())
    }
}
