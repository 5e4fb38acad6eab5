//! The lines of a reader, in bounded memory.
ghost use Rattle.std.specs.Prelude.{◌≡◌, IfOk};

use std::alloc::Global;
use std::io::{self, BufReader, Bytes, Read};

/// No step has a line of so many bytes.
const LIMIT: usize = 128;

/// Reads line by line.
#[derive(Drop)]
pub struct Lines<R> {
    bytes: Bytes<BufReader<R>>,
    is_over: bool,
    line: Vec<u8>,
}

impl<R: Read + Drop> Lines<R> {
    ghost use Rattle.dash_script.specs.inner.Lines.{left_of, line_in, ReadsLine};

    /// It takes memory for what is read ahead and for a line.
    pub fn new(alloc: Global, reader: R) -> io::Result<Lines<R>>
        ensures { IfOk result (λ lines. left_of R.remaining lines ≡ R.remaining reader) }
    {
        Ok(Lines {
            bytes: BufReader::new(alloc, reader)?.bytes(),
            is_over: false,
            line: Vec::with_capacity(alloc, LIMIT)?,
        })
    }

    /// Reads the next line, and says whether there is one. Of a line that is too long for a step it reads the first part.
    pub fn read(&mut self) -> io::Result<bool>
        ensures { IfOk result (λ more.
            ReadsLine (left_of R.remaining self.old) (left_of R.remaining self.new) more (line_in self.new)) }
    {
        self.line.clear();
        if self.is_over {
            return Ok(false);
        }
        while self.line.len() < LIMIT {
            let Some(byte) = self.bytes.next() else {
                self.is_over = true;
                return Ok(!self.line.is_empty());
            };
            let byte = byte?;
            if byte == b'\n' {
                return Ok(true);
            }
            self.line.push(byte)?;
        }
        Ok(true)
    }

    /// The line that was read, without its end.
    pub fn line(&self) -> &[u8]
        ensures { result.now ≡ line_in self.now }
    {
        self.line.as_slice()
    }
}
