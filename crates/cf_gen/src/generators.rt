//! The generator of a script, and the lines that it draws.

ghost use Rattle.std.specs.Prelude.{◌≡◌, ◌<◌, ◌+◌};
ghost use Rattle.cf_gen.specs.Scripts.{after, crash_line, drawn, put_line, read_line, size_line, write_line};

use crate::draws::{drawn, next};
use crate::lines::Line;
use cf_base::Key;

/// Where a generator stands: its state, and the first handle of the files that are open.
#[derive(Clone, Copy)]
pub struct Generator {
    pub state: u64,
    pub epoch: u32,
    pub first: u32,
}

impl Generator {
    /// Draws a number below `below`.
    pub fn draw(&mut self, below: u32) -> u32
        requires { 0 < below }
        ensures value { result ≡ drawn below (after 1 self.old.state) }
        ensures small { result < below }
        ensures after { self.new ≡ record self.old { state = after 1 self.old.state } }
    {
        self.state = next(self.state);
        drawn(self.state, below)
    }

    fn draw_byte(&mut self) -> u8
        ensures value { result ≡ 32 + drawn 64 (after 1 self.old.state) }
        ensures after { self.new ≡ record self.old { state = after 1 self.old.state } }
    {
        32 + self.draw(64) as u8
    }

    /// Draws a new version of a file.
    pub fn put(&mut self, file: u32) -> Line
        ensures line { result ≡ put_line file self.old.state }
        ensures after { self.new ≡ record self.old { state = after 2 self.old.state } }
    {
        let byte = self.draw_byte();
        let count = 1 + self.draw(20_000);
        Line::Put { file, byte, count }
    }

    /// Draws a read under a handle.
    pub fn read(&mut self, handle: Key) -> Line
        ensures line { result ≡ read_line handle self.old.state }
        ensures after { self.new ≡ record self.old { state = after 2 self.old.state } }
    {
        let offset = self.draw(20_000);
        let len = 1 + self.draw(8192);
        Line::Read {
            handle,
            offset,
            len,
        }
    }

    /// Draws a write under a handle.
    pub fn write(&mut self, handle: Key) -> Line
        ensures line { result ≡ write_line handle self.old.state }
        ensures after { self.new ≡ record self.old { state = after 3 self.old.state } }
    {
        let offset = self.draw(20_000);
        let byte = self.draw_byte();
        let count = 1 + self.draw(5000);
        Line::Write {
            handle,
            offset,
            byte,
            count,
        }
    }

    /// Draws a size of the file under a handle.
    pub fn size(&mut self, handle: Key) -> Line
        ensures line { result ≡ size_line handle self.old.state }
        ensures after { self.new ≡ record self.old { state = after 1 self.old.state } }
    {
        let size = self.draw(20_000);
        Line::Size { handle, size }
    }

    /// Draws a power cut.
    pub fn crash(&mut self) -> Line
        ensures line { result ≡ crash_line self.old.state }
        ensures after { self.new ≡ record self.old { state = after 1 self.old.state } }
    {
        let seed = self.draw(2_147_483_648);
        Line::Crash { seed }
    }
}
