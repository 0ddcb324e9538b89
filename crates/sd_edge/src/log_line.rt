ghost use Rattle.std.specs.Prelude.{◌≡◌, ◌≤◌, [], length};
ghost use Rattle.sd_edge.specs.LogLines.{closed, ended, has_space, plain, with_byte, with_bytes, with_pair, with_value};

use arrayvec::ArrayVec;

/// How many bytes a line of the log has at most, without the quote that its last value may still need and its newline.
const MOST_TEXT: usize = 1_022;

/// A line of a log that is being made: words, and keys with their values. All its bytes are printable: another one is shown as a
/// question mark. A value with a space stands in quotes. A value that is too long is cut, and a pair for which there is no room
/// is left out.
#[derive(Clone, Debug, Drop)]
pub struct LogLine {
    pub text: ArrayVec<u8, 1024>,
}

/// A byte that is printable.
fn plain(byte: u8) -> u8
    ensures { result ≡ plain byte }
{
    if byte >= 32 && byte <= 126 {
        byte
    } else {
        b'?'
    }
}

/// Whether a value has a space.
fn has_space(value: &[u8]) -> bool
    ensures { result ≡ has_space value.now }
{
    value.contains(&b' ')
}

impl LogLine {
    /// An empty one.
    pub fn new() -> LogLine
        ensures { result.text.items ≡ [] }
    {
        LogLine {
            text: ArrayVec::new(),
        }
    }

    /// Appends a byte, where there is room.
    fn push(&mut self, byte: u8)
        ensures { self.new.text.items ≡ with_byte self.old.text.items byte }
    {
        if self.text.len() < MOST_TEXT {
            self.text.push(plain(byte));
        }
    }

    /// Appends bytes, as far as there is room.
    pub fn push_bytes(&mut self, bytes: &[u8])
        ensures { self.new.text.items ≡ with_bytes self.old.text.items bytes.now }
    {
        for &byte in bytes {
            self.push(byte);
        }
    }

    /// Ends a value that stands in quotes.
    fn close(&mut self)
        ensures { self.new.text.items ≡ closed self.old.text.items }
    {
        let _ = self.text.try_push(b'"');
    }

    /// Appends a value.
    fn push_value(&mut self, value: &[u8])
        ensures { self.new.text.items ≡ with_value self.old.text.items value.now }
    {
        if has_space(value) {
            self.push(b'"');
            self.push_bytes(value);
            self.close();
        } else {
            self.push_bytes(value);
        }
    }

    /// Appends a key with its value, where there is room for the key and two quotes.
    pub fn push_pair(&mut self, key: &[u8], value: &[u8])
        ensures { self.new.text.items ≡ with_pair self.old.text.items key.now value.now }
    {
        if self.text.len() + key.len().min(MOST_TEXT) + 4 > MOST_TEXT {
            return;
        }
        self.push(b' ');
        self.push_bytes(key);
        self.push(b'=');
        self.push_value(value);
    }

    /// Ends the line.
    pub fn end(&mut self)
        ensures { self.new.text.items ≡ ended self.old.text.items }
    {
        let _ = self.text.try_push(b'\n');
    }
}
