//! A writer of JSON tokens over a borrowed sink.

ghost use Rattle.std.specs.Prelude.{◌≡◌, ◌≤◌, ◌∷◌, ◌++◌, [], true, false, cond, decimal, length};
ghost use Rattle.std.specs.Prelude.{OnOk, OnErr};
ghost use Rattle.json.specs.Token as Token;
ghost use Rattle.json.specs.Print.{escape, quoted};
ghost use Rattle.mbdc_io.specs.Hex.{upper_hex};
ghost use Rattle.mbdc_decode.specs.Writing.{Added, Sent};

use crate::tokens::plain::{KEY_ROOM, SHORT, escaped, is_plain, word_of, write_key};
use mbdc_io::{IoFault, Sink, put_hex, put_number};

/// Writes JSON tokens (RFC 8259) to a sink, with the commas and colons between them. The nesting is
/// the caller's.
///
/// After a put that failed nothing more is put, and [`outcome`](TokenWriter::outcome) returns the
/// fault.
#[derive(Drop)]
pub struct TokenWriter<'a, W: Sink> {
    /// The sink.
    pub out: &'a mut W,
    /// Whether the last token ended a value.
    pub after_value: bool,
    /// Whether a put has failed.
    pub is_stopped: bool,
}

impl<'a, W: Sink> TokenWriter<'a, W> {
    /// Returns a writer over the sink.
    pub fn new(out: &'a mut W) -> TokenWriter<'a, W>
        ensures same_reference { result.out.ghost_name ≡ out.entry.ghost_name }
        ensures sink { result.out.now ≡ out.old }
        ensures begins { result.after_value ≡ false }
        ensures well { result.is_stopped ≡ false }
    {
        TokenWriter {
            out,
            after_value: false,
            is_stopped: false,
        }
    }

    /// Returns whether every put succeeded.
    pub fn outcome(&self) -> Result<(), IoFault>
        ensures ok { OnOk result (self.now.is_stopped ≡ false) }
        ensures err { OnErr result (self.now.is_stopped ≡ true) }
    {
        if self.is_stopped {
            Err(IoFault)
        } else {
            Ok(())
        }
    }

    // Puts bytes, unless a put has failed.
    #[inline(always)]
    fn put(&mut self, bytes: &[u8])
        ensures { Sent W.Sink self.old self.new bytes.now }
    {
        if !self.is_stopped && self.out.put(bytes).is_err() {
            self.is_stopped = true;
        }
    }

    // Puts bytes in capital hex digits, unless a put has failed.
    fn put_digits(&mut self, bytes: &[u8])
        ensures { Sent W.Sink self.old self.new (upper_hex bytes.now) }
    {
        if !self.is_stopped && put_hex(self.out, bytes).is_err() {
            self.is_stopped = true;
        }
    }

    // Puts a number in decimal, unless a put has failed.
    fn put_decimal(&mut self, number: u64)
        ensures { Sent W.Sink self.old self.new (decimal number) }
    {
        if !self.is_stopped && put_number(self.out, number).is_err() {
            self.is_stopped = true;
        }
    }

    // Puts a comma if a value stands before.
    #[inline(always)]
    fn put_comma(&mut self)
        ensures { Sent W.Sink self.old self.new (cond self.old.after_value (44 ∷ []) []) }
    {
        if self.after_value {
            self.put(b",");
        }
    }

    // Puts the bytes that begin a value or a member, after a comma if a value stands before.
    #[inline(always)]
    fn put_first(&mut self, bytes: &[u8])
        ensures { Sent W.Sink self.old self.new
            (cond self.old.after_value (44 ∷ []) [] ++ bytes.now) }
    {
        self.put_comma();
        self.put(bytes);
    }

    // Notes whether the last token ended a value.
    #[inline(always)]
    fn note(&mut self, ends: bool)
        ensures { self.new ≡ record self.old { after_value = ends } }
    {
        self.after_value = ends;
    }

    // Puts a text with its escapes.
    #[inline(always)]
    fn put_escaped(&mut self, text: &[u8])
        ensures { Sent W.Sink self.old self.new (escape text.now) }
    {
        if is_plain(text) {
            self.put(text);
        } else {
            self.put_escapes(text);
        }
    }

    // Puts a text with its escapes, byte by byte.
    #[cold]
    #[inline(never)]
    fn put_escapes(&mut self, text: &[u8])
        ensures { Sent W.Sink self.old self.new (escape text.now) }
    {
        'bytes: for byte in text {
            let (bytes, len) = escaped(*byte);
            self.put(&bytes[..len]);
        }
    }

    // Puts what is left of a string after its first quote.
    fn put_rest(&mut self, text: &[u8])
        ensures { Sent W.Sink self.old self.new (escape text.now ++ 34 ∷ []) }
    {
        self.put_escaped(text);
        self.put(b"\"");
    }

    // Puts a name in quotes, its colon and a few bytes, after a comma if a value stands before. Inlined, so that a
    // short name of the program's own is tested and put together when it is compiled, and goes out by one put.
    #[inline(always)]
    fn put_key(&mut self, name: &[u8], after: &[u8])
        requires { length after.now ≤ 4 }
        ensures { Sent W.Sink self.old self.new
            (cond self.old.after_value (44 ∷ []) [] ++ (quoted name.now ++ 58 ∷ after.now)) }
    {
        if name.len() > SHORT || !is_plain(name) {
            return self.put_other_key(name, after);
        }
        let mut key = [0u8; KEY_ROOM];
        let len = write_key(name, after, &mut key);
        if self.after_value {
            return self.put(&key[..len]);
        }
        self.put(&key[1..len]);
    }

    // Puts a name that is long or has escapes, its colon and a few bytes.
    #[cold]
    fn put_other_key(&mut self, name: &[u8], after: &[u8])
        ensures { Sent W.Sink self.old self.new
            (cond self.old.after_value (44 ∷ []) [] ++ (quoted name.now ++ 58 ∷ after.now)) }
    {
        self.put_first(b"\"");
        self.put_escaped(name);
        self.put(b"\":");
        self.put(after);
    }

    /// Begins an object.
    pub fn begin_object(&mut self)
        ensures { Added W.Sink self.old self.new (Token.begin_object ∷ []) }
    {
        self.put_first(b"{");
        self.note(false);
    }

    /// Ends an object.
    pub fn end_object(&mut self)
        ensures { Added W.Sink self.old self.new (Token.end_object ∷ []) }
    {
        self.put(b"}");
        self.note(true);
    }

    /// Begins an array.
    pub fn begin_array(&mut self)
        ensures { Added W.Sink self.old self.new (Token.begin_array ∷ []) }
    {
        self.put_first(b"[");
        self.note(false);
    }

    /// Ends an array.
    pub fn end_array(&mut self)
        ensures { Added W.Sink self.old self.new (Token.end_array ∷ []) }
    {
        self.put(b"]");
        self.note(true);
    }

    /// Writes the name of a field.
    #[inline(always)]
    pub fn put_name(&mut self, name: &str)
        ensures { Added W.Sink self.old self.new (Token.key name.now ∷ []) }
    {
        self.put_key(name.as_bytes(), b"");
        self.note(false);
    }

    /// Writes a string, given as its bytes.
    pub fn put_string(&mut self, text: &[u8])
        ensures { Added W.Sink self.old self.new (Token.string text.now ∷ []) }
    {
        self.put_first(b"\"");
        self.put_rest(text);
        self.note(true);
    }

    /// Writes a string of bytes in capital hex digits.
    pub fn put_hex_string(&mut self, bytes: &[u8])
        ensures { Added W.Sink self.old self.new (Token.string (upper_hex bytes.now) ∷ []) }
    {
        self.put_first(b"\"");
        self.put_digits(bytes);
        self.put(b"\"");
        self.note(true);
    }

    /// Writes null.
    pub fn put_null(&mut self)
        ensures { Added W.Sink self.old self.new (Token.null ∷ []) }
    {
        self.put_first(b"null");
        self.note(true);
    }

    /// Writes a field whose value is a string.
    #[inline(always)]
    pub fn put_text(&mut self, name: &str, text: &str)
        ensures { Added W.Sink self.old self.new
            (Token.key name.now ∷ Token.string text.now ∷ []) }
    {
        self.put_key(name.as_bytes(), b"\"");
        self.put_rest(text.as_bytes());
        self.note(true);
    }

    /// Writes a field whose value is a string, given as its bytes.
    #[inline(always)]
    pub fn put_bytes(&mut self, name: &str, text: &[u8])
        ensures { Added W.Sink self.old self.new
            (Token.key name.now ∷ Token.string text.now ∷ []) }
    {
        self.put_key(name.as_bytes(), b"\"");
        self.put_rest(text);
        self.note(true);
    }

    /// Writes a field whose value is null.
    #[inline(always)]
    pub fn put_nothing(&mut self, name: &str)
        ensures { Added W.Sink self.old self.new (Token.key name.now ∷ Token.null ∷ []) }
    {
        self.put_key(name.as_bytes(), b"null");
        self.note(true);
    }

    /// Writes a field whose value is a whole number.
    #[inline(always)]
    pub fn put_count(&mut self, name: &str, number: u64)
        ensures { Added W.Sink self.old self.new
            (Token.key name.now ∷ Token.number (decimal number) ∷ []) }
    {
        // Most numbers of a record have one digit.
        if number < 10 {
            self.put_key(name.as_bytes(), &[b'0' + number as u8]);
            return self.note(true);
        }
        self.put_name(name);
        self.put_decimal(number);
        self.note(true);
    }

    /// Writes a field whose value is true or false.
    #[inline(always)]
    pub fn put_flag(&mut self, name: &str, flag: bool)
        ensures { Added W.Sink self.old self.new
            (Token.key name.now ∷ Token.boolean flag ∷ []) }
    {
        self.put_name(name);
        self.put(word_of(flag));
        self.note(true);
    }

    /// Writes a field of bytes in capital hex digits.
    #[inline(always)]
    pub fn put_hex(&mut self, name: &str, bytes: &[u8])
        ensures { Added W.Sink self.old self.new
            (Token.key name.now ∷ Token.string (upper_hex bytes.now) ∷ []) }
    {
        self.put_key(name.as_bytes(), b"\"");
        self.put_digits(bytes);
        self.put(b"\"");
        self.note(true);
    }
}
