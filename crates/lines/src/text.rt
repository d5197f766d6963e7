// A text of at most N bytes, in a memory of its own: contracts see the bytes.
ghost use Rattle.std.specs.Prelude.{List, ℕ, [], ◌∷◌, ◌++◌, ◌≡◌, ◌+◌, ◌-◌, ◌*◌, ◌≤◌, ◌<◌, length, take};
ghost use Rattle.lines.specs.Layout as layout;
ghost use Rattle.lines.specs.Line as line;

use super::layout::{HEX, HEX_DIGITS, LINE_FEED, SPACE, TEN};
use std::marker::Model;

#[derive(Drop)]
pub struct Text<const N: usize> {
    bytes: [u8; N],
    len: usize,
}

impl<const N: usize> Model for Text<N> {
    ghost Value = { List ℕ };

    ghost view = { λ t. take t.len t.bytes };

    ghost invariant = { λ t. t.len ≤ N };
}

impl<const N: usize> Text<N> {
    pub fn new() -> Self
        ensures { result ≡ [] }
    {
        Text {
            bytes: [0; N],
            len: 0,
        }
    }

    // A text of the first bytes of a memory.
    pub fn over(bytes: [u8; N], len: usize) -> Self
        requires { len ≤ N }
        ensures { result ≡ take len bytes.entry }
    {
        Text { bytes, len }
    }

    // No bytes are left.
    pub fn clear(&mut self)
        ensures { self.new ≡ [] }
    {
        self.len = 0;
    }

    // How many bytes more it can have.
    pub fn room(&self) -> usize
        ensures free { result ≡ N - length self.now }
        ensures within { length self.now ≤ N }
    {
        N - self.len
    }

    pub fn as_bytes(&self) -> &[u8]
        ensures { result.now ≡ self.now }
    {
        &self.bytes[..self.len]
    }

    // One byte.
    fn put(&mut self, byte: u8)
        requires { length self.old < N }
        ensures { self.new ≡ self.old ++ byte ∷ [] }
    {
        self.bytes[self.len] = byte;
        self.len += 1;
    }

    // All the bytes.
    fn put_all(&mut self, bytes: &[u8])
        requires { length self.old + length bytes.now ≤ N }
        ensures { self.new ≡ self.old ++ bytes.now }
    {
        let end = self.len + bytes.len();
        let all = &mut self.bytes[..];
        all[self.len..end].copy_from_slice(bytes);
        self.len = end;
    }

    // The last digits of n in a base.
    fn put_digits(&mut self, n: u32, base: u32, count: usize)
        requires { (1 < base) × (base ≤ layout.HEX) × (length self.old + count ≤ N) }
        ensures { self.new ≡ self.old ++ line.digits base count n }
    {
        let end = self.len + count;
        let all = &mut self.bytes[..];
        super::spell(n, base, &mut all[self.len..end]);
        self.len = end;
    }

    // A number in decimal.
    fn put_decimal(&mut self, n: u32)
        requires { length self.old + layout.TEN-DIGITS ≤ N }
        ensures { self.new ≡ self.old ++ line.decimal n }
    {
        let k = super::places(n);
        self.put_digits(n, TEN, k);
    }

    // Each result: a space and its hex digits.
    fn put_results(&mut self, results: &[u32])
        requires { length self.old + length results.now * (1 + layout.HEX-DIGITS) ≤ N }
        ensures { self.new ≡ self.old ++ line.results layout.HEX-DIGITS results.now }
    {
        for word in results {
            self.put(SPACE);
            self.put_digits(*word, HEX, HEX_DIGITS);
        }
    }

    // The line of a code: the code and the answer with a space between, the results, and a line feed.
    pub fn put_line(&mut self, code: u32, answer: u32, results: &[u32])
        requires { (length results.now ≤ layout.RESULTS) × (length self.old + layout.LINE-BYTES ≤ N) }
        ensures { self.new ≡ self.old ++ line.line layout.HEX-DIGITS code answer results.now }
    {
        self.put_decimal(code);
        self.put(SPACE);
        self.put_decimal(answer);
        self.put_results(results);
        self.put(LINE_FEED);
    }

    // The first line.
    #[tactic(auto, unfolding(crate::specs::Line::title))]
    pub fn put_title(&mut self)
        requires { length self.old + layout.LINE-BYTES ≤ N }
        ensures { self.new ≡ self.old ++ line.title }
    {
        self.put_all(b"vehicle 1\n");
    }
}
