// Texts, and the output that they are put into: a lent buffer, and a count that goes on past its end.
ghost use Rattle.std.specs.Prelude.{◌≡◌, ℕ, ◌^◌, ◌<◌, List, [], ◌∷◌, length};
ghost use Rattle.std.specs.Fmt.{decimal, signed_decimal};
ghost use Rattle.std.specs.List.{flat_map};
ghost use Rattle.semantics.specs.Buffers.{put_all};
ghost use Rattle.writer.specs.Putting.{enclosed, put};

use itoa::{Buffer, Integer};

// The bytes put so far, as many as the buffer takes, and their count, which stops at the largest number.
#[derive(Drop)]
pub(crate) struct Output<'a> {
    buffer: &'a mut [u8],
    len: usize,
}

// What has one text. `Display` would promise it only where no write fails, and a put never fails.
pub(crate) trait Text {
    ghost text: { Self → List ℕ };

    fn put(&self, out: &mut Output)
        ensures { out.new ≡ put (text self.now) out.old };

    // Puts the text into a buffer, as far as it reaches, and answers the length of the whole text.
    #[tactic(auto, using(crate::proofs::Putting::put_counted))]
    final fn fill(&self, buffer: &mut [u8]) -> usize
        requires { length (text self.now) < 2 ^ 64 }
        ensures count { result ≡ length (text self.now) }
        ensures kept { buffer.new ≡ put_all 0 (text self.now) buffer.old }
    {
        let mut out = Output { buffer, len: 0 };
        self.put(&mut out);
        out.len
    }
}

impl Output<'_> {
    #[tactic(auto, unfolding(crate::specs::Putting::with_byte))]
    pub(crate) fn byte(&mut self, byte: u8)
        ensures { self.new ≡ put (byte ∷ []) self.old }
    {
        // Not a `get_mut`: after one a proof knows the length of the buffer, and none of its bytes.
        if self.len < self.buffer.len() {
            self.buffer[self.len] = byte;
        }
        self.len = self.len.saturating_add(1);
    }

    // Byte by byte: a `copy_from_slice` would first have to cut the bytes where the buffer ends.
    pub(crate) fn bytes(&mut self, bytes: &[u8])
        ensures { self.new ≡ put bytes.now self.old }
    {
        for byte in bytes {
            self.byte(*byte);
        }
    }

    pub(crate) fn number<I: Integer>(&mut self, number: I)
        ensures { self.new ≡ put (I.text number) self.old }
    {
        self.bytes(Buffer::new().format(number).as_bytes());
    }

    // A text behind a letter or a separator.
    pub(crate) fn marked<T: Text>(&mut self, mark: u8, text: &T)
        ensures { self.new ≡ put (mark ∷ T.text text.now) self.old }
    {
        self.byte(mark);
        text.put(self);
    }

    // A text between two others.
    #[tactic(auto, using(crate::proofs::Putting::put_append), unfolding(crate::specs::Putting::enclosed))]
    pub(crate) fn enclosed<T: Text>(&mut self, before: &[u8], text: &T, after: &[u8])
        ensures { self.new ≡ put (enclosed before.now (T.text text.now) after.now) self.old }
    {
        self.bytes(before);
        text.put(self);
        self.bytes(after);
    }

    // Texts, each between two others.
    pub(crate) fn each<T: Text>(&mut self, before: &[u8], items: &[T], after: &[u8])
        ensures { self.new ≡ put (flat_map (λ x. enclosed before.now (T.text x) after.now) items.now) self.old }
    {
        for item in items {
            self.enclosed(before, item, after);
        }
    }
}

// Not one impl for each `Integer`, here and below: it would conflict with the impls for other types.
impl Text for u8 {
    ghost text = { decimal };

    // Most numbers of a method have one digit, which needs no buffer of its own.
    #[tactic(auto, using(std::proofs::lemmas::Fmt::decimal_digit))]
    fn put(&self, out: &mut Output) {
        if *self < 10 {
            out.byte(b'0' + *self);
        } else {
            out.number(*self);
        }
    }
}

impl Text for i32 {
    ghost text = { signed_decimal };

    fn put(&self, out: &mut Output) {
        match u8::try_from(*self) {
            Ok(small) => small.put(out),
            Err(_) => out.number(*self),
        }
    }
}
