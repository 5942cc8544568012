// Taking lines.
ghost use Rattle.std.specs.Prelude.{◌≡◌, ◌≤◌, length};
ghost use Rattle.std.specs.Iterator.{at_most};
ghost use Rattle.console.specs.Coming.{to_come, Shorter};

use crate::lines::Lines;

const LINE_END: u8 = b'\n';

// How many bytes stand before the first line end.
fn line_length(bytes: &[u8]) -> usize
    ensures { result ≤ length bytes.now }
{
    bytes
        .iter()
        .position(|byte| *byte == LINE_END)
        .unwrap_or(bytes.len())
}

impl<'a> Lines<'a> {
    pub fn new(input: &'a [u8]) -> Lines<'a>
        ensures { result.left.now ≡ input.now }
    {
        Lines {
            left: input,
            taken: 0,
        }
    }

    // The number of the line that was taken last, from 1.
    pub fn line(&self) -> usize
        ensures { result ≡ self.now.taken }
    {
        self.taken
    }

    // The lines up to one that is a dot, which is taken too.
    pub fn block(&mut self) -> Option<&'a [u8]>
        ensures { to_come self.new ≤ to_come self.old }
    {
        let text = self.left;
        let mut length = 0;
        while let Some(line) = self.next() {
            if line == b".".as_slice() {
                return Some(&text[..length]);
            }
            length = text.len() - self.left.len();
        }
        None
    }
}

impl<'a> Iterator for Lines<'a> {
    type Item = &'a [u8];

    ghost next_gives = { λ s r t. Shorter r (to_come s) (to_come t) };

    ghost remaining = { λ s. at_most (to_come s) };

    // The next line, without its end; the last may have none.
    fn next(&mut self) -> Option<&'a [u8]> {
        let left = self.left;
        if left.is_empty() {
            return None;
        }
        let length = line_length(left);
        self.left = &left[left.len().min(length + 1)..];
        self.taken += 1;
        Some(&left[..length])
    }
}
