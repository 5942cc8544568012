// The lines of a method's text.
ghost use Rattle.semantics.specs.Items.{items_of};
ghost use Rattle.semantics.specs.Methods.{label_of, method_of};
ghost use Rattle.semantics.specs.Printing.{classes_text, label_text, method_text};

use crate::output::{Output, Text};
use semantics::array_vec::ArrayVec;
use semantics::method::{Label, Method};

// Classes, parted by commas.
impl<const N: usize> Text for ArrayVec<u8, N> {
    ghost text = { λ v. classes_text (items_of v) };

    #[tactic(auto, using(crate::proofs::Putting::put_append, crate::proofs::Texts::joined_by_each))]
    fn put(&self, out: &mut Output) {
        if let Some((first, rest)) = self.as_slice().split_first() {
            first.put(out);
            out.each(b",", rest, b"");
        }
    }
}

impl Text for Label {
    ghost text = { λ l. label_text (label_of l) };

    #[tactic(auto, using(crate::proofs::Putting::put_append))]
    fn put(&self, out: &mut Output) {
        self.point.put(out);
        out.marked(b':', &self.row);
    }
}

impl Text for Method {
    ghost text = { λ m. method_text (method_of m) };

    fn put(&self, out: &mut Output) {
        out.enclosed(b"class=", &self.class, b"\n");
        out.enclosed(b"name=", &self.name, b"\n");
        out.enclosed(b"args=", &self.arguments, b"\n");
        out.enclosed(b"result=", &self.result, b"\n");
        out.enclosed(b"temps=", &self.temporaries, b"\n");
        out.each(b"label=", self.labels.as_slice(), b"\n");
        out.each(b"op=", self.code.as_slice(), b"\n");
    }
}
