// A text with its refusal, and what both tables of texts share.
use semantics::refusal::Refusal;

pub const MAX_TEXT: usize = 8192;

pub struct Case {
    pub text: &'static [u8],
    pub refusal: Refusal,
}

pub const COUNTDOWN: &[u8] =
    b"class=3\nname=200\nargs=2\nresult=2\ntemps=2\nlabel=1:2,0\nlabel=5:2,1\nop=V t0 l1 0\nop=V t1 t0 5 #0\nop=F t1 1\nop=V t0 t0 2 #4\nop=J 0\nop=R t0\n";
