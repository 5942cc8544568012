// The calls of a list.
use semantics::call::Offered;

// The operands of a native and of a start stay apart, here and in card: they are the call's own, and a struct for them would be made for one call.
#[derive(Clone, Copy)]
pub enum Call<'a> {
    Class {
        parent: u32,
    },
    Native {
        class: u32,
        name: u32,
        arguments: &'a [u32],
        result: u32,
    },
    Load {
        text: &'a [u8],
    },
    Start {
        receiver: Offered,
        name: u32,
        arguments: &'a [Offered],
    },
    Go {
        steps: u32,
    },
    Fill {
        text: &'a [u8],
    },
}
