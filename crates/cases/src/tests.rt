// Tables of texts, and what becomes of each.
use crate::case::{COUNTDOWN, Case, MAX_TEXT};
use semantics::refusal::Refusal;
use std::test::Fail;
use text::form::form;
use text::read::read;
use writer::write;

const UNREADABLE: [Case; 33] = [
    Case {
        text: b"",
        refusal: Refusal::Line { at: 0 },
    },
    Case {
        text: b"name=1\n",
        refusal: Refusal::Line { at: 0 },
    },
    Case {
        text: b"class=3",
        refusal: Refusal::Line { at: 0 },
    },
    Case {
        text: b"class=3\n",
        refusal: Refusal::Line { at: 8 },
    },
    Case {
        text: b"class =3\n",
        refusal: Refusal::Line { at: 0 },
    },
    Case {
        text: b"class=\n",
        refusal: Refusal::Malformed { at: 6 },
    },
    Case {
        text: b"class=03\n",
        refusal: Refusal::Malformed { at: 6 },
    },
    Case {
        text: b"class=+3\n",
        refusal: Refusal::Malformed { at: 6 },
    },
    Case {
        text: b"class=64\n",
        refusal: Refusal::OutOfRange { at: 6 },
    },
    Case {
        text: b"class=99999999999999999999999999\n",
        refusal: Refusal::OutOfRange { at: 6 },
    },
    Case {
        text: b"class=3\nname=256\n",
        refusal: Refusal::OutOfRange { at: 13 },
    },
    Case {
        text: b"class=3\nname=1\nargs=0,1,2,3,4,5,6,7\n",
        refusal: Refusal::Malformed { at: 20 },
    },
    Case {
        text: b"class=3\nname=1\nargs=0,64,65\n",
        refusal: Refusal::OutOfRange { at: 22 },
    },
    Case {
        text: b"class=3\nname=1\nargs=64,\n",
        refusal: Refusal::Malformed { at: 20 },
    },
    Case {
        text: b"class=3\nname=1\nargs=\nresult=0\ntemps=9\n",
        refusal: Refusal::OutOfRange { at: 36 },
    },
    Case {
        text: b"class=3\nname=200\nargs=2\nresult=2\ntemps=2\n",
        refusal: Refusal::Line { at: 41 },
    },
    Case {
        text: b"class=3\nname=200\nargs=2\nresult=2\ntemps=2\nlabel=1:2\n",
        refusal: Refusal::Malformed { at: 47 },
    },
    Case {
        text: b"class=3\nname=200\nargs=2\nresult=2\ntemps=2\nlabel=64:2,64\n",
        refusal: Refusal::OutOfRange { at: 47 },
    },
    Case {
        text: b"class=3\nname=200\nargs=2\nresult=2\ntemps=2\nlabel=1:2,64\n",
        refusal: Refusal::OutOfRange { at: 51 },
    },
    Case {
        text: b"class=3\nname=200\nargs=2\nresult=2\ntemps=2\nop=R t0\nlabel=0:0,0\n",
        refusal: Refusal::Line { at: 49 },
    },
    Case {
        text: b"class=3\nname=200\nargs=2\nresult=2\ntemps=2\nop=R t0\n\n",
        refusal: Refusal::Line { at: 49 },
    },
    Case {
        text: b"class=3\nname=200\nargs=2\nresult=2\ntemps=2\nop=R 5\n",
        refusal: Refusal::Malformed { at: 44 },
    },
    Case {
        text: b"class=3\nname=200\nargs=2\nresult=2\ntemps=2\nop=R #-0\n",
        refusal: Refusal::Malformed { at: 44 },
    },
    Case {
        text: b"class=3\nname=200\nargs=2\nresult=2\ntemps=2\nop=R  t0\n",
        refusal: Refusal::Malformed { at: 44 },
    },
    Case {
        text: b"class=3\nname=200\nargs=2\nresult=2\ntemps=2\nop=X t0\n",
        refusal: Refusal::Malformed { at: 44 },
    },
    Case {
        text: b"class=3\nname=200\nargs=2\nresult=2\ntemps=2\nop=R #2147483648\n",
        refusal: Refusal::OutOfRange { at: 47 },
    },
    Case {
        text: b"class=3\nname=200\nargs=2\nresult=2\ntemps=2\nop=R #-2147483649\n",
        refusal: Refusal::OutOfRange { at: 47 },
    },
    Case {
        text: b"class=3\nname=200\nargs=2\nresult=2\ntemps=2\nop=F t64 64 1\n",
        refusal: Refusal::Malformed { at: 44 },
    },
    Case {
        text: b"class=3\nname=200\nargs=2\nresult=2\ntemps=2\nop=F t64 64\n",
        refusal: Refusal::OutOfRange { at: 47 },
    },
    Case {
        text: b"class=3\nname=200\nargs=2\nresult=2\ntemps=2\nop=L t0\n",
        refusal: Refusal::Malformed { at: 44 },
    },
    Case {
        text: b"class=3\nname=200\nargs=2\nresult=2\ntemps=2\nop=L t0 0 0 0 0 0 0 0 0 0\n",
        refusal: Refusal::Malformed { at: 44 },
    },
    Case {
        text: b"class=3\nname=200\nargs=2\nresult=2\ntemps=2\nop=V #0 t0 1\n",
        refusal: Refusal::Malformed { at: 44 },
    },
    Case {
        text: b"class=3\nname=200\nargs=2\nresult=2\ntemps=2\nop=V t0 #0 256\n",
        refusal: Refusal::OutOfRange { at: 52 },
    },
];

const MALFORMED: [Case; 8] = [
    Case {
        text: b"class=3\nname=200\nargs=2\nresult=2\ntemps=2\nlabel=1:0,0\nop=R t0\n",
        refusal: Refusal::LabelPoint { label: 0 },
    },
    Case {
        text: b"class=3\nname=200\nargs=2\nresult=2\ntemps=2\nlabel=0:0,0\nlabel=0:0,0\nop=R t0\n",
        refusal: Refusal::LabelPoint { label: 1 },
    },
    Case {
        text: b"class=3\nname=200\nargs=2\nresult=2\ntemps=2\nop=R l2\n",
        refusal: Refusal::Absent {
            point: 0,
            operand: 0,
        },
    },
    Case {
        text: b"class=3\nname=200\nargs=2\nresult=2\ntemps=2\nop=R t2\n",
        refusal: Refusal::Absent {
            point: 0,
            operand: 0,
        },
    },
    Case {
        text: b"class=3\nname=200\nargs=2\nresult=2\ntemps=2\nop=J 0\n",
        refusal: Refusal::Absent {
            point: 0,
            operand: 0,
        },
    },
    Case {
        text: b"class=3\nname=200\nargs=2\nresult=2\ntemps=2\nop=V t0 l1 5 l0 l2\nop=R t0\n",
        refusal: Refusal::Absent {
            point: 0,
            operand: 4,
        },
    },
    Case {
        text: b"class=3\nname=200\nargs=2\nresult=2\ntemps=2\nop=V t0 l1 0\n",
        refusal: Refusal::OpenEnd { point: 0 },
    },
    Case {
        text: b"class=3\nname=200\nargs=2\nresult=2\ntemps=2\nop=R t0\nop=R t0\n",
        refusal: Refusal::OpenEnd { point: 0 },
    },
];

const EXTREMES: &[u8] =
    b"class=0\nname=0\nargs=\nresult=0\ntemps=0\nlabel=1:\nop=L #2147483647 0 0 0 0 0 0 0 0\nop=R #-2147483648\n";

// The longest lines that a text can have.
const LONGEST_HEAD: &[u8] = b"class=63\nname=255\nargs=63,63,63,63,63,63,63\nresult=63\ntemps=8\n";

const LONGEST_LABEL: &[u8] = b"label=63:63,63,63,63,63,63,63,63\n";

const LONGEST_OPERATION: &[u8] =
    b"op=V t63 #-2147483648 255 #-2147483648 #-2147483648 #-2147483648 #-2147483648 #-2147483648 #-2147483648 #-2147483648\n";

fn vet(text: &[u8]) -> Result<(), Refusal> {
    let method = read(text)?;
    form(&method)
}

// The text, read and written again.
fn rewritten(text: &[u8], buffer: &mut [u8]) -> Result<usize, Refusal> {
    let method = read(text)?;
    write(&method, buffer)
}

#[test]
fn unreadable_texts_are_refused(rt: HostRuntime) {
    for case in &UNREADABLE {
        assert_eq!(rt; read(case.text).err(), Some(case.refusal));
    }
}

#[test]
fn malformed_methods_are_refused(rt: HostRuntime) {
    for case in &MALFORMED {
        assert_eq!(rt; vet(case.text).err(), Some(case.refusal));
    }
}

#[test]
fn good_texts_are_written_back(rt: HostRuntime) {
    for text in [COUNTDOWN, EXTREMES] {
        assert_eq!(rt; vet(text).err(), None);
        let mut buffer = [7u8; MAX_TEXT];
        assert_eq!(rt; rewritten(text, &mut buffer), Ok(text.len()));
        assert!(rt; buffer.starts_with(text));
        assert_eq!(rt; buffer[MAX_TEXT - 1], 7);
    }
}

#[test]
fn a_short_buffer_stays_as_it_was(rt: HostRuntime) {
    let mut buffer = [7u8; 20];
    assert_eq!(rt;
        rewritten(COUNTDOWN, &mut buffer),
        Err(Refusal::BufferTooShort {
            needed: COUNTDOWN.len(),
        })
    );
    assert_eq!(rt; buffer, [7u8; 20]);
}

#[test]
fn the_longest_text_is_written_back(rt: HostRuntime) -> Result<(), Fail> {
    let mut text = Vec::new(rt.alloc());
    text.extend_from_slice(LONGEST_HEAD)?;
    for _ in 0..16 {
        text.extend_from_slice(LONGEST_LABEL)?;
    }
    for _ in 0..64 {
        text.extend_from_slice(LONGEST_OPERATION)?;
    }
    assert!(rt; text.len() < MAX_TEXT);
    let mut buffer = [0u8; MAX_TEXT];
    assert_eq!(rt; rewritten(text.as_slice(), &mut buffer), Ok(text.len()));
    assert!(rt; buffer.starts_with(text.as_slice()));
    Ok(())
}
