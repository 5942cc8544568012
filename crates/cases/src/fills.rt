// Methods filled on the trial card, over both class tables.
use crate::case::{COUNTDOWN, Case, MAX_TEXT};
use classes::climbing::Climbing;
use classes::masks::Masks;
use classes::table::ClassTable;
use filler::fill::fill;
use semantics::array_vec::ArrayVec;
use semantics::entry::Entry;
use semantics::refusal::Refusal;
use std::process::Abort;
use verifier::env::Env;

const REFUSED: [Case; 11] = [
    Case {
        text: b"class=4\nname=200\nargs=2\nresult=2\ntemps=0\nop=R l1\n",
        refusal: Refusal::ClassAbsent { place: 0 },
    },
    Case {
        text: b"class=3\nname=200\nargs=2,4\nresult=5\ntemps=0\nop=R l1\n",
        refusal: Refusal::ClassAbsent { place: 2 },
    },
    Case {
        text: b"class=2\nname=5\nargs=2\nresult=1\ntemps=0\nop=R l1\n",
        refusal: Refusal::NameTaken,
    },
    Case {
        text: b"class=0\nname=5\nargs=2\nresult=2\ntemps=0\nop=R l1\n",
        refusal: Refusal::SignatureDiffers { row: 2 },
    },
    Case {
        text: b"class=3\nname=200\nargs=2\nresult=2\ntemps=1\nop=V t0 l0 0\nop=R l1\n",
        refusal: Refusal::NoRow { point: 0 },
    },
    Case {
        text: b"class=3\nname=200\nargs=2\nresult=2\ntemps=1\nop=V t0 l1 0 #1\nop=R l1\n",
        refusal: Refusal::Argument {
            point: 0,
            operand: 2,
        },
    },
    Case {
        text: b"class=3\nname=200\nargs=2\nresult=2\ntemps=1\nop=V t0 l1 2 l0\nop=R l1\n",
        refusal: Refusal::Argument {
            point: 0,
            operand: 3,
        },
    },
    Case {
        text: b"class=3\nname=200\nargs=2\nresult=2\ntemps=1\nop=V l1 l1 5 #0\nop=R l1\n",
        refusal: Refusal::ResultClass { point: 0 },
    },
    Case {
        text: b"class=3\nname=200\nargs=2\nresult=2\ntemps=1\nop=R l0\n",
        refusal: Refusal::ResultClass { point: 0 },
    },
    Case {
        text: b"class=3\nname=200\nargs=2\nresult=2\ntemps=1\nlabel=1:63\nop=F l1 0\nop=R l1\n",
        refusal: Refusal::Condition { point: 0 },
    },
    Case {
        text: b"class=3\nname=200\nargs=2\nresult=2\ntemps=1\nlabel=1:63\nop=R l1\nop=R l1\n",
        refusal: Refusal::Unreached { point: 1 },
    },
];

// The rows of this table are not those of the filled one.
const LOOSE: &[u8] =
    b"class=3\nname=200\nargs=2\nresult=2\ntemps=2\nlabel=1:0,63\nlabel=5:63,0\nop=V t0 l1 0\nop=V t1 t0 5 #0\nop=F t1 1\nop=V t0 t0 2 #4\nop=J 0\nop=R t0\n";

// Each sweep comes to one label more, twice over.
const MANY_SWEEPS: &[u8] =
    b"class=3\nname=200\nargs=\nresult=2\ntemps=1\nlabel=2:0\nlabel=5:0\nlabel=6:0\nlabel=7:0\nlabel=8:0\nlabel=9:0\nlabel=10:0\nlabel=11:0\nlabel=12:0\nlabel=13:0\nlabel=14:0\nlabel=15:0\nlabel=16:0\nlabel=17:0\nlabel=18:0\nlabel=19:0\nop=V t0 #0 0\nop=J 15\nop=V t0 #0 5 #0\nop=F t0 15\nop=R #0\nop=J 0\nop=J 1\nop=J 2\nop=J 3\nop=J 4\nop=J 5\nop=J 6\nop=J 7\nop=J 8\nop=J 9\nop=J 10\nop=J 11\nop=J 12\nop=J 13\nop=J 14\n";

fn native(name: u8, arguments: usize, res: u8) -> Entry {
    Entry {
        class: 2,
        name,
        arguments: ArrayVec::repeat(2, arguments),
        result: res,
    }
}

fn fill_on_trial_card<T: ClassTable + Drop>(
    text: &[u8],
    buffer: &mut [u8],
) -> Result<(usize, usize), Refusal> {
    let mut table = T::blank();
    let _ = table.add(0);
    let entries = [native(0, 0, 2), native(2, 1, 2), native(5, 1, 1)];
    let env = Env {
        table: &table,
        entries: &entries,
    };
    fill(&env, text, buffer)
}

fn refuses<T: ClassTable + Drop>(rt: &impl Abort) {
    for case in &REFUSED {
        let mut buffer = [7u8; MAX_TEXT];
        assert_eq!(rt;
            fill_on_trial_card::<T>(case.text, &mut buffer),
            Err(case.refusal)
        );
        assert_eq!(rt; buffer[0], 7);
    }
}

fn fills<T: ClassTable + Drop>(rt: &impl Abort, text: &[u8], filled: &[u8], sweeps: usize) {
    let mut buffer = [7u8; MAX_TEXT];
    assert_eq!(rt;
        fill_on_trial_card::<T>(text, &mut buffer),
        Ok((filled.len(), sweeps))
    );
    assert!(rt; buffer.starts_with(filled));
}

#[test]
fn faults_are_told_by_both_tables(rt: HostRuntime) {
    refuses::<Climbing>(&rt);
    refuses::<Masks>(&rt);
}

#[test]
fn rows_are_found_by_both_tables(rt: HostRuntime) {
    fills::<Climbing>(&rt, LOOSE, COUNTDOWN, 2);
    fills::<Masks>(&rt, LOOSE, COUNTDOWN, 2);
    fills::<Climbing>(&rt, MANY_SWEEPS, MANY_SWEEPS, 31);
    fills::<Masks>(&rt, MANY_SWEEPS, MANY_SWEEPS, 31);
}

#[test]
fn a_short_buffer_is_refused_last(rt: HostRuntime) {
    let mut buffer = [7u8; 20];
    assert_eq!(rt;
        fill_on_trial_card::<Masks>(LOOSE, &mut buffer),
        Err(Refusal::BufferTooShort {
            needed: COUNTDOWN.len(),
        })
    );
    assert_eq!(rt; buffer, [7u8; 20]);
}
