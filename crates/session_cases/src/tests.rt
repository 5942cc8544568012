use card::card::Card;
use classes::climbing::Climbing;
use classes::masks::Masks;
use classes::table::ClassTable;
use hosts::numbers::Numbers;
use semantics::call::{Kind, Offered, Response};
use semantics::ending::Ending;
use semantics::value::Value;
use session::call::Call;
use session::perform::perform_all;
use std::process::Abort;
use std::test::Fail;

const COUNTDOWN: [u8; 135] =
    *b"class=3\nname=200\nargs=2\nresult=2\ntemps=2\nlabel=1:2,0\nlabel=5:2,1\nop=V t0 l1 0\nop=V t1 t0 5 #0\nop=F t1 1\nop=V t0 t0 2 #4\nop=J 0\nop=R t0\n";

// The value that the last call returned, and its steps.
fn returned(response: Response) -> Option<(Value, usize)> {
    match response {
        Response::Ended(end) => match end.ending {
            Ending::Returned(value) => Some((value, end.steps)),
            _ => None,
        },
        _ => None,
    }
}

fn native(class: u32, name: u32, arguments: &[u32], res: u32) -> Call<'_> {
    Call::Native {
        class,
        name,
        arguments,
        result: res,
    }
}

// The trial card is made, Countdown is loaded and counts down from 10, in portions of 10 steps.
fn counting_down<'a>(
    none: &'a [u32],
    one: &'a [u32],
    text: &'a [u8],
    arguments: &'a [Offered],
) -> [Call<'a>; 8] {
    let receiver = Offered {
        class: 3,
        number: 0,
    };
    [
        Call::Class { parent: 0 },
        native(2, 0, none, 2),
        native(2, 2, one, 2),
        native(2, 5, one, 1),
        Call::Load { text },
        Call::Start {
            receiver,
            name: 200,
            arguments,
        },
        Call::Go { steps: 10 },
        Call::Go { steps: 10 },
    ]
}

fn counts_down<T: ClassTable + Drop>(rt: &impl Abort) -> Result<(), Fail> {
    let mut card: Card<T> = Card::blank(Kind::Issue);
    let none: [u32; 0] = [];
    let one = [2u32];
    let text = COUNTDOWN;
    let arguments = [Offered {
        class: 2,
        number: 10,
    }];
    let calls = counting_down(&none, &one, &text, &arguments);
    let mut responses = [Response::Started; 8];
    let mut buffer = [0u8; 1];
    perform_all(&mut card, &mut Numbers, &calls, &mut buffer, &mut responses);
    assert!(rt; returned(responses[6]).is_none());
    let Some((value, steps)) = returned(responses[7]) else {
        assert!(rt; false);
        return Ok(());
    };
    let minus_two = Value {
        class: 2,
        number: -2,
    };
    assert_eq!(rt; value, minus_two);
    assert_eq!(rt; steps, 6);
    Ok(())
}

#[test]
fn counts_down_over_both_tables(rt: HostRuntime) -> Result<(), Fail> {
    counts_down::<Climbing>(&rt)?;
    counts_down::<Masks>(&rt)
}
