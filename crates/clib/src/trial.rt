// The worked load through the functions for C, and the steps in turn and out of turn. Expected is what the rules of the heap give.
use crate::forms::{Answer, CallWords};
use crate::turns::Kept;
use crate::{
    State, fusuma_begin, fusuma_close, fusuma_collect, fusuma_draw, fusuma_give, fusuma_give_up,
    fusuma_new,
};
use scheme::Prefix;

const NONE: Answer = Answer {
    granted: 7,
    position: 7,
    number: 7,
};

fn call(number: u32, a: u32, b: u32, c: u32, d: u32) -> CallWords {
    CallWords { number, a, b, c, d }
}

// A state that no heap is kept in yet.
fn blank() -> State {
    let mut none = [0u32; 0];
    let (kept, _) = Kept::open(&mut none[..], Prefix);
    State {
        scheme: 9,
        heap: kept.aside,
    }
}

fn told(answer: Answer) -> (u32, i64, u32) {
    (answer.granted, answer.number, answer.position)
}

#[test]
fn calls_and_steps(rt: HostRuntime) {
    let mut words = [5u32; 64];
    let mut state = blank();
    let calls = [
        call(3, 0, 1, 31, 31),
        call(4, 1, 3, 0, 0),
        call(5, 2, 1, 0, 0),
        call(0, 3, 4_294_967_289, 0, 0),
        call(7, 2, 0, 3, 0),
        call(11, 3, 0, 0, 0),
        call(20, 0, 0, 0, 0),
    ];
    let mut answers = [NONE; 7];
    let turns = [
        fusuma_new(&mut words, &mut state, 2),
        fusuma_new(&mut words, &mut state, 0),
        fusuma_give(&mut words, &mut state, &calls, &mut answers),
        fusuma_close(&mut words, &mut state),
        fusuma_begin(&mut words, &mut state),
        fusuma_collect(&mut words, &mut state),
        fusuma_give_up(&mut words, &mut state),
        fusuma_begin(&mut words, &mut state),
        fusuma_draw(&mut words, &mut state),
        fusuma_close(&mut words, &mut state),
        fusuma_collect(&mut words, &mut state),
    ];
    assert_eq!(rt; turns, [-2, 64, 7, -1, 14, -1, 0, 14, 0, 14, 14]);
    assert_eq!(rt; told(answers[4]), (0, 23, 2));
    assert_eq!(rt; told(answers[5]), (1, -7, 0));
    assert_eq!(rt; told(answers[6]), (0, 43, 0));
    assert_eq!(rt; (words[0], words[1], words[63]), (81, 223, 5));
}

// Under MASK rule 2 makes field 1 alone raw.
#[test]
fn by_mask(rt: HostRuntime) {
    let mut words = [5u32; 64];
    let mut state = blank();
    let calls = [
        call(3, 0, 2, 31, 31),
        call(4, 1, 3, 0, 0),
        call(5, 2, 1, 0, 0),
        call(9, 2, 1, 7, 0),
        call(8, 2, 1, 0, 0),
        call(7, 2, 1, 3, 0),
        call(15, 1, 0, 0, 0),
    ];
    let mut answers = [NONE; 7];
    assert_eq!(rt; fusuma_new(&mut words, &mut state, 1), 64);
    assert_eq!(rt;
        fusuma_give(&mut words, &mut state, &calls, &mut answers),
        7
    );
    assert_eq!(rt; told(answers[3]), (1, 0, 0));
    assert_eq!(rt; told(answers[4]), (1, 7, 0));
    assert_eq!(rt; told(answers[5]), (0, 23, 2));
    assert_eq!(rt; told(answers[6]), (1, 1, 0));
}
