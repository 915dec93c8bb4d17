// The examples that docs/blocks.md works out by hand.
use crate::*;

fn word(bits: u16, index: usize) -> Word {
    Word {
        bits,
        axis: AxisId::Two,
        index,
    }
}

fn wrong_at(index: usize) -> Fault {
    Fault {
        question: Question::Digits,
        axis: Some(AxisId::Two),
        word: index,
    }
}

#[test]
fn positions_are_written(rt: HostRuntime) {
    let minus = PositionWords {
        first: 0x8001,
        second: 0x2345,
    };
    assert_eq!(rt; write_position(-12_345), Some(minus));
    let largest = PositionWords {
        first: 0x1999,
        second: 0x9999,
    };
    assert_eq!(rt; write_position(19_999_999), Some(largest));
    let zero = PositionWords {
        first: 0,
        second: 0,
    };
    assert_eq!(rt; write_position(0), Some(zero));
    assert_eq!(rt; write_position(-20_000_000), None);
}

fn pair(first: u16, second: u16) -> WordPair {
    WordPair {
        first: word(first, 3),
        second: word(second, 4),
    }
}

#[test]
fn positions_are_read(rt: HostRuntime) {
    assert_eq!(rt; pair(0x8001, 0x2345).read_position(), Ok(-12_345));
    assert_eq!(rt; pair(0x8000, 0x0000).read_position(), Ok(0));
    assert_eq!(rt;
        pair(0xA000, 0x0000).read_target(),
        Ok(Target::Incremental(0))
    );
    assert_eq!(rt; pair(0xA000, 0x000A).read_position(), Err(wrong_at(3)));
    assert_eq!(rt; pair(0x1999, 0x999A).read_position(), Err(wrong_at(4)));
}
