use crate::test_scenarios::{
    Answer, Parts, Root, SOUND, TIP, Tip, answer_to, answer_to_bytes, answer_to_no_block, base_of,
    is_short,
};
use crate::{Place, read_scenario};
use cbor_fields::{FieldFault, FieldKind};
use gas_prices::PriceFault;
use std::test::Fail;

const NOWHERE: Place = Place {
    tipset: None,
    block: None,
    message: None,
};

fn form(place: Place, index: u32, kind: FieldKind) -> Answer {
    Answer::Form(place, FieldFault { index, kind })
}

#[test]
fn a_scenario_is_read(rt: HostRuntime) -> Result<(), Fail> {
    let (base, root) = base_of(rt.alloc(), &SOUND)?;
    assert!(rt; is_short(&root, &base));
    let scenario = read_scenario(rt.alloc(), &root, &base)?;
    assert_eq!(rt; scenario.rules.depth, 64);
    assert_eq!(rt; scenario.rules.pages, 512);
    let tipsets = scenario.tipsets.as_slice();
    assert_eq!(rt; tipsets.len(), 2);
    assert_eq!(rt; tipsets.last().map(|tipset| tipset.epoch), Some(7));
    assert_eq!(rt;
        tipsets.last().map(|tipset| tipset.base_fee.number()),
        Some(10)
    );
    Ok(())
}

#[test]
fn a_root_has_a_block_of_dag_cbor(rt: HostRuntime) -> Result<(), Fail> {
    assert_eq!(rt; answer_to_no_block(rt)?, Answer::Root);
    assert_eq!(rt; answer_to_bytes(rt, &[0x83, 0x01])?, Answer::Cbor);
    assert_eq!(rt;
        answer_to_bytes(rt, &[0x80])?,
        form(NOWHERE, 0, FieldKind::WrongLength)
    );
    // The form, before rules that are none.
    assert_eq!(rt;
        answer_to_bytes(rt, &[0x83, 0x00, 0x00, 0x00])?,
        form(NOWHERE, 0, FieldKind::OutOfRange)
    );
    // The prices are no list.
    assert_eq!(rt;
        answer_to_bytes(rt, &[0x83, 0x01, 0x83, 0x00, 0x80, 0x80, 0x80])?,
        form(NOWHERE, 0, FieldKind::WrongKind)
    );
    // There are no limits and no codes; the tipsets would be judged after them.
    assert_eq!(rt;
        answer_to_bytes(rt, &[0x83, 0x01, 0x83, 0x81, 0x01, 0x80, 0x80, 0x00])?,
        form(NOWHERE, 0, FieldKind::WrongLength)
    );
    Ok(())
}

/// An epoch of 2^63.
const LATE_EPOCH: Tip = Tip {
    epoch: 1 << 63,
    ..TIP
};

/// A miner that is no ID.
const NO_MINER: Tip = Tip {
    blocks: (2, -1, b""),
    ..TIP
};

/// A nonce with no next one in the second message.
const NO_NONCE: Tip = Tip {
    nonces: &[0, (1 << 64) - 1],
    ..TIP
};

#[test]
fn fields_have_places(rt: HostRuntime) -> Result<(), Fail> {
    let tipset = Place {
        tipset: Some(1),
        ..NOWHERE
    };
    let epoch = Parts {
        tipsets: &[(1, TIP), (1, LATE_EPOCH)],
        ..SOUND
    };
    assert_eq!(rt;
        answer_to(rt, &epoch)?,
        form(tipset, 0, FieldKind::OutOfRange)
    );
    let block = Place {
        block: Some(0),
        ..tipset
    };
    let miner = Parts {
        tipsets: &[(1, TIP), (1, NO_MINER)],
        ..SOUND
    };
    assert_eq!(rt;
        answer_to(rt, &miner)?,
        form(block, 0, FieldKind::OutOfRange)
    );
    let message = Place {
        message: Some(1),
        ..block
    };
    let nonce = Parts {
        tipsets: &[(1, TIP), (1, NO_NONCE)],
        ..SOUND
    };
    assert_eq!(rt;
        answer_to(rt, &nonce)?,
        form(message, 3, FieldKind::OutOfRange)
    );
    Ok(())
}

#[test]
fn prices_are_judged_after_fields_and_before_limits(rt: HostRuntime) -> Result<(), Fail> {
    let few = Parts {
        prices: (22, 1),
        limits: (65, 513),
        ..SOUND
    };
    assert_eq!(rt; answer_to(rt, &few)?, Answer::Price(PriceFault::Count(22)));
    let high = Parts {
        prices: (23, 1_000_000_001),
        limits: (65, 513),
        ..SOUND
    };
    assert_eq!(rt;
        answer_to(rt, &high)?,
        Answer::Price(PriceFault::TooHigh(0))
    );
    let field = Parts {
        tipsets: &[(1, LATE_EPOCH)],
        ..high
    };
    let tipset = Place {
        tipset: Some(0),
        ..NOWHERE
    };
    assert_eq!(rt;
        answer_to(rt, &field)?,
        form(tipset, 0, FieldKind::OutOfRange)
    );
    Ok(())
}

#[test]
fn the_least_limit_is_given(rt: HostRuntime) -> Result<(), Fail> {
    for (limits, limit) in [((0, 0), 0), ((65, 512), 0), ((64, 0), 1), ((1, 513), 1)] {
        let parts = Parts {
            limits,
            account: b"init",
            ..SOUND
        };
        assert_eq!(rt; answer_to(rt, &parts)?, Answer::Limit(limit));
    }
    Ok(())
}

/// A tipset of no blocks.
const BARE: Tip = Tip {
    blocks: (0, 0, b""),
    ..TIP
};

/// Tipsets of 256 and of 257 blocks without awards and messages.
const MOST: Tip = Tip {
    blocks: (256, 100, b""),
    nonces: &[],
    ..TIP
};

const TOO_MANY: Tip = Tip {
    blocks: (257, 100, b""),
    ..MOST
};

#[test]
fn tipsets_and_blocks_are_counted(rt: HostRuntime) -> Result<(), Fail> {
    let tipsets = Parts {
        tipsets: &[(1024, BARE)],
        ..SOUND
    };
    assert_eq!(rt; answer_to(rt, &tipsets)?, Answer::Scenario);
    let more = Parts {
        tipsets: &[(1024, BARE), (1, TOO_MANY)],
        ..SOUND
    };
    assert_eq!(rt; answer_to(rt, &more)?, Answer::Limit(2));
    let blocks = Parts {
        tipsets: &[(1, MOST)],
        ..SOUND
    };
    assert_eq!(rt; answer_to(rt, &blocks)?, Answer::Scenario);
    let many = Parts {
        account: b"init",
        tipsets: &[(1, BARE), (1, TOO_MANY)],
        ..SOUND
    };
    assert_eq!(rt; answer_to(rt, &many)?, Answer::Limit(3));
    Ok(())
}

/// Blocks of 10,000 and of 10,001 messages.
const FULL: Tip = Tip {
    messages: (10_000, 0),
    ..TIP
};

const OVERFULL: Tip = Tip {
    messages: (10_001, 0),
    ..TIP
};

/// Messages of 1,048,576 and of 1,048,577 bytes.
const LONGEST: Tip = Tip {
    messages: (1, 1_048_547),
    ..TIP
};

const TOO_LONG: Tip = Tip {
    messages: (1, 1_048_548),
    ..TIP
};

#[test]
fn messages_are_counted_and_measured(rt: HostRuntime) -> Result<(), Fail> {
    for (tip, more, limit) in [(FULL, OVERFULL, 4), (LONGEST, TOO_LONG, 5)] {
        let most = Parts {
            tipsets: &[(1, tip)],
            ..SOUND
        };
        assert_eq!(rt; answer_to(rt, &most)?, Answer::Scenario);
        let many = Parts {
            account: b"init",
            tipsets: &[(1, tip), (1, more)],
            ..SOUND
        };
        assert_eq!(rt; answer_to(rt, &many)?, Answer::Limit(limit));
    }
    Ok(())
}

/// Tipsets over the other states.
const NO_STATE: Tip = Tip {
    root: Root::Missing,
    ..TIP
};

const LATE: Tip = Tip {
    root: Root::Late,
    ..TIP
};

/// Its awards are too much too.
const LATE_AND_RICH: Tip = Tip {
    blocks: (1, 100, b"\0\x06\x76\x5c\x79\x3f\xa1\0\x79\xd0\0\0\0"),
    ..LATE
};

const RICH: Tip = Tip {
    root: Root::Rich,
    ..TIP
};

/// Two awards of 3, which is one too much.
const TOO_RICH: Tip = Tip {
    blocks: (2, 100, b"\0\x03"),
    ..RICH
};

#[test]
fn codes_differ(rt: HostRuntime) -> Result<(), Fail> {
    let codes = Parts {
        account: b"reward",
        tipsets: &[(1, NO_STATE)],
        ..SOUND
    };
    assert_eq!(rt; answer_to(rt, &codes)?, Answer::Codes);
    let others = Parts {
        account: b"others",
        ..SOUND
    };
    assert_eq!(rt; answer_to(rt, &others)?, Answer::State(0));
    Ok(())
}

/// What is answered of these tipsets, each so many times.
fn judged(rt: HostRuntime, first: (usize, Tip), second: (usize, Tip)) -> Result<Answer, Fail> {
    let parts = Parts {
        tipsets: &[first, second],
        ..SOUND
    };
    answer_to(rt, &parts)
}

#[test]
fn tipset_after_tipset_is_judged(rt: HostRuntime) -> Result<(), Fail> {
    assert_eq!(rt; judged(rt, (1, TIP), (1, NO_STATE))?, Answer::State(1));
    assert_eq!(rt; judged(rt, (3, TIP), (1, LATE))?, Answer::Next(3));
    assert_eq!(rt; judged(rt, (1, TIP), (1, LATE_AND_RICH))?, Answer::Next(1));
    assert_eq!(rt; judged(rt, (3, RICH), (1, RICH))?, Answer::Scenario);
    assert_eq!(rt; judged(rt, (3, RICH), (4, TOO_RICH))?, Answer::Total(3));
    assert_eq!(rt; judged(rt, (2, TOO_RICH), (1, NO_STATE))?, Answer::Total(0));
    Ok(())
}
