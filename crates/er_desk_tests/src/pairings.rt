ghost use Rattle.std.specs.Prelude.{◌≡◌, not, count_by};

use er_event::{Event, MAX_PLAYERS};
use er_pair::{MAX_STEPS, Met, PairFault, first_pairing, keys, order};
use er_testing::events::{changed, drop, started};
use std::alloc::{AllocError, Global};
use std::process::Abort;
use std::test::Fail;

#[test]
fn words_of_the_zero_key(rt: HostRuntime) -> Result<(), Fail> {
    let words = keys(rt.alloc(), &[0; 32], 8)?;
    assert_eq!(rt;
        words.as_slice(),
        [
            0xade0_b876,
            0x903d_f1a0,
            0xe56a_5d40,
            0x28bd_8653,
            0xb819_d2bd,
            0x1aed_8da0,
            0xccef_36a8,
            0xc70d_778b,
        ]
        .as_slice()
    );
    Ok(())
}

/// RFC 8439, A.1, test vector 3: block 1 under a key that ends in 1.
#[test]
fn words_of_a_key_that_ends_in_one(rt: HostRuntime) -> Result<(), Fail> {
    let mut seed = [0; 32];
    seed[31] = 1;
    let words = keys(rt.alloc(), &seed, 32)?;
    assert_eq!(rt;
        &words[16..],
        [
            0x2452_eb3a,
            0x9249_f8ec,
            0x8d82_9d9b,
            0xddd4_ceb1,
            0xe825_2083,
            0x6081_8b01,
            0xf384_22b8,
            0x5aaa_49c9,
            0xbb00_ca8e,
            0xda3b_a7b4,
            0xc4b5_92d1,
            0xfdf2_732f,
            0x4436_274e,
            0x2561_b3c8,
            0xebdd_4aa6,
            0xa013_6c00,
        ]
        .as_slice()
    );
    Ok(())
}

/// RFC 8439, A.1, test vector 4: block 2 under a key in which only the second byte is 255.
#[test]
fn words_of_a_key_with_one_byte_set(rt: HostRuntime) -> Result<(), Fail> {
    let mut seed = [0; 32];
    seed[1] = 255;
    let words = keys(rt.alloc(), &seed, 48)?;
    assert_eq!(rt;
        &words[32..],
        [
            0xfb4d_d572,
            0x4bc4_2ef1,
            0xdf92_2636,
            0x327f_1394,
            0xa78d_ea8f,
            0x5e26_9039,
            0xa1be_bbc1,
            0xcaf0_9aae,
            0xa25a_b213,
            0x48a6_b46c,
            0x1b9d_9bcb,
            0x092c_5be6,
            0x546c_a624,
            0x1bec_45d5,
            0x87f4_7473,
            0x96f0_992e,
        ]
        .as_slice()
    );
    Ok(())
}

fn active_count(event: &Event) -> usize
    ensures { result ≡ count_by (λ player. not player.dropped) event.now.players }
{
    event
        .players()
        .iter()
        .filter(|player| !player.dropped)
        .count()
}

fn zero_key_order(alloc: Global, event: &Event) -> Result<Vec<u16>, AllocError> {
    let words = keys(alloc, &[0; 32], active_count(event))?;
    order(alloc, event, words.as_slice())
}

/// Whether the zero key puts the players in this order.
fn are_in_order(alloc: Global, event: &Event, expected: &[u16]) -> bool {
    zero_key_order(alloc, event).is_ok_and(|found| found.as_slice() == expected)
}

/// Whether the players of an event are in this order, and the first two of them have not met.
fn are_new_in_order(alloc: Global, event: &Event, expected: &[u16]) -> bool {
    are_in_order(alloc, event, expected) && Met::of(alloc, event).is_ok_and(|met| !met.has(1, 2))
}

/// Whether the zero key puts `count` players in this order.
fn are_put_in_order(alloc: Global, count: u16, expected: &[u16]) -> bool {
    match started(alloc, 3, 0, count) {
        Some(event) => are_new_in_order(alloc, &event, expected),
        None => false,
    }
}

/// The first rounds of worked examples 4, 5, 16 and 17.
#[test]
fn first_rounds_go_by_key(rt: HostRuntime) -> Result<(), Fail> {
    let alloc = rt.alloc();
    assert!(rt; are_put_in_order(alloc, 4, &[4, 2, 1, 3]));
    assert!(rt; are_put_in_order(alloc, 3, &[2, 1, 3, 0]));
    assert!(rt; are_put_in_order(alloc, 8, &[6, 4, 2, 1, 5, 8, 7, 3]));
    assert!(rt; are_put_in_order(alloc, 6, &[6, 4, 2, 1, 5, 3]));
    Ok(())
}

/// Four players, of whom the third has left.
fn three_of_four(alloc: Global) -> Option<Event> {
    changed(alloc, started(alloc, 3, 0, 4)?, &drop(3)?)
}

fn three_are_in_order(alloc: Global) -> Option<bool> {
    let event = three_of_four(alloc)?;
    Some(are_in_order(alloc, &event, &[2, 1, 4, 0]))
}

/// The key of a place goes to the player who is active there.
#[test]
fn dropped_players_have_no_key(rt: HostRuntime) -> Result<(), Fail> {
    assert_eq!(rt; three_are_in_order(rt.alloc()), Some(true));
    Ok(())
}

/// The numbers from 1 to the last.
fn numbers(alloc: Global, last: u16) -> Result<Vec<u16>, Fail> {
    let mut list = Vec::new(alloc);
    for number in 1..=last {
        list.push(number)?;
    }
    Ok(list)
}

/// Each of these has met all numbers from 1 to the last but itself.
fn have_met_all(rt: &impl Abort, alloc: Global, these: &[u16], last: u16) -> Result<Met, Fail> {
    let mut met = Met::empty(alloc)?;
    for one in these {
        for other in 1..=last {
            assert!(rt; *one <= MAX_PLAYERS && other <= MAX_PLAYERS);
            if *one != other {
                met.add(*one, other)?;
            }
        }
    }
    Ok(met)
}

fn pairing_of(
    rt: &impl Abort,
    alloc: Global,
    list: &[u16],
    met: &Met,
) -> Result<Vec<(u16, u16)>, PairFault> {
    assert!(rt; list.len() <= usize::from(MAX_PLAYERS) && list.len() % 2 == 0);
    first_pairing(alloc, list, met)
}

#[test]
fn those_added_have_met(rt: HostRuntime) -> Result<(), Fail> {
    let mut met = Met::empty(rt.alloc())?;
    met.add(3, 0)?;
    met.add(512, 7)?;
    assert!(rt; met.has(3, 0) && met.has(0, 3) && met.has(7, 512) && met.has(512, 7));
    assert!(rt; !met.has(7, 7) && !met.has(512, 0) && !met.has(7, 1025));
    Ok(())
}

/// Worked examples 6 and 7.
#[test]
fn goes_back_at_a_dead_end(rt: HostRuntime) -> Result<(), Fail> {
    let alloc = rt.alloc();
    let cases: [([u16; 4], [(u16, u16); 2]); 2] = [
        ([1, 2, 3, 4], [(1, 3), (2, 4)]),
        ([1, 2, 3, 0], [(1, 3), (2, 0)]),
    ];
    for (list, expected) in cases {
        let mut met = Met::empty(alloc)?;
        met.add(list[2], list[3])?;
        let found = first_pairing(alloc, &list, &met)?;
        assert_eq!(rt; found.as_slice(), expected.as_slice());
    }
    Ok(())
}

/// Worked examples 22 and 32.
#[test]
fn gives_up_for_a_reason(rt: HostRuntime) -> Result<(), Fail> {
    let alloc = rt.alloc();
    let cases: [(u16, &[u16], PairFault); 3] = [
        (14, &[14], PairFault::NoPairing),
        (16, &[16], PairFault::Budget { steps: 1_000_000 }),
        (18, &[15, 16, 17, 18], PairFault::NoPairing),
    ];
    for (last, these, why) in cases {
        let list = numbers(alloc, last)?;
        let met = have_met_all(&rt, alloc, these, last)?;
        let found = pairing_of(&rt, alloc, list.as_slice(), &met);
        assert_eq!(rt; found.err(), Some(why));
    }
    Ok(())
}

/// Worked example 50.
#[test]
fn passes_the_one_who_was_met(rt: HostRuntime) -> Result<(), Fail> {
    let alloc = rt.alloc();
    let mut met = Met::empty(alloc)?;
    met.add(1, 2)?;
    let list = numbers(alloc, 16)?;
    let found = pairing_of(&rt, alloc, list.as_slice(), &met)?;
    assert_eq!(rt;
        found.as_slice(),
        [
            (1, 3),
            (2, 4),
            (5, 6),
            (7, 8),
            (9, 10),
            (11, 12),
            (13, 14),
            (15, 16),
        ]
        .as_slice()
    );
    Ok(())
}

/// Round 4 of six players, worked out by hand: 4 is first tried with 2, which leaves 5 and 6, who have met.
#[test]
fn pairs_as_by_hand(rt: HostRuntime) -> Result<(), Fail> {
    let alloc = rt.alloc();
    let mut met = Met::empty(alloc)?;
    let rounds: [[(u16, u16); 3]; 3] = [
        [(3, 4), (5, 6), (1, 2)],
        [(3, 5), (1, 4), (2, 6)],
        [(4, 5), (3, 2), (1, 6)],
    ];
    for round in rounds {
        for (one, other) in round {
            assert!(rt; one <= MAX_PLAYERS && other <= MAX_PLAYERS);
            met.add(one, other)?;
        }
    }
    let found = first_pairing(alloc, &[1, 3, 4, 2, 5, 6], &met)?;
    assert_eq!(rt; found.as_slice(), [(1, 3), (4, 6), (2, 5)].as_slice());
    Ok(())
}

#[test]
fn nobody_is_paired_with_nobody(rt: HostRuntime) -> Result<(), Fail> {
    let met = Met::empty(rt.alloc())?;
    let found = first_pairing(rt.alloc(), &[], &met)?;
    assert!(rt; found.is_empty());
    Ok(())
}

/// Brings the list into its earliest legal pairing, two by two, entry by entry: a plain search, which the other one is compared with.
/// `None` if there is no legal pairing, and the list is then as it was.
fn paired_plainly(list: &mut [u16], met: &Met, steps: &mut u32) -> Option<()> {
    if list.len() < 2 {
        return Some(());
    }
    for passed in 0..list.len() - 1 {
        list.swap(1, passed + 1);
        if met.has(list[0], list[1]) {
            continue;
        }
        *steps = steps.saturating_add(1);
        if let Some(()) = paired_plainly(&mut list[2..], met, steps) {
            return Some(());
        }
    }
    list[1..].rotate_left(1);
    None
}

/// The pairs that the plain search finds, laid out one after the other, or why there are none.
fn plain_pairing_of(alloc: Global, list: &[u16], met: &Met) -> Result<Vec<u16>, PairFault> {
    let mut entries = Vec::from_slice(alloc, list)?;
    let mut steps = 0;
    let found = paired_plainly(entries.as_mut_slice(), met, &mut steps);
    if steps > MAX_STEPS {
        return Err(PairFault::Budget { steps: MAX_STEPS });
    }
    match found {
        Some(()) => Ok(entries),
        None => Err(PairFault::NoPairing),
    }
}

/// The next of a run of numbers that look drawn by lot (a linear congruential generator).
fn draw(state: &mut u64) -> u64 {
    *state = state
        .wrapping_mul(6_364_136_223_846_793_005)
        .wrapping_add(1_442_695_040_888_963_407);
    *state >> 33
}

/// Meetings of the numbers up to the last: `percent` of a hundred pairs have met.
fn drawn_meetings(
    rt: &impl Abort,
    alloc: Global,
    state: &mut u64,
    last: u16,
    percent: u64,
) -> Result<Met, Fail> {
    let mut met = Met::empty(alloc)?;
    for one in 0..=last {
        for other in 0..one {
            assert!(rt; one <= MAX_PLAYERS && other <= MAX_PLAYERS);
            if draw(state) % 100 < percent {
                met.add(one, other)?;
            }
        }
    }
    Ok(met)
}

/// The numbers up to the last in an order that is drawn by lot, and 0 after them if their count is odd.
fn drawn_order(
    rt: &impl Abort,
    alloc: Global,
    state: &mut u64,
    last: u16,
) -> Result<Vec<u16>, Fail> {
    let mut order = numbers(alloc, last)?;
    let list = order.as_mut_slice();
    for at in 0..list.len() {
        let other = usize::try_from(draw(state))?;
        assert!(rt; at < list.len() && !list.is_empty());
        let other = other % list.len();
        list.swap(at, other);
    }
    if last % 2 == 1 {
        order.push(0)?;
    }
    Ok(order)
}

/// Whether the pairs are the entries, two by two.
fn are_laid_out(pairs: &[(u16, u16)], entries: &[u16]) -> bool {
    let mut left = entries;
    for (one, other) in pairs {
        let [a, b, later @ ..] = left else {
            return false;
        };
        if a != one || b != other {
            return false;
        }
        left = later;
    }
    left.is_empty()
}

/// Whether both searches find the same pairs of this order, or none for the same reason.
fn is_same_search(rt: &impl Abort, alloc: Global, order: &[u16], met: &Met) -> bool {
    let found = pairing_of(rt, alloc, order, met);
    match (found, plain_pairing_of(alloc, order, met)) {
        (Ok(found), Ok(plain)) => are_laid_out(found.as_slice(), plain.as_slice()),
        (Err(found), Err(plain)) => found == plain,
        (Ok(_), Err(_)) | (Err(_), Ok(_)) => false,
    }
}

/// Whether the two agree on an order of up to fourteen numbers, with the more meetings, the greater the case.
fn agrees(rt: &impl Abort, alloc: Global, state: &mut u64, case: u16) -> Result<bool, Fail> {
    let last = case % 13 + 1;
    let met = drawn_meetings(rt, alloc, state, last, u64::from(case / 13) * 5)?;
    let order = drawn_order(rt, alloc, state, last)?;
    Ok(is_same_search(rt, alloc, order.as_slice(), &met))
}

/// Two hundred orders, with few and with many meetings.
#[test]
fn agrees_with_a_plain_search(rt: HostRuntime) -> Result<(), Fail> {
    let mut state = 1;
    for case in 0..200 {
        assert!(rt; agrees(&rt, rt.alloc(), &mut state, case)?, "case {case}");
    }
    Ok(())
}
