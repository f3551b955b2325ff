//! Places, cells and channels.

use space::place::Linear;
use space::resolve::{banks_of, resolve, window};
use space::store::{Store, changed};
use space::{Addr12, Bank, Chan, Eras, Offset};
use std::process::Abort;
use words::Wide;

/// An erasable place of a test.
fn eras(place: u16) -> Eras {
    Eras::of_low_bits(place)
}

/// Stores a number at a place.
fn put(store: &mut Store, place: Eras, number: u16) {
    store.write(place, Wide::of_u16(number));
}

/// What is read at a place.
fn get(store: &Store, place: Eras) -> u16 {
    store.read(place).to_u16()
}

/// What is read of a channel.
fn on(store: &Store, channel: Chan) -> u16 {
    store.channel(channel).to_u16()
}

#[test]
fn superbank_place(rt: HostRuntime) {
    let mut store = Store::zero();
    put(&mut store, Eras::FB, 0o160000);
    let address = Addr12::of_low_bits(0o2000);
    let offset = Offset::of_low_bits(0);
    let bank = Bank::try_new(0o30).expect(&rt, "a bank");
    let upper = Bank::try_new(0o40).expect(&rt, "a bank");
    store.set_channel(Chan::SUPERBANK, Wide::of_u16(0));
    assert_eq!(rt;
        resolve(address, store.banks()),
        Linear::Fixed(bank, offset)
    );
    store.set_channel(Chan::SUPERBANK, Wide::of_u16(0o100));
    assert_eq!(rt;
        resolve(address, store.banks()),
        Linear::Fixed(upper, offset)
    );
}

#[test]
fn windows_of_places(rt: HostRuntime) {
    for (place, address, eb) in [
        (0, 0, 0),
        (0o1377, 0o1377, 2),
        (0o1400, 0o1400, 3),
        (0o3777, 0o1777, 7),
    ] {
        assert_eq!(rt;
            window(Linear::Erasable(eras(place))).number(),
            address,
            "at {place}"
        );
        assert_eq!(rt;
            banks_of(Linear::Erasable(eras(place))).eb,
            eb,
            "at {place}"
        );
    }
    let offset = Offset::of_low_bits(1);
    for (number, address, fb, sup) in [
        (0, 0o2001, 0, false),
        (2, 0o4001, 2, false),
        (3, 0o6001, 3, false),
        (0o33, 0o2001, 0o33, false),
        (0o43, 0o2001, 0o33, true),
    ] {
        let bank = Bank::try_new(number).expect(&rt, "a bank");
        assert_eq!(rt;
            window(Linear::Fixed(bank, offset)).number(),
            address,
            "in {number}"
        );
        let banks = banks_of(Linear::Fixed(bank, offset));
        assert_eq!(rt; banks.fb, fb, "in {number}");
        assert_eq!(rt; banks.sup, sup, "in {number}");
    }
}

#[test]
fn changed_places(rt: HostRuntime) {
    let one = Store::zero();
    for (cell, number, first, second) in [(Eras::FB, 0o12000, 4, 6), (Eras::BB, 3, 3, 6)] {
        let mut other = Store::zero();
        let mut places = [0; 2048];
        assert_eq!(rt; changed(&one, &other, &mut places), 0);
        put(&mut other, cell, number);
        assert_eq!(rt; changed(&one, &other, &mut places), 2);
        assert_eq!(rt; places[0], first);
        assert_eq!(rt; places[1], second);
    }
}

#[test]
fn changed_places_rise(rt: HostRuntime) {
    let one = Store::zero();
    let mut other = Store::zero();
    let mut places = [0; 2048];
    for place in [0o3777, 0o40, 0, 0o37] {
        put(&mut other, eras(place), 0o12345);
    }
    assert_eq!(rt; changed(&one, &other, &mut places), 4);
    assert_eq!(rt; places[0], 0);
    assert_eq!(rt; places[1], 0o37);
    assert_eq!(rt; places[2], 0o40);
    assert_eq!(rt; places[3], 0o3777);
}

#[test]
fn changed_place_of_each_lane(rt: HostRuntime) {
    let one = Store::zero();
    // places that are read one by one, and a chunk of lanes
    for place in 0o10..0o100 {
        only_place_that_differs(&rt, &one, place);
    }
    // the last chunk
    for place in 0o3740..0o4000 {
        only_place_that_differs(&rt, &one, place);
    }
}

/// Whether a place that alone differs is handed over, whichever of the stores holds the greater word.
fn only_place_that_differs(rt: &impl Abort, one: &Store, place: u16) {
    let mut other = Store::zero();
    let mut places = [0o7777; 2048];
    put(&mut other, eras(place), 0o12345);
    assert_eq!(rt; changed(one, &other, &mut places), 1, "at {place}");
    assert_eq!(rt; places[0], place);
    assert_eq!(rt; changed(&other, one, &mut places), 1, "at {place}");
    assert_eq!(rt; places[0], place);
    assert_eq!(rt; places[1], 0o7777, "past {place}");
}

#[test]
fn superbank_channel(rt: HostRuntime) {
    let mut store = Store::zero();
    store.set_channel(Chan::SUPERBANK, Wide::of_u16(0o100));
    assert_eq!(rt; on(&store, Chan::SUPERBANK), 0o100);
    store.set_channel(Chan::SUPERBANK, Wide::of_u16(0o777));
    assert_eq!(rt; on(&store, Chan::SUPERBANK), 0o160);
}

#[test]
fn registers_are_channels(rt: HostRuntime) {
    let mut store = Store::zero();
    store.set_channel(Chan::L, Wide::of_u16(0o177776));
    store.set_channel(Chan::Q, Wide::of_u16(0o140001));
    assert_eq!(rt; get(&store, Eras::L), 0o177776);
    assert_eq!(rt; get(&store, Eras::Q), 0o140001);
    assert_eq!(rt; on(&store, Chan::Q), 0o140001);
    let channel = Chan::try_new(0o10).expect(&rt, "a channel");
    store.set_channel(channel, Wide::of_u16(0o100012));
    assert_eq!(rt; on(&store, channel), 0o140012);
}

#[test]
fn cycle_right_edits_again(rt: HostRuntime) {
    let mut store = Store::zero();
    put(&mut store, Eras::CYR, 1);
    let read = store.read(Eras::CYR);
    assert_eq!(rt; read.to_u16(), 0o140000);
    store.write(Eras::CYR, read);
    assert_eq!(rt; get(&store, Eras::CYR), 0o20000);
}

#[test]
fn cells_that_edit_or_cut(rt: HostRuntime) {
    for (cell, number, read) in [
        (Eras::A, 0o40000, 0o40000),
        (Eras::L, 0o40001, 1),
        (Eras::Q, 0o100001, 0o100001),
        (Eras::EB, 0o3777, 0o3400),
        (Eras::FB, 0o17777, 0o16000),
        (Eras::Z, 0o37777, 0o7777),
        (Eras::BB, 0o177777, 0o176007),
        (Eras::ZERO, 0o12345, 0),
        (Eras::SR, 0o140003, 0o160001),
        (Eras::CYL, 0o140000, 1),
        (Eras::EDOP, 0o177777, 0o177),
        (Eras::ARUPT, 0o177776, 0o177776),
    ] {
        let mut store = Store::zero();
        put(&mut store, cell, number);
        assert_eq!(rt; get(&store, cell), read, "at {cell:?}");
    }
}

#[test]
fn copies_are_equal(rt: HostRuntime) {
    let mut one = Store::zero();
    put(&mut one, eras(0o3777), 5);
    let mut other = Store::zero();
    one.copy_to(&mut other);
    let mut places = [0; 2048];
    assert_eq!(rt; changed(&one, &other, &mut places), 0);
    assert_eq!(rt; get(&other, eras(0o3777)), 5);
    assert_eq!(rt; Eras::try_new(0o4000), None);
}
