// What models and clocks answer.
use memory::clocks::{Clock, GlobalClock, NoClock};
use memory::kinds::Kind;
use memory::models::{Godson, Model, Sc};
use std::process::Abort;

// What a model answers of an earlier record, for a later load, store and fence.
fn answers<M: Model>(model: &M, earlier: Kind, same: bool) -> (bool, bool, bool) {
    (
        model.must_precede(earlier, Kind::Load, same),
        model.must_precede(earlier, Kind::Store, same),
        model.must_precede(earlier, Kind::Fence, same),
    )
}

fn answer_rightly(rt: &impl Abort, same: bool) {
    assert_eq!(rt; answers(&Sc, Kind::Load, same), (true, true, true));
    assert_eq!(rt; answers(&Sc, Kind::Store, same), (true, true, true));
    assert_eq!(rt; answers(&Sc, Kind::Fence, same), (true, true, true));
    assert_eq!(rt; answers(&Godson, Kind::Load, same), (false, true, true));
    assert_eq!(rt; answers(&Godson, Kind::Store, same), (false, true, true));
    assert_eq!(rt; answers(&Godson, Kind::Fence, same), (true, true, true));
}

#[test]
fn sc_orders_every_pair_and_godson_no_load_but_behind_a_fence(rt: HostRuntime) {
    assert_eq!(rt; (<Sc as Model>::MARK, <Godson as Model>::MARK), (1, 3));
    answer_rightly(&rt, false);
    answer_rightly(&rt, true);
}

#[test]
fn the_global_clock_compares_readings_and_the_other_says_nothing(rt: HostRuntime) {
    assert_eq!(rt;
        (<GlobalClock as Clock>::MARK, <NoClock as Clock>::MARK),
        (1, 3)
    );
    assert!(rt; !GlobalClock.surely_earlier(0, 10, 1, 10));
    assert!(rt; GlobalClock.surely_earlier(0, 10, 1, 11));
    assert!(rt; !GlobalClock.surely_earlier(0, 11, 1, 10));
    assert!(rt; GlobalClock.surely_earlier(1, 10, 1, 11));
    assert!(rt; GlobalClock.surely_earlier(0, 0, 15, u64::MAX));
    assert!(rt; !NoClock.surely_earlier(0, 10, 1, 11));
    assert!(rt; !NoClock.surely_earlier(0, 0, 0, u64::MAX));
}
