// A list over lent places.
use lists::lent::{LentList, NoPlace};

#[test]
fn a_list_fills_the_first_places_and_keeps_the_others(rt: HostRuntime) {
    let mut places = [7, 8, 9];
    let mut list = LentList::over(&mut places);
    assert_eq!(rt; list.entries(), [].as_slice());
    assert_eq!(rt; list.push(1), Ok(()));
    assert_eq!(rt; list.push(2), Ok(()));
    assert!(rt; !list.is_full());
    assert_eq!(rt; list.entries(), [1, 2].as_slice());
    assert_eq!(rt; places, [1, 2, 9]);
}

#[test]
fn a_full_list_stays_as_it_is(rt: HostRuntime) {
    let mut places = [7, 8];
    let mut list = LentList::over(&mut places);
    assert_eq!(rt; list.push(1), Ok(()));
    assert_eq!(rt; list.push(2), Ok(()));
    assert!(rt; list.is_full());
    assert_eq!(rt; list.push(3), Err(NoPlace));
    assert_eq!(rt; list.entries(), [1, 2].as_slice());
    assert_eq!(rt; places, [1, 2]);
}

#[test]
fn a_list_of_no_places_is_full_from_the_start(rt: HostRuntime) {
    let mut places: [u8; 0] = [];
    let mut list = LentList::over(&mut places);
    assert!(rt; list.is_full());
    assert_eq!(rt; list.push(1), Err(NoPlace));
    assert_eq!(rt; list.entries(), [].as_slice());
}
