// What no clause says of a `Thin`: its size, that values are let go once, that it crosses threads.

use std::mem::size_of;
use std::rc::Rc;
use thin::Thin;

fn moves_to_a_thread<T: Send>(_value: &T) {}

fn is_shared_by_threads<T: Sync>(_value: &T) {}

#[test]
fn a_thin_is_one_word(rt: HostRuntime) {
    assert_eq!(rt; size_of::<Thin<u8>>(), 8);
    assert_eq!(rt; size_of::<Thin<[u64; 100]>>(), 8);
}

#[test]
fn a_value_is_changed_in_place(rt: HostRuntime) {
    let mut thin = Thin::some(rt.alloc(), 7u64).expect(&rt, "memory");
    if let Some(value) = thin.as_mut() {
        *value += 1;
    }
    assert_eq!(rt; thin.as_ref().copied(), Some(8));
    assert_eq!(rt; thin.take(), Some(8));
    assert!(rt; thin.is_none());
}

#[test]
fn a_copy_stays_when_its_original_is_taken(rt: HostRuntime) {
    let mut thin = Thin::some(rt.alloc(), 7u64).expect(&rt, "memory");
    let copy = thin.clone().expect(&rt, "memory");
    assert!(rt; thin == copy);
    let _ = thin.take();
    assert!(rt; thin != copy);
    assert_eq!(rt; copy.into_inner(), Some(7));
}

#[test]
fn it_prints_as_an_option(rt: HostRuntime) {
    let thin = Thin::some(rt.alloc(), 7u64).expect(&rt, "memory");
    let text = format!(in rt.alloc(); "{thin:?}").expect(&rt, "memory");
    assert_eq!(rt; text.as_str(), "Some(7)");
}

// The count of the value's owners comes back to one.
#[test]
fn a_dropped_thin_lets_its_value_go_once(rt: HostRuntime) {
    let counted = Rc::new(rt.alloc(), 1u8).expect(&rt, "memory");
    let owner = Rc::clone(&counted).expect(&rt, "memory");
    let thin = Thin::some(rt.alloc(), owner).expect(&rt, "memory");
    assert_eq!(rt; Rc::strong_count(&counted), 2);
    drop(thin);
    assert_eq!(rt; Rc::strong_count(&counted), 1);
}

#[test]
fn an_overwritten_thin_lets_its_value_go_once(rt: HostRuntime) {
    let counted = Rc::new(rt.alloc(), 1u8).expect(&rt, "memory");
    let owner = Rc::clone(&counted).expect(&rt, "memory");
    let mut thin = Thin::some(rt.alloc(), owner).expect(&rt, "memory");
    thin = Thin::none(rt.alloc());
    assert_eq!(rt; Rc::strong_count(&counted), 1);
    assert!(rt; thin.is_none());
}

#[test]
fn it_crosses_threads_where_its_value_does(rt: HostRuntime) {
    let thin = Thin::some(rt.alloc(), 7u64).expect(&rt, "memory");
    moves_to_a_thread(&thin);
    is_shared_by_threads(&thin);
    assert_eq!(rt; thin.into_inner(), Some(7));
}
