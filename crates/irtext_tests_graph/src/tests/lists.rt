//! Lists whose first item is held in place, and lists whose items are all in a box.

use irtext_few::{Few, Growing, Lone, Rare};
use std::alloc::Global;
use std::process::Abort;

/// The items of a list, as a number with a digit for each.
fn digits(list: &Growing<u8>) -> u64 {
    let mut number: u64 = 0;
    for i in 0..list.len() {
        number = number.wrapping_mul(10).wrapping_add(list.at(i) as u64);
    }
    number
}

/// Three items are put into a list, the first is removed, and two more are added at the end.
fn grows(rt: &impl Abort, alloc: Global) -> bool {
    let mut list: Growing<u8> = Growing::new(alloc);
    let empty = list.len() == 0;
    list.push(1).expect(rt, "out of memory");
    list.push(2).expect(rt, "out of memory");
    list.push(3).expect(rt, "out of memory");
    let three = digits(&list) == 123;
    list.remove(0);
    let two = digits(&list) == 23;
    list.make_room().expect(rt, "out of memory");
    list.push_reserved(4);
    list.remove(1);
    empty && three && two && digits(&list) == 24
}

/// The only item of a list is changed.
fn changes_one(rt: &impl Abort, alloc: Global) -> bool {
    let mut one: Lone<u8> = Lone::from_few(alloc, Few::one(5)).expect(rt, "out of memory");
    one[0] = 6;
    one.len() == 1 && one[0] == 6
}

/// One of two items of a list is changed, and then both are removed.
fn changes_two(rt: &impl Abort, alloc: Global) -> bool {
    let mut two: Lone<u8> = Lone::from_few(alloc, Few::two(7, 8)).expect(rt, "out of memory");
    two[1] = 9;
    let items = two.len() == 2 && two[0] == 7 && two[1] == 9;
    two.clear();
    items & (two.len() == 0)
}

/// Lists that are made from none, from one and from several items have these.
fn is_of_items(rt: &impl Abort, alloc: Global) -> bool {
    let mut many = Vec::new(alloc);
    many.push(1).expect(rt, "out of memory");
    many.push(2).expect(rt, "out of memory");
    let many: Lone<u8> = Lone::many(many);
    let none: Lone<u8> = Lone::none();
    let one: Lone<u8> = Lone::one(3);
    none.len() == 0 && one[0] == 3 && many.len() == 2 && many[1] == 2
}

/// The only item, and one of two, of lists that are made from short ones, and lists that are made from their items.
fn alone(rt: &impl Abort, alloc: Global) -> bool {
    let one = changes_one(rt, alloc);
    let two = changes_two(rt, alloc);
    is_of_items(rt, alloc) & one & two
}

/// The only item of a list in a box is changed.
fn changes_boxed(rt: &impl Abort, alloc: Global) -> bool {
    let none: Rare<u8> = Rare::none();
    let mut one: Rare<u8> = Rare::one(alloc, 3).expect(rt, "out of memory");
    one[0] = 5;
    none.len() == 0 && one.len() == 1 && one[0] == 5
}

/// One of two items in a box is changed, and then both are removed.
fn changes_two_boxed(rt: &impl Abort, alloc: Global) -> bool {
    let mut many = Vec::new(alloc);
    many.push(1).expect(rt, "out of memory");
    many.push(2).expect(rt, "out of memory");
    let mut two: Rare<u8> = Rare::many(alloc, many).expect(rt, "out of memory");
    two[1] = 4;
    let items = two.len() == 2 && two[0] == 1 && two[1] == 4;
    two.clear();
    items & (two.len() == 0)
}

#[test]
fn lists_grow(rt: HostRuntime) {
    let grown = grows(&rt, rt.alloc());
    let lone = alone(&rt, rt.alloc());
    let boxed = changes_boxed(&rt, rt.alloc()) & changes_two_boxed(&rt, rt.alloc());
    assert!(rt; grown && lone && boxed);
}
