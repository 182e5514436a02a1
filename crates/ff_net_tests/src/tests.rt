// Networks that break each rule, and networks at the limits.
mod tasks;

use ff_net::{Checked, Net, Path, Route, RuleFault, Sched, Test, Version, check};
use ff_node::{Class, Cmp};
use ff_test_nodes::Silent;
use std::alloc::{AllocError, Global};
use std::test::Fail;

// A network, where there was memory for it.
type Made = Result<Net<Silent>, AllocError>;

fn leaf(class: Class) -> Made {
    Ok(Net::Leaf(Silent { class }))
}

fn id() -> Made {
    leaf(Class::Plain)
}

fn pipe(alloc: Global, first: Made, second: Made) -> Made {
    Ok(Net::Pipe(vec![in alloc; first?, second?]?))
}

fn pipe_of_one(alloc: Global, part: Made) -> Made {
    Ok(Net::Pipe(vec![in alloc; part?]?))
}

// A pipe of so many nodes.
fn row(alloc: Global, parts: usize) -> Made {
    let mut list = Vec::new(alloc);
    for _ in 0..parts {
        list.push(id()?)?;
    }
    Ok(Net::Pipe(list))
}

// A node in so many pipes.
fn nested(alloc: Global, pipes: usize) -> Made {
    let mut net = id();
    for _ in 0..pipes {
        net = pipe_of_one(alloc, net);
    }
    net
}

fn comb(alloc: Global, first: Made, second: Made) -> Made {
    Ok(Net::Comb(vec![in alloc; first?, second?]?))
}

fn farm(alloc: Global, workers: u32, worker: Made) -> Made {
    Ok(Net::Farm {
        workers,
        sched: Sched::Rr,
        worker: Box::new(alloc, worker?)?,
    })
}

fn ofarm(alloc: Global, workers: u32, worker: Made) -> Made {
    Ok(Net::OFarm {
        workers,
        sched: Sched::Od,
        worker: Box::new(alloc, worker?)?,
    })
}

fn a2a(
    alloc: Global,
    left: u32,
    left_node: Made,
    route: Route,
    right: u32,
    right_node: Made,
) -> Made {
    let left_node = Box::new(alloc, left_node?)?;
    let right_node = Box::new(alloc, right_node?)?;
    Ok(Net::A2a {
        left,
        left_node,
        route,
        right,
        right_node,
    })
}

fn wrap(alloc: Global, workers: u32, worker: Made, field: u32) -> Made {
    Ok(Net::Wrap {
        workers,
        worker: Box::new(alloc, worker?)?,
        test: Test {
            field,
            cmp: Cmp::Gt,
            value: 1,
        },
    })
}

fn is_at(path: &Path, place: &[usize]) -> bool {
    if path.len() != place.len() {
        return false;
    }
    for k in 0..path.len() {
        if k < place.len() && path.child(k) != place[k] {
            return false;
        }
    }
    true
}

// Whether the network is refused in this version, with this rule and place.
fn names(net: Made, version: Version, rule: u8, place: &[usize]) -> bool {
    let Ok(net) = net else {
        return false;
    };
    let Some(fault) = check(net, version).err() else {
        return false;
    };
    fault.rule == rule && is_at(&fault.path, place)
}

fn refuses(net: Made, rule: u8, place: &[usize]) -> bool {
    names(net, Version::One, rule, place)
}

fn accepts(net: Made, version: Version) -> bool {
    match net {
        Ok(net) => check(net, version).is_ok(),
        Err(_) => false,
    }
}

#[test]
fn each_rule_is_named_with_its_place(rt: HostRuntime) {
    let alloc = rt.alloc();
    assert!(rt; refuses(nested(alloc, 16), 1, &[1; 16]));
    assert!(rt; refuses(row(alloc, 65), 2, &[]));
    assert!(rt; refuses(pipe(alloc, id(), row(alloc, 0)), 2, &[2]));
    assert!(rt; refuses(farm(alloc, 65, id()), 3, &[]));
    assert!(rt; refuses(a2a(alloc, 1, id(), Route::Rr, 0, id()), 3, &[]));
    assert!(rt; refuses(farm(alloc, 64, row(alloc, 2)), 4, &[]));
    assert!(rt;
        names(
            a2a(alloc, 40, id(), Route::Rr, 50, id()),
            Version::Two,
            5,
            &[]
        )
    );
}

#[test]
fn each_rule_of_classes_is_named_with_its_place(rt: HostRuntime) {
    let alloc = rt.alloc();
    assert!(rt; refuses(comb(alloc, id(), row(alloc, 1)), 6, &[2]));
    assert!(rt;
        refuses(
            farm(alloc, 2, pipe(alloc, id(), leaf(Class::Fold))),
            7,
            &[1, 2]
        )
    );
    assert!(rt; refuses(ofarm(alloc, 2, farm(alloc, 2, id())), 8, &[1]));
    assert!(rt; refuses(ofarm(alloc, 2, leaf(Class::Ordered)), 8, &[1]));
    assert!(rt;
        refuses(
            a2a(alloc, 2, leaf(Class::Keyed(1)), Route::By(1), 2, id()),
            9,
            &[1]
        )
    );
    assert!(rt;
        refuses(
            a2a(alloc, 2, id(), Route::By(1), 2, leaf(Class::Fold)),
            9,
            &[2]
        )
    );
    let behind = pipe(alloc, farm(alloc, 4, id()), leaf(Class::Ordered));
    assert!(rt; refuses(behind, 10, &[2]));
}

#[test]
fn each_rule_of_keys_and_wraps_is_named_with_its_place(rt: HostRuntime) {
    let alloc = rt.alloc();
    assert!(rt;
        refuses(
            a2a(alloc, 2, id(), Route::By(2), 2, leaf(Class::Keyed(1))),
            11,
            &[2]
        )
    );
    assert!(rt;
        refuses(
            a2a(alloc, 2, id(), Route::Rr, 2, leaf(Class::Keyed(1))),
            11,
            &[2]
        )
    );
    assert!(rt; refuses(wrap(alloc, 1, leaf(Class::Fold), 1), 12, &[1]));
    let inside = farm(alloc, 2, wrap(alloc, 1, id(), 1));
    assert!(rt; refuses(pipe(alloc, id(), inside), 13, &[2, 1]));
    let deeper = pipe_of_one(alloc, pipe_of_one(alloc, wrap(alloc, 1, id(), 1)));
    assert!(rt; refuses(deeper, 13, &[1, 1]));
    assert!(rt; refuses(wrap(alloc, 1, id(), 0), 14, &[]));
    assert!(rt; refuses(a2a(alloc, 1, id(), Route::By(65), 1, id()), 14, &[]));
}

#[test]
fn the_lowest_rule_is_named_first(rt: HostRuntime) {
    let alloc = rt.alloc();
    let counts = pipe(alloc, farm(alloc, 65, id()), row(alloc, 0));
    assert!(rt; refuses(counts, 2, &[2]));
    let first = pipe(alloc, row(alloc, 0), row(alloc, 65));
    assert!(rt; refuses(first, 2, &[1]));
    let sets = a2a(alloc, 1, row(alloc, 0), Route::Rr, 1, row(alloc, 65));
    assert!(rt; refuses(sets, 2, &[1]));
    let two = pipe(
        alloc,
        farm(alloc, 2, id()),
        ofarm(alloc, 2, leaf(Class::Ordered)),
    );
    assert!(rt; refuses(two, 8, &[2, 1]));
}

#[test]
fn networks_at_the_limits(rt: HostRuntime) {
    let alloc = rt.alloc();
    assert!(rt; accepts(nested(alloc, 15), Version::One));
    assert!(rt; accepts(row(alloc, 64), Version::One));
    assert!(rt; accepts(farm(alloc, 64, id()), Version::One));
    assert!(rt; accepts(farm(alloc, 63, row(alloc, 2)), Version::One));
    assert!(rt; accepts(farm(alloc, 64, row(alloc, 2)), Version::Two));
    assert!(rt;
        accepts(
            a2a(alloc, 2, id(), Route::By(64), 2, leaf(Class::Keyed(64))),
            Version::One
        )
    );
    assert!(rt;
        accepts(
            pipe(alloc, wrap(alloc, 1, id(), 1), leaf(Class::Fold)),
            Version::One
        )
    );
    let ordered = pipe(alloc, leaf(Class::Ordered), ofarm(alloc, 2, row(alloc, 2)));
    assert!(rt; accepts(pipe(alloc, ordered, farm(alloc, 2, id())), Version::One));
}

fn checked(net: Made) -> Result<Checked<Silent>, Fail> {
    Ok(check(net?, Version::Two).ok().ok_or("refused")?)
}

#[test]
fn what_a_checked_pipe_tells(rt: HostRuntime) -> Result<(), Fail> {
    let line = checked(row(rt.alloc(), 2))?;
    assert!(rt; line.is_ordered() && line.sweeps() && !line.has_wrap());
    assert!(rt; !line.has_copies());
    assert!(rt; matches!(line.net(), Net::Pipe(_)));
    assert_eq!(rt; line.version(), Version::Two);
    Ok(())
}

#[test]
fn what_a_checked_ordered_farm_tells(rt: HostRuntime) -> Result<(), Fail> {
    let picks = checked(ofarm(rt.alloc(), 2, id()))?;
    assert!(rt; picks.is_ordered() && !picks.sweeps() && picks.has_copies());
    Ok(())
}

#[test]
fn what_checked_farms_and_sets_tell(rt: HostRuntime) -> Result<(), Fail> {
    let alloc = rt.alloc();
    let line = checked(pipe(alloc, id(), farm(alloc, 2, id())))?;
    let sets = checked(a2a(alloc, 1, id(), Route::Rr, 1, id()))?;
    assert!(rt; !line.is_ordered() && !sets.is_ordered());
    assert!(rt; !line.has_wrap() && line.sweeps() && line.has_copies());
    Ok(())
}

#[test]
fn what_a_checked_wrap_tells(rt: HostRuntime) -> Result<(), Fail> {
    let alloc = rt.alloc();
    let round = checked(pipe(alloc, wrap(alloc, 1, id(), 1), id()))?;
    assert!(rt; round.has_wrap() && !round.is_ordered() && !round.sweeps());
    Ok(())
}

#[test]
fn what_a_network_holds(rt: HostRuntime) -> Result<(), Fail> {
    let alloc = rt.alloc();
    let sets = a2a(alloc, 3, leaf(Class::Keyed(1)), Route::Rr, 4, row(alloc, 2));
    let net = pipe(alloc, sets, farm(alloc, 2, leaf(Class::Ordered)))?;
    assert_eq!(rt; net.depth(), 4);
    let nodes = net.copy(alloc)?.nodes(alloc)?;
    assert_eq!(rt; nodes.len(), 4);
    assert!(rt; nodes[0].class == Class::Keyed(1));
    assert!(rt; nodes[2].class == Class::Plain);
    assert!(rt; nodes[3].class == Class::Ordered);
    Ok(())
}

// The numbers of a network's own form.
fn numbers(net: &Net<Silent>) -> (u32, u32) {
    match net {
        Net::Farm { workers, .. } | Net::OFarm { workers, .. } | Net::Wrap { workers, .. } => {
            (*workers, 0)
        }
        Net::A2a { left, right, .. } => (*left, *right),
        Net::Leaf(_) | Net::Pipe(_) | Net::Comb(_) => (0, 0),
    }
}

fn numbers_of_copy(alloc: Global, net: Made) -> Result<(u32, u32), Fail> {
    Ok(numbers(&net?.copy(alloc)?))
}

#[test]
fn a_copy_has_the_same_numbers(rt: HostRuntime) -> Result<(), Fail> {
    let alloc = rt.alloc();
    let found = [
        numbers_of_copy(alloc, farm(alloc, 2, id()))?,
        numbers_of_copy(alloc, ofarm(alloc, 3, id()))?,
        numbers_of_copy(alloc, wrap(alloc, 4, id(), 1))?,
        numbers_of_copy(alloc, a2a(alloc, 5, id(), Route::Rr, 6, id()))?,
    ];
    assert_eq!(rt; found, [(2, 0), (3, 0), (4, 0), (5, 6)]);
    Ok(())
}

#[test]
fn a_path_of_steps(rt: HostRuntime) {
    let mut path = Path::top();
    path.push(3);
    path.push(1);
    assert_eq!(rt; path.len(), 2);
    assert_eq!(rt; path.child(0), 3);
    assert_eq!(rt; path.child(1), 1);
}
