// Networks of operations.
use ff_net::{Net, Route, Test};
use ff_node::Cmp;
use ff_ops::{Arg, Op};
use std::alloc::Global;
use std::test::Fail;

/// A network, where there was memory for it.
pub type Made = Result<Net<Op>, Fail>;

/// The operation of a name and numbers.
pub fn op(alloc: Global, name: &str, numbers: &[i64]) -> Made {
    let mut args = Vec::new(alloc);
    for number in numbers {
        args.push(Arg::Num(*number))?;
    }
    Ok(Net::Leaf(Op::read(alloc, name.as_bytes(), &args)?))
}

/// Two operations: 1 is added, and what is there is doubled.
pub fn add_and_double(alloc: Global) -> Result<(Net<Op>, Net<Op>), Fail> {
    Ok((op(alloc, "add", &[1, 1])?, op(alloc, "mul", &[1, 2])?))
}

pub fn pipe(alloc: Global, first: Net<Op>, second: Net<Op>) -> Made {
    Ok(Net::Pipe(vec![in alloc; first, second]?))
}

pub fn comb(alloc: Global, first: Net<Op>, second: Net<Op>) -> Made {
    Ok(Net::Comb(vec![in alloc; first, second]?))
}

/// Two workers, to which comes back what has this number in its first field.
pub fn wrap(alloc: Global, worker: Net<Op>, value: i64) -> Made {
    Ok(Net::Wrap {
        workers: 2,
        worker: Box::new(alloc, worker)?,
        test: Test {
            field: 1,
            cmp: Cmp::Eq,
            value,
        },
    })
}

/// Three copies of the first network, and four of the second.
pub fn a2a(alloc: Global, left: Net<Op>, right: Net<Op>) -> Made {
    let left_node = Box::new(alloc, left)?;
    let right_node = Box::new(alloc, right)?;
    Ok(Net::A2a {
        left: 3,
        left_node,
        route: Route::Rr,
        right: 4,
        right_node,
    })
}
