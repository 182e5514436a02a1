// The printed plans are written by hand from the rules by which networks are laid.
use super::tables::{expect_told, text_of};
use ff_net::check;
use ff_plan::{Queue, plan};
use ff_text::{print_plan, read_net};
use std::alloc::Global;
use std::process::Abort;
use std::test::Fail;

// Networks, and behind a bar their printed plans.
const PLANS: &str = r#"
pipe(add 1 5, farm 2 rr (id)) | 0 stage 0 > 2 : add 1 5\n1 deal-rr 2 > 3 4\n2 stage 3 > 5 : id\n3 stage 4 > 6 : id\n4 merge 5 6 > 1\n
wrap 2 (halve 1) if 1 > 1 | 0 master 0 4 5 > 2 3 1\n1 worker 2 > 4 : halve 1\n2 worker 3 > 5 : halve 1\n
ofarm 2 od (id) | 0 odeal-od 0 > 2 3 6\n1 stage 2 > 4 : id\n2 stage 3 > 5 : id\n3 omerge-pick 4 5 6 > 1\n
ofarm 1 rr (comb(id, neg 1)) | 0 odeal-rr 0 > 2\n1 stage 2 > 3 : comb(id, neg 1)\n2 omerge-turn 3 > 1\n
farm 1 od (id) | 0 deal-od 0 > 2\n1 stage 2 > 3 : id\n2 merge 3 > 1\n
a2a 1 (id) by 1 2 (tallyby 1) | 0 deal-rr 0 > 2\n1 stage 2 > 3 : id\n2 deal-by-1 3 > 4 5\n3 merge 4 > 6\n4 merge 5 > 7\n5 stage 6 > 8 : tallyby 1\n6 stage 7 > 9 : tallyby 1\n7 merge 8 9 > 1\n
"#;

// The plan of a network is printed so.
fn check_plan(rt: &impl Abort, alloc: Global, text: &str, column: &str) -> Result<(), Fail> {
    let described = read_net(alloc, text.as_bytes())?;
    let checked = check(described.net, described.version)
        .ok()
        .ok_or("refused")?;
    let plan = plan(alloc, &checked, 8, Queue::Ring)?;
    let mut printed = Vec::new(alloc);
    print_plan(&plan, &checked, &mut printed)?;
    let want = text_of(alloc, column)?;
    expect_told(rt, text.as_bytes(), &printed, want.as_bytes());
    Ok(())
}

#[test]
fn plans_are_printed(rt: HostRuntime) -> Result<(), Fail> {
    let mut tried = 0u64;
    for line in PLANS.lines() {
        if let Some((text, column)) = line.split_once(" | ") {
            check_plan(&rt, rt.alloc(), text, column)?;
            tried = tried.saturating_add(1);
        }
    }
    assert_eq!(&rt; tried, 6);
    Ok(())
}
