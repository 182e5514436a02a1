// Word count over 200,000 words, whose counts follow from how they are made.
use super::{ANY_ORDER, check_table};
use std::test::Fail;

const COUNT: &str = r#"
run --one 'pipe(words 1, lower 1, a2a 4 (id) by 1 4 (tallyby 1))' | \[10000 The cat saw  the DOG and THE Dog ran off\n to be or not to be  that is the question\n] | 0 | and\t10000\nbe\t20000\ncat\t10000\ndog\t20000\nis\t10000\nnot\t10000\noff\t10000\nor\t10000\nquestion\t10000\nran\t10000\nsaw\t10000\nthat\t10000\nthe\t40000\nto\t20000\n |
"#;

#[test]
fn word_count(rt: HostRuntime) -> Result<(), Fail> {
    check_table(&rt, rt.alloc(), COUNT, ANY_ORDER)
}
