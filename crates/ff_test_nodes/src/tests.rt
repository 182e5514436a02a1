// What no clause says: that memory is there, so that each call does its work.
use crate::Silent;
use ff_node::{Class, Next, Node, Sends, node_end, node_step};
use ff_rec::{Field, Record};
use std::test::Fail;

#[test]
fn a_silent_node(rt: HostRuntime) -> Result<(), Fail> {
    for class in [Class::Plain, Class::Ordered, Class::Fold, Class::Keyed(2)] {
        let mut node = Silent { class }.copy()?;
        assert!(rt; node.class() == class);
        let mut out = Sends::new(rt.alloc(), true);
        let field = Field::new(rt.alloc(), b"a")?;
        node.svc_init();
        let next = node_step(&mut node, Record::one(rt.alloc(), &field)?, &mut out)?;
        assert!(rt; next == Next::GoOn);
        node_end(&mut node, &mut out)?;
        assert_eq!(rt; out.len(), 0);
        assert_eq!(rt; out.rejects(), 0);
    }
    Ok(())
}
