// What is printed of one node.
use crate::walks::sheet;
use css_text::stop::Stop;
use node_store::fault::TreeFault;
use node_store::id::NodeId;
use node_store::work::Work;
use std::alloc::Global;
use std::process::Abort;
use std::test::Fail;
use stringify::printed::print_node;

fn expect_printed(rt: &impl Abort, alloc: Global, work: &Work) {
    match print_node(alloc, work, NodeId::new(2)) {
        Ok(printed) => assert_eq!(rt; printed.text.as_str(), "b:c"),
        Err(_) => assert!(rt; false),
    }
    match print_node(alloc, work, NodeId::new(9)) {
        Err(Stop::Fault(fault)) => assert_eq!(rt; fault, TreeFault::NoSuchNode),
        _ => assert!(rt; false),
    }
}

#[test]
fn prints_one_node(rt: HostRuntime) -> Result<(), Fail> {
    match sheet(rt.alloc(), "a{b:c}") {
        Some(work) => expect_printed(&rt, rt.alloc(), &work),
        None => assert!(rt; false),
    }
    Ok(())
}
