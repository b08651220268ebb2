// Which hooks are called at a node.
ghost use Rattle.std.specs.Prelude.{◌≡◌, ◌<◌, MatchOption, None, drop, length};
ghost use Rattle.node_store.specs.Cursors.{through};
ghost use Rattle.visitor_machine.specs.Hooks.{fits};
ghost use Rattle.visitor_machine.specs.Machine.{key_at};
ghost use Rattle.visitor_walk.specs.Groups.{shown_hook, shown_hooks, IsFitting};

use crate::hooks::{RunHook, is_filtered};
use crate::reads::{is_same, key};
use node_store::id::NodeId;
use node_store::work::Work;

fn fits(work: &Work, hook: &RunHook, node: NodeId) -> bool
    requires { node < length work.now.nodes }
    ensures { result ≡ fits (key_at work.now.nodes node) (shown_hook hook.now) }
{
    match &hook.filter {
        Some(filter) if is_filtered(hook.event, &hook.filter) => {
            is_same(filter.as_str(), key(work, node))
        }
        _ => true,
    }
}

/// The place of the first hook, at or after a place, that fits the node's name or property.
pub fn next_fitting(work: &Work, hooks: &[RunHook], node: NodeId, from: usize) -> Option<usize>
    requires { node < length work.now.nodes }
    ensures { MatchOption result
        (through (fits (key_at work.now.nodes node)) (drop from (shown_hooks hooks.now)) ≡ None)
        (λ at. IsFitting (key_at work.now.nodes node) hooks.now from at) }
{
    for at in from..hooks.len() {
        if fits(work, &hooks[at], node) {
            return Some(at);
        }
    }
    None
}
