// What the log of a tree holds: the walk's items, and the edits.
use crate::boxed_text::BoxedText;
use crate::id::NodeId;
use css_text::txt::Txt;
use css_tree::node::{Field, Raw};
use node_rows::packed::PackedSpan;

/// The events of PostCSS 8 at which a visitor is called.
#[derive(Clone, Copy, PartialEq, Eq, Debug)]
pub enum Event {
    Once,
    Root,
    RootExit,
    AtRule,
    AtRuleExit,
    Rule,
    RuleExit,
    Declaration,
    DeclarationExit,
    Comment,
    CommentExit,
    OnceExit,
}

/// An event at a node.
#[derive(Clone, Copy, PartialEq, Eq, Debug)]
pub struct Moment {
    pub event: Event,
    pub node: NodeId,
}

/// One change of the tree. The order of the fields keeps an item of the log at 32 bytes, since fields lie in their order.
#[derive(Drop)]
pub enum Edit {
    Set {
        field: Field,
        node: NodeId,
        text: Txt,
    },
    SetRaw {
        raw: Raw,
        node: NodeId,
        text: Txt,
    },
    /// A node is made. Its text has a box of its own, since nearly all items of a log hold no node: an item would take 192
    /// bytes with the text inside it.
    New {
        node: NodeId,
        text: BoxedText,
        span: PackedSpan,
    },
    Insert {
        node: NodeId,
        parent: NodeId,
        at: u32,
    },
    Remove {
        node: NodeId,
    },
}

/// One entry of the log.
#[derive(Drop)]
pub enum Item {
    /// A pass over the tree begins.
    Pass,
    Enter(NodeId),
    /// The hook of that place in the plugin of that place on the shelf is called.
    Call {
        plugin: u32,
        hook: u32,
        moment: Moment,
    },
    Edit(Edit),
    /// The call came back, with a text where it failed.
    Back {
        fault: Option<Txt>,
    },
    Leave(NodeId),
    End,
}

const _: () = prove!(size_of::<Item>() == 32);
