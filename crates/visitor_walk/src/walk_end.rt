// How a walk ends.
use css_text::txt::Txt;
use node_store::item::Moment;

/// The end of a walk that did not want memory.
#[derive(Drop)]
pub enum WalkEnd {
    /// No node of the tree is dirty, and every hook of the end was called.
    Done,
    /// The call at that moment failed with this text.
    Failed { text: Txt, moment: Moment },
    /// As many calls were made as the budget allows, and one more was due at that moment.
    BudgetSpent { calls: u64, next: Moment },
    /// The call at that moment came back with more edits in all than the budget allows.
    EditBudgetSpent { edits: u64, at: Moment },
}
