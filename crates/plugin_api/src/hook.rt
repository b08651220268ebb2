// Hooks of plugins.
use crate::visitor::Visitor;
use css_text::txt::Txt;
use node_store::item::Event;

/// A visitor with the event at which it is called. At the events of at-rules and declarations a filter leaves only the
/// nodes whose name or property is that text in any ASCII case; `*` leaves all.
#[derive(Drop)]
pub struct Hook {
    pub event: Event,
    pub filter: Option<Txt>,
    pub visitor: Box<dyn Visitor>,
}
