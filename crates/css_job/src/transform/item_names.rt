// The names of what a log's items speak of: events, fields and raws.
ghost use Rattle.std.specs.Prelude.{◌≡◌};
ghost use Rattle.css_job.specs.Trace.{event_name, field_name, raw_name};

use css_tree::node::{Field, Raw};
use node_store::item::Event;

/// The name of an event, as PostCSS 8 spells it.
pub fn event_name(event: Event) -> &'static str
    ensures { result.now ≡ event_name event }
{
    match event {
        Event::Once => "Once",
        Event::Root => "Root",
        Event::RootExit => "RootExit",
        Event::AtRule => "AtRule",
        Event::AtRuleExit => "AtRuleExit",
        Event::Rule => "Rule",
        Event::RuleExit => "RuleExit",
        Event::Declaration => "Declaration",
        Event::DeclarationExit => "DeclarationExit",
        Event::Comment => "Comment",
        Event::CommentExit => "CommentExit",
        Event::OnceExit => "OnceExit",
    }
}

/// The name of a field, as PostCSS 8 spells it.
pub fn field_name(field: Field) -> &'static str
    ensures { result.now ≡ field_name field }
{
    match field {
        Field::Prop => "prop",
        Field::Value => "value",
        Field::Important => "important",
        Field::Selector => "selector",
        Field::Name => "name",
        Field::Params => "params",
        Field::Text => "text",
    }
}

/// The name of a raw, as PostCSS 8 spells it; `tail` is this project's own.
pub fn raw_name(raw: Raw) -> &'static str
    ensures { result.now ≡ raw_name raw }
{
    match raw {
        Raw::Before => "before",
        Raw::After => "after",
        Raw::Between => "between",
        Raw::AfterName => "afterName",
        Raw::Left => "left",
        Raw::Right => "right",
        Raw::Important => "important",
        Raw::Tail => "tail",
        Raw::Semicolon => "semicolon",
    }
}
