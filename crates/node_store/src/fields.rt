// What a node's text holds under its fields and raws.
ghost use Rattle.std.specs.Prelude.{◌≡◌, Some, None, Ok, Err, MatchResult, MatchOption};
ghost use Rattle.std.specs.Str.{chars};
ghost use Rattle.css_tree.specs.declared.node.Field.TheVariants as F;
ghost use Rattle.css_tree.specs.Parts.{field_of, source_of, important_of, raw_of};
ghost use Rattle.node_store.specs.Forest.{read_some};

use crate::fault::TreeFault;
use crate::id::NodeId;
use crate::parts;
use crate::work::Work;
use css_tree::node::{Field, Raw};

impl Work {
    fn field(&self, n: NodeId, field: Field) -> Result<&str, TreeFault>
        ensures { MatchResult result (λ s. read_some self.now n (field_of field) ≡ Ok (chars s.now)) (λ e. read_some self.now n (field_of field) ≡ Err e) }
    {
        match self.given(n) {
            Some(m) => match parts::field(self.rows.text(m), field) {
                Some(text) => Ok(text),
                None => Err(TreeFault::WrongKind),
            },
            None => Err(TreeFault::NoSuchNode),
        }
    }

    fn source(&self, n: NodeId, field: Field) -> Result<&str, TreeFault>
        ensures { MatchResult result (λ s. read_some self.now n (source_of field) ≡ Ok (chars s.now)) (λ e. read_some self.now n (source_of field) ≡ Err e) }
    {
        match self.given(n) {
            Some(m) => match parts::source(self.rows.text(m), field) {
                Some(text) => Ok(text),
                None => Err(TreeFault::WrongKind),
            },
            None => Err(TreeFault::NoSuchNode),
        }
    }

    /// A declaration's property. Refused as WrongKind where the node isn't a declaration.
    pub fn prop(&self, n: NodeId) -> Result<&str, TreeFault>
        ensures { MatchResult result (λ s. read_some self.now n (field_of F.Prop) ≡ Ok (chars s.now)) (λ e. read_some self.now n (field_of F.Prop) ≡ Err e) }
    {
        self.field(n, Field::Prop)
    }

    /// A declaration's value without its comments. Refused as WrongKind where the node isn't a declaration.
    pub fn value(&self, n: NodeId) -> Result<&str, TreeFault>
        ensures { MatchResult result (λ s. read_some self.now n (field_of F.Value) ≡ Ok (chars s.now)) (λ e. read_some self.now n (field_of F.Value) ≡ Err e) }
    {
        self.field(n, Field::Value)
    }

    /// A declaration's value as it was written. Refused as WrongKind where the node isn't a declaration.
    pub fn value_source(&self, n: NodeId) -> Result<&str, TreeFault>
        ensures { MatchResult result (λ s. read_some self.now n (source_of F.Value) ≡ Ok (chars s.now)) (λ e. read_some self.now n (source_of F.Value) ≡ Err e) }
    {
        self.source(n, Field::Value)
    }

    /// A rule's selector without its comments. Refused as WrongKind where the node isn't a rule.
    pub fn selector(&self, n: NodeId) -> Result<&str, TreeFault>
        ensures { MatchResult result (λ s. read_some self.now n (field_of F.Selector) ≡ Ok (chars s.now)) (λ e. read_some self.now n (field_of F.Selector) ≡ Err e) }
    {
        self.field(n, Field::Selector)
    }

    /// A rule's selector as it was written. Refused as WrongKind where the node isn't a rule.
    pub fn selector_source(&self, n: NodeId) -> Result<&str, TreeFault>
        ensures { MatchResult result (λ s. read_some self.now n (source_of F.Selector) ≡ Ok (chars s.now)) (λ e. read_some self.now n (source_of F.Selector) ≡ Err e) }
    {
        self.source(n, Field::Selector)
    }

    /// An at-rule's name, without the `@`. Refused as WrongKind where the node isn't an at-rule.
    pub fn name(&self, n: NodeId) -> Result<&str, TreeFault>
        ensures { MatchResult result (λ s. read_some self.now n (field_of F.Name) ≡ Ok (chars s.now)) (λ e. read_some self.now n (field_of F.Name) ≡ Err e) }
    {
        self.field(n, Field::Name)
    }

    /// An at-rule's parameters without their comments. Refused as WrongKind where the node isn't an at-rule.
    pub fn params(&self, n: NodeId) -> Result<&str, TreeFault>
        ensures { MatchResult result (λ s. read_some self.now n (field_of F.Params) ≡ Ok (chars s.now)) (λ e. read_some self.now n (field_of F.Params) ≡ Err e) }
    {
        self.field(n, Field::Params)
    }

    /// An at-rule's parameters as they were written. Refused as WrongKind where the node isn't an at-rule.
    pub fn params_source(&self, n: NodeId) -> Result<&str, TreeFault>
        ensures { MatchResult result (λ s. read_some self.now n (source_of F.Params) ≡ Ok (chars s.now)) (λ e. read_some self.now n (source_of F.Params) ≡ Err e) }
    {
        self.source(n, Field::Params)
    }

    /// A comment's text without the white space at its ends. Refused as WrongKind where the node isn't a comment.
    pub fn comment_text(&self, n: NodeId) -> Result<&str, TreeFault>
        ensures { MatchResult result (λ s. read_some self.now n (field_of F.Text) ≡ Ok (chars s.now)) (λ e. read_some self.now n (field_of F.Text) ≡ Err e) }
    {
        self.field(n, Field::Text)
    }

    /// Whether a declaration is marked important. Refused as WrongKind where the node isn't a declaration.
    pub fn important(&self, n: NodeId) -> Result<bool, TreeFault>
        ensures { result ≡ read_some self.now n important_of }
    {
        match self.given(n) {
            Some(m) => match parts::important(self.rows.text(m)) {
                Some(flag) => Ok(flag),
                None => Err(TreeFault::WrongKind),
            },
            None => Err(TreeFault::NoSuchNode),
        }
    }

    /// A raw; none where it is absent. A container's semicolon is `;` or the empty text. Refused as WrongKind where
    /// the node's kind has no such raw.
    pub fn raw(&self, n: NodeId, raw: Raw) -> Result<Option<&str>, TreeFault>
        ensures { MatchResult result
            (λ o. MatchOption o (read_some self.now n (raw_of raw) ≡ Ok None) (λ s. read_some self.now n (raw_of raw) ≡ Ok (Some (chars s.now))))
            (λ e. read_some self.now n (raw_of raw) ≡ Err e) }
    {
        match self.given(n) {
            Some(m) => parts::raw(self.rows.text(m), raw),
            None => Err(TreeFault::NoSuchNode),
        }
    }
}
