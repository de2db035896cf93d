//! Nodes and tokens that are made for a source.
ghost use Rattle.std.specs.Prelude.{◌≡◌, ◌+◌, [], ◌∷◌, IfOk, IfErr, OnOk, Some};
ghost use Rattle.std.specs.Borrow.{sem};
ghost use Rattle.parser_input.specs.Kind.{raw_of};
ghost use Rattle.parser_input.specs.Kinds.{ATTR, TOMBSTONE};
ghost use Rattle.ra_parser.specs.declared.entry_points.TopEntryPoint.TheVariants as entries;
ghost use Rattle.rowan_green.specs.Forest.{Tree};
ghost use Rattle.rowan_green.specs.Term.{tree_of};
ghost use Rattle.rowan_green.specs.declared.utility_types.NodeOrToken.TheVariants.{Token};
ghost use Rattle.syntax_tree.specs.Element.{element_at};
ghost use Rattle.syntax_tree.specs.Nodes.{is_of_kind};
ghost use Rattle.syntax_tree.specs.Search.{elements};
ghost use Rattle.syntax_editor.specs.Making.{RefusesMake};
ghost use Rattle.rust_document.specs.Payload.{payload_in, Whole};
ghost use Rattle.rust_document.specs.declared.payload_entry.PayloadEntry.TheVariants.{Top};
ghost use Rattle.rust_source.specs.Lending.{LendsNumbers};
ghost use Rattle.rust_source.specs.Nodes.{attribute_text, first_node, first_of_kind, only, only_node, root_of, top_nodes, IsFound, LacksNode, RefusesNode, RefusesRoot};

use crate::error::NodeError;
use crate::source::Source;
use parser_input::SyntaxKind;
use ra_parser::TopEntryPoint;
use rust_document::{MakeError, PayloadEntry, PayloadError, SyntaxFactory};
use std::alloc::{AllocError, Global};
use syntax_tree::{SyntaxElement, SyntaxNode, SyntaxToken, TreeIds};

impl From<AllocError> for NodeError {
    ghost use Rattle.rust_source.specs.Nodes.{no_memory};
    ghost use Rattle.std.specs.Prelude.{◌≡◌};

    ghost from_gives = { λ _ e. e ≡ no_memory };

    fn from(_error: AllocError) -> NodeError {
        NodeError::Payload(PayloadError::NoMemory)
    }
}

impl From<PayloadError> for NodeError {
    ghost use Rattle.rust_source.specs.declared.error.NodeError.TheVariants.{Payload};
    ghost use Rattle.std.specs.Prelude.{◌≡◌};

    ghost from_gives = { λ x e. e ≡ Payload x };

    fn from(error: PayloadError) -> NodeError {
        NodeError::Payload(error)
    }
}

/// Returns the only child of a root that is a node.
fn only_child(alloc: Global, root: &SyntaxNode) -> Result<SyntaxNode, NodeError>
    ensures found { IfOk result (λ n. only (top_nodes root.now) ≡ Some n) }
    ensures refused { IfErr result (LacksNode (only (top_nodes root.now))) }
{
    let mut nodes = root.children(alloc)?;
    let Some(first) = nodes.next() else {
        return Err(NodeError::NotOneNode);
    };
    let first = first?;
    match nodes.next() {
        Some(Ok(_)) => Err(NodeError::NotOneNode),
        Some(Err(error)) => Err(NodeError::from(error)),
        None => Ok(first),
    }
}

/// Returns `true` if `node` is of a kind. Kinds are compared by their raw numbers.
pub fn is_of_kind(node: &SyntaxNode, kind: SyntaxKind) -> bool
    ensures { result ≡ is_of_kind (raw_of kind) node.now }
{
    node.cursor().green().kind().0 == kind.to_raw()
}

/// Returns the first node of a kind in preorder, the root among them.
fn first_node(alloc: Global, root: &SyntaxNode, kind: SyntaxKind) -> Result<SyntaxNode, NodeError>
    ensures found { IfOk result (λ n. first_of_kind (raw_of kind) (elements root.now) ≡ Some n) }
    ensures refused { IfErr result (LacksNode (first_of_kind (raw_of kind) (elements root.now))) }
{
    let kind = kind.to_raw();
    for element in root.descendants_with_tokens(alloc)? {
        if let SyntaxElement::Node(node) = element? {
            if node.cursor().green().kind().0 == kind {
                return Ok(node);
            }
        }
    }
    Err(NodeError::NotOneNode)
}

impl Source {
    /// Makes `number` the next tree number again. No element with that number is handed out.
    pub(crate) fn give_back(&mut self, number: u32)
        ensures { self.new ≡
            record { alloc = self.old.alloc; document = self.old.document; next = number } }
    {
        self.ids = TreeIds::starting_at(number);
    }

    /// Returns the root of what an entry reads. Its tree gets the next number.
    fn payload_root(&mut self, entry: TopEntryPoint, text: &str) -> Result<SyntaxNode, NodeError>
        ensures root { IfOk result (λ n. (t : Tree)
            × (payload_in (Top entry)
            self.old.document.grammar self.old.document.edition text.now ≡ Whole t)
            × (n ≡ root_of self.old.next t)) }
        ensures refused { IfErr result (RefusesRoot self.old.next
            (payload_in (Top entry)
            self.old.document.grammar self.old.document.edition text.now)) }
        ensures document { self.new.document ≡ self.old.document }
        ensures alloc { self.new.alloc ≡ self.old.alloc }
        ensures number { OnOk result (self.new.next ≡ self.old.next + 1) }
        ensures kept { IfErr result (λ _. self.new ≡ self.old) }
    {
        match self.payload(PayloadEntry::Top(entry), text)? {
            SyntaxElement::Node(root) => Ok(root),
            SyntaxElement::Token(token) => {
                // (no entry reads a leaf)
                let _leaf = token.cursor().green();
                unreachable!()
            }
        }
    }

    /// Returns the only child node of the root of what an entry reads.
    fn payload_child(&mut self, entry: TopEntryPoint, text: &str) -> Result<SyntaxNode, NodeError>
        ensures found { IfOk result (IsFound only_node self.old.next
            (payload_in (Top entry)
            self.old.document.grammar self.old.document.edition text.now)) }
        ensures refused { IfErr result (RefusesNode only_node self.old.next
            (payload_in (Top entry)
            self.old.document.grammar self.old.document.edition text.now)) }
        ensures document { self.new.document ≡ self.old.document }
        ensures alloc { self.new.alloc ≡ self.old.alloc }
        ensures number { OnOk result (self.new.next ≡ self.old.next + 1) }
        ensures kept { IfErr result (λ _. self.new ≡ self.old) }
    {
        let root = self.payload_root(entry, text)?;
        match only_child(self.alloc, &root) {
            Ok(node) => Ok(node),
            Err(error) => {
                self.give_back(root.tree());
                Err(error)
            }
        }
    }

    /// Returns the one item that a text is. The item is in a new tree, below a root; the tree gets the
    /// next number.
    ///
    /// # Errors
    ///
    /// - [`NodeError::Payload`] if the text is no payload of [`TopEntryPoint::MacroItems`].
    /// - [`NodeError::NotOneNode`] if it has no item, or more than one.
    ///
    /// On error, the source is unchanged.
    pub fn payload_item(&mut self, text: &str) -> Result<SyntaxNode, NodeError>
        ensures found { IfOk result (IsFound only_node self.old.next
            (payload_in (Top entries.MacroItems)
            self.old.document.grammar self.old.document.edition text.now)) }
        ensures refused { IfErr result (RefusesNode only_node self.old.next
            (payload_in (Top entries.MacroItems)
            self.old.document.grammar self.old.document.edition text.now)) }
        ensures document { self.new.document ≡ self.old.document }
        ensures alloc { self.new.alloc ≡ self.old.alloc }
        ensures number { OnOk result (self.new.next ≡ self.old.next + 1) }
        ensures kept { IfErr result (λ _. self.new ≡ self.old) }
    {
        self.payload_child(TopEntryPoint::MacroItems, text)
    }

    /// Returns the one statement that a text is, or the expression without a semicolon. It is in a
    /// new tree, below a root; the tree gets the next number.
    ///
    /// # Errors
    ///
    /// - [`NodeError::Payload`] if the text is no payload of [`TopEntryPoint::MacroStmts`].
    /// - [`NodeError::NotOneNode`] if it has no statement, or more than one.
    ///
    /// On error, the source is unchanged.
    pub fn payload_statement(&mut self, text: &str) -> Result<SyntaxNode, NodeError>
        ensures found { IfOk result (IsFound only_node self.old.next
            (payload_in (Top entries.MacroStmts)
            self.old.document.grammar self.old.document.edition text.now)) }
        ensures refused { IfErr result (RefusesNode only_node self.old.next
            (payload_in (Top entries.MacroStmts)
            self.old.document.grammar self.old.document.edition text.now)) }
        ensures document { self.new.document ≡ self.old.document }
        ensures alloc { self.new.alloc ≡ self.old.alloc }
        ensures number { OnOk result (self.new.next ≡ self.old.next + 1) }
        ensures kept { IfErr result (λ _. self.new ≡ self.old) }
    {
        self.payload_child(TopEntryPoint::MacroStmts, text)
    }

    /// Returns the first node of `kind`, in preorder, of what an entry reads: the root, or a node
    /// below it in the same tree. The tree gets the next number.
    ///
    /// # Errors
    ///
    /// - [`NodeError::Payload`] if the text is no payload of `entry`.
    /// - [`NodeError::NotOneNode`] if it has no such node.
    ///
    /// On error, the source is unchanged.
    pub fn payload_node(
        &mut self,
        entry: TopEntryPoint,
        kind: SyntaxKind,
        text: &str,
    ) -> Result<SyntaxNode, NodeError>
        ensures found { IfOk result (IsFound (first_node (raw_of kind)) self.old.next
            (payload_in (Top entry)
            self.old.document.grammar self.old.document.edition text.now)) }
        ensures refused { IfErr result (RefusesNode (first_node (raw_of kind)) self.old.next
            (payload_in (Top entry)
            self.old.document.grammar self.old.document.edition text.now)) }
        ensures document { self.new.document ≡ self.old.document }
        ensures alloc { self.new.alloc ≡ self.old.alloc }
        ensures number { OnOk result (self.new.next ≡ self.old.next + 1) }
        ensures kept { IfErr result (λ _. self.new ≡ self.old) }
    {
        let root = self.payload_root(entry, text)?;
        match first_node(self.alloc, &root, kind) {
            Ok(node) => Ok(node),
            Err(error) => {
                self.give_back(root.tree());
                Err(error)
            }
        }
    }

    /// Returns the first attribute of the item `TEXT struct S;`, so the attribute that a text as
    /// `#[must_use]` is. It is in a tree with that item; the tree gets the next number.
    ///
    /// # Errors
    ///
    /// - [`NodeError::Payload`] if the item is no payload of [`TopEntryPoint::SourceFile`].
    /// - [`NodeError::NotOneNode`] if it has no attribute.
    ///
    /// On error, the source is unchanged.
    pub fn payload_attribute(&mut self, text: &str) -> Result<SyntaxNode, NodeError>
        ensures found { IfOk result (IsFound (first_node ATTR) self.old.next
            (payload_in (Top entries.SourceFile)
            self.old.document.grammar self.old.document.edition (attribute_text text.now))) }
        ensures refused { IfErr result (RefusesNode (first_node ATTR) self.old.next
            (payload_in (Top entries.SourceFile)
            self.old.document.grammar self.old.document.edition (attribute_text text.now))) }
        ensures document { self.new.document ≡ self.old.document }
        ensures alloc { self.new.alloc ≡ self.old.alloc }
        ensures number { OnOk result (self.new.next ≡ self.old.next + 1) }
        ensures kept { IfErr result (λ _. self.new ≡ self.old) }
    {
        let item = format!(in self.alloc; "{text} struct S;")?;
        self.payload_node(TopEntryPoint::SourceFile, SyntaxKind::ATTR, item.as_str())
    }

    /// Returns a reference to the tree numbers, for calls that make elements.
    pub fn numbers(&mut self) -> &mut TreeIds
        ensures* writes_back { sem 𝓛 (LendsNumbers self.entry result) }
        ensures value { result.now ≡ self.old.next }
    {
        &mut self.ids
    }

    /// Returns a token of a kind and a text, in a new tree with the next number. The text is
    /// not read.
    ///
    /// # Errors
    ///
    /// - [`MakeError::TooLong`] if `text` has 2^32 bytes or more.
    /// - [`MakeError::NoTreeNumber`] if no tree number is left.
    /// - [`MakeError::NoMemory`] if an allocation fails.
    ///
    /// On error, the source is unchanged.
    pub fn make_token(&mut self, kind: SyntaxKind, text: &str) -> Result<SyntaxToken, MakeError>
        ensures made { IfOk result (λ t. t ≡ element_at self.old.next
            (tree_of TOMBSTONE (Token (record { kind = raw_of kind; text = text.now }) ∷ []))
            (0 ∷ [])) }
        ensures document { self.new.document ≡ self.old.document }
        ensures alloc { self.new.alloc ≡ self.old.alloc }
        ensures number { OnOk result (self.new.next ≡ self.old.next + 1) }
        ensures refused { IfErr result (RefusesMake text.now self.old.next) }
        ensures kept { IfErr result (λ _. self.new ≡ self.old) }
    {
        SyntaxFactory.token(self.alloc, kind, text, &mut self.ids)
    }
}
