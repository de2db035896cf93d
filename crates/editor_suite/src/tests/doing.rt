//! Records changes and shows the outcome.
use crate::tests::tree::{Tree, payload, root};
use std::alloc::Global;
use std::test::Fail;
use syntax_editor::{FinishError, RecordError, SyntaxEdit, SyntaxEditor};
use syntax_tree::{Position, SyntaxElement, SyntaxMappingBuilder, SyntaxNode, TreeIds};

/// The up-path of a parent, and the index of the child that follows the gap.
pub type Gap<'a> = (&'a [usize], usize);

/// A call on an editor. Elements are named by their up-paths, payloads by their texts.
///
/// `Remove` replaces an element with none. `Wrap` replaces the path with one in parentheses; if its
/// flag is set, the old path is mapped to the new one.
#[derive(Clone, Copy)]
pub enum Do<'a> {
    Insert(Gap<'a>, &'a [&'static str]),
    Replace(&'a [usize], &'static str),
    Delete(&'a [usize]),
    Many(&'a [usize], &'a [&'static str]),
    Remove(&'a [usize]),
    DeleteAll(&'a [usize], &'a [usize]),
    ReplaceAll(&'a [usize], &'a [usize], &'a [&'static str]),
    Deleted(&'a [usize]),
    Foreign(&'a [usize]),
    Wrap(bool),
}

/// An editor, the numbers of its payloads' trees, and the payloads by their texts.
#[derive(Drop)]
struct Bench {
    alloc: Global,
    ids: TreeIds,
    editor: SyntaxEditor,
    payloads: Vec<(&'static str, SyntaxElement)>,
    out: String,
}

impl Bench {
    fn element(&self, way: &[usize]) -> Result<SyntaxElement, Fail> {
        match self.editor.root().element_at(self.alloc, way)? {
            Some(element) => Ok(element),
            None => Err(Fail::new("no such element")),
        }
    }

    /// Returns the payload of a text: the same element for each use of that text.
    fn payload(&mut self, text: &'static str) -> Result<SyntaxElement, Fail> {
        for (known, element) in &self.payloads {
            if *known == text {
                return Ok(element.clone()?);
            }
        }
        let element = payload(self.alloc, text, &mut self.ids)?;
        let copy = element.clone()?;
        self.payloads.push((text, copy))?;
        Ok(element)
    }

    fn all(&mut self, texts: &[&'static str]) -> Result<Vec<SyntaxElement>, Fail> {
        let mut all = Vec::new(self.alloc);
        for text in texts {
            let element = self.payload(*text)?;
            all.push(element)?;
        }
        Ok(all)
    }

    fn place(&self, (parent, index): Gap<'_>) -> Result<Position, Fail> {
        match self.element(parent)? {
            SyntaxElement::Node(parent) => Ok(Position { parent, index }),
            SyntaxElement::Token(_) => Err(Fail::new("a token has no gaps")),
        }
    }

    fn insert_at(&mut self, place: Position, new: Vec<SyntaxElement>) -> Result<(), Fail> {
        let recorded = match new.as_slice() {
            [one] => self.editor.insert(self.alloc, place, one),
            _ => self.editor.insert_all(self.alloc, place, new),
        };
        self.tell(recorded)
    }

    fn insert(&mut self, gap: Gap<'_>, texts: &[&'static str]) -> Result<(), Fail> {
        let new = self.all(texts)?;
        self.insert_at(self.place(gap)?, new)
    }

    /// Deletes an element of another tree, which is an error.
    fn foreign(&mut self, way: &[usize]) -> Result<(), Fail> {
        let other = root(self.alloc, Tree::Args, &mut self.ids)?;
        match other.element_at(self.alloc, way)? {
            Some(element) => self.delete_element(&element),
            None => Err(Fail::new("no such element")),
        }
    }

    /// Maps the path in the file to the one in parentheses.
    fn map(&mut self, parens: &SyntaxNode) -> Result<(), Fail> {
        let mut builder = SyntaxMappingBuilder::new(self.alloc, parens.clone()?)?;
        let input = path(self.alloc, self.editor.root())?;
        builder.map_node(self.alloc, input, path(self.alloc, parens)?)?;
        builder.finish(self.editor.mappings())?;
        Ok(())
    }

    /// Replaces the path in the file with one in parentheses; maps it there if `is_mapped`.
    fn wrap(&mut self, is_mapped: bool) -> Result<(), Fail> {
        let parens = root(self.alloc, Tree::Wrapped, &mut self.ids)?;
        if is_mapped {
            self.map(&parens)?;
        }
        self.replace_by(&[0], &SyntaxElement::Node(parens))
    }

    fn deleted(&mut self, way: &[usize]) -> Result<(), Fail> {
        let element = self.element(way)?;
        let is_deleted = self.editor.deleted(&element);
        let word = if is_deleted { "true " } else { "false " };
        Ok(self.out.push_str(word)?)
    }

    fn replace_by(&mut self, way: &[usize], new: &SyntaxElement) -> Result<(), Fail> {
        let old = self.element(way)?;
        let recorded = self.editor.replace(self.alloc, &old, new);
        self.tell(recorded)
    }

    fn replace(&mut self, way: &[usize], text: &'static str) -> Result<(), Fail> {
        let new = self.payload(text)?;
        self.replace_by(way, &new)
    }

    fn delete_element(&mut self, old: &SyntaxElement) -> Result<(), Fail> {
        let recorded = self.editor.delete(self.alloc, old);
        self.tell(recorded)
    }

    fn delete(&mut self, way: &[usize]) -> Result<(), Fail> {
        let old = self.element(way)?;
        self.delete_element(&old)
    }

    /// Replaces an element with many elements, or with none.
    fn many(&mut self, way: &[usize], texts: &[&'static str]) -> Result<(), Fail> {
        let new = self.all(texts)?;
        let old = self.element(way)?;
        let recorded = self.editor.replace_with_many(self.alloc, &old, new);
        self.tell(recorded)
    }

    fn delete_all(&mut self, from: &[usize], to: &[usize]) -> Result<(), Fail> {
        let first = self.element(from)?;
        let last = self.element(to)?;
        let recorded = self.editor.delete_all(self.alloc, &first, &last);
        self.tell(recorded)
    }

    fn replace_all(
        &mut self,
        from: &[usize],
        to: &[usize],
        texts: &[&'static str],
    ) -> Result<(), Fail> {
        let first = self.element(from)?;
        let last = self.element(to)?;
        let new = self.all(texts)?;
        let recorded = self.editor.replace_all(self.alloc, &first, &last, new);
        self.tell(recorded)
    }

    fn run(&mut self, doing: Do<'_>) -> Result<(), Fail> {
        match doing {
            Do::Insert(gap, texts) => self.insert(gap, texts),
            Do::Replace(way, text) => self.replace(way, text),
            Do::Delete(way) => self.delete(way),
            Do::Many(way, texts) => self.many(way, texts),
            Do::Remove(way) => self.many(way, &[]),
            Do::DeleteAll(from, to) => self.delete_all(from, to),
            Do::ReplaceAll(from, to, texts) => self.replace_all(from, to, texts),
            Do::Deleted(way) => self.deleted(way),
            Do::Foreign(way) => self.foreign(way),
            Do::Wrap(is_mapped) => self.wrap(is_mapped),
        }
    }

    fn tell(&mut self, recorded: Result<(), RecordError>) -> Result<(), Fail> {
        let word = match recorded {
            Ok(()) => "",
            Err(RecordError::Foreign) => "Foreign ",
            Err(RecordError::BadRange) => "BadRange ",
            Err(RecordError::BadTarget) => "BadTarget ",
            Err(RecordError::NoMemory) => return Err(Fail::new("out of memory")),
        };
        Ok(self.out.push_str(word)?)
    }
}

/// Returns the first child that is a node.
fn path(alloc: Global, root: &SyntaxNode) -> Result<SyntaxNode, Fail> {
    match root.children(alloc)?.next() {
        Some(node) => Ok(node?),
        None => Err(Fail::new("no child")),
    }
}

/// Returns a bench with an editor of `tree` that has no changes.
fn new_bench(alloc: Global, tree: Tree) -> Result<Bench, Fail> {
    let mut ids = TreeIds::new();
    let root = root(alloc, tree, &mut ids)?;
    let (editor, _root) = SyntaxEditor::new(alloc, root, &mut ids)?;
    let bench = Bench {
        alloc,
        ids,
        editor,
        payloads: Vec::new(alloc),
        out: String::new(alloc),
    };
    Ok(bench)
}

/// Runs the calls. Returns their errors, then the new text with the ranges that changed, or the
/// error of finishing.
pub(crate) fn answer(alloc: Global, tree: Tree, doings: &[Do<'_>]) -> Result<String, Fail> {
    let mut bench = new_bench(alloc, tree)?;
    for doing in doings {
        bench.run(*doing)?;
    }
    finished(alloc, bench)
}

/// Returns the output so far, followed by the outcome of the editor.
fn finished(alloc: Global, bench: Bench) -> Result<String, Fail> {
    let Bench {
        mut ids,
        editor,
        mut out,
        ..
    } = bench;
    tell_end(alloc, &mut out, editor.finish(alloc, &mut ids))?;
    Ok(out)
}

fn tell_end(
    alloc: Global,
    out: &mut String,
    end: Result<SyntaxEdit, FinishError>,
) -> Result<(), Fail> {
    match end {
        Ok(edit) => show(alloc, out, &edit),
        Err(refusal) => Ok(out.push_str(name_of(refusal)?)?),
    }
}

/// Appends the new text and the ranges in it that changed.
pub(crate) fn show(alloc: Global, out: &mut String, edit: &SyntaxEdit) -> Result<(), Fail> {
    let text = edit.new_root().cursor().text()?;
    let text = format!(in alloc; "{text}")?;
    out.push_str(&text)?;
    for range in edit.changed() {
        let range = format!(in alloc; " {}..{}", range.start().0, range.end().0)?;
        out.push_str(&range)?;
    }
    Ok(())
}

fn name_of(refusal: FinishError) -> Result<&'static str, Fail> {
    match refusal {
        FinishError::Intersecting => Ok("Intersecting"),
        FinishError::MissingMapping => Ok("MissingMapping"),
        FinishError::TooLong => Ok("TooLong"),
        FinishError::NoTreeNumber => Ok("NoTreeNumber"),
        FinishError::NoMemory => Err(Fail::new("out of memory")),
    }
}

/// Returns the node at up-path `way`.
pub(crate) fn node_at(alloc: Global, root: &SyntaxNode, way: &[usize]) -> Result<SyntaxNode, Fail> {
    match root.element_at(alloc, way)? {
        Some(SyntaxElement::Node(node)) => Ok(node),
        _ => Err(Fail::new("no such node")),
    }
}

/// Returns the edit that replaces node `old` with a literal.
fn replaced(
    alloc: Global,
    mut editor: SyntaxEditor,
    old: &SyntaxNode,
    ids: &mut TreeIds,
) -> Result<SyntaxEdit, Fail> {
    let new = payload(alloc, "LITERAL 3", ids)?;
    let old = SyntaxElement::Node(old.clone()?);
    editor.replace(alloc, &old, &new)?;
    Ok(editor.finish(alloc, ids)?)
}

/// Returns the text of the new node that `find_element` finds for `old`.
fn text_at(alloc: Global, edit: &SyntaxEdit, old: &SyntaxNode) -> Result<String, Fail> {
    match edit.find_element(alloc, old)? {
        Some(node) => Ok(format!(in alloc; "{}", node.cursor().text()?)?),
        None => Err(Fail::new("nothing is found")),
    }
}

/// Returns the text of the node that is found for the second literal after it was replaced.
pub(crate) fn found_text(alloc: Global) -> Result<String, Fail> {
    let mut ids = TreeIds::new();
    let root = root(alloc, Tree::Args, &mut ids)?;
    let old = node_at(alloc, &root, &[4])?;
    let edit = replaced(alloc, SyntaxEditor::of_root(alloc, root), &old, &mut ids)?;
    text_at(alloc, &edit, &old)
}
