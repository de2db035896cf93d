//! Elements of a target tree after some executed changes. Elements that no change affects are
//! shared. The nodes above a change are open at the same time, on a stack of their own, so no
//! function calls itself, however deep a tree is.
ghost use Rattle.std.specs.Prelude.{◌≡◌, ◌<◌, ◌+◌, ◌*◌, List, [], ◌∷◌, length, reverse, IfOk, OnOk};
ghost use Rattle.syntax_tree.specs.Element.{Way, Element, term_of};
ghost use Rattle.syntax_tree.specs.Handle.{element_of};
ghost use Rattle.tree_rewrite.specs.Marked.{blank, reading_of};
ghost use Rattle.tree_rewrite.specs.Moved.{way_above};
ghost use Rattle.tree_rewrite.specs.Recorded.{target_of};
ghost use Rattle.tree_rewrite.specs.Fill.{Given, at_gap, standing};
ghost use Rattle.tree_rewrite.specs.Filling.{size_of, IsFrom, IsNew, child_in, Closes, AreOpen, with_opened, level_size, level_sizes};
ghost use Rattle.tree_rewrite.specs.Shown.{AreShown, shown, AreListed, LeadOn};
ghost use Rattle.tree_rewrite.specs.Pieces.{Stand, added, after, Adds};
ghost use Rattle.tree_rewrite.specs.declared.fill.Level.{Level};

use crate::lists::{list_at, lists_below};
use crate::overlay::Overlay;
use crate::path::Path;
use crate::piece::Piece;
use crate::sheet::{is_touched, push_gap, push_slot};
use std::alloc::AllocError;
use syntax_tree::{SyntaxElement, SyntaxElementChildren, SyntaxNode};

/// An open node: its children that are not appended yet, and the index of the first of them.
struct Level {
    children: SyntaxElementChildren,
    index: usize,
    /// For each child, and for the gap after the last one, the indices of the executed changes that
    /// may affect it.
    lists: Vec<Vec<usize>>,
}

// Not derived: a derived drop is opened field by field in each function that drops one.
impl Drop for Level {
    fn drop(self) {
        let Level {
            children: _children,
            index: _,
            lists: _lists,
        } = self;
    }
}

/// Appends `element`, unchanged, as one piece.
pub(crate) fn push_whole(element: SyntaxElement, pieces: &mut Vec<Piece>) -> Result<(), AllocError>
    ensures { OnOk result
        (Adds pieces.old.items pieces.new.items (reading_of blank (element_of element))) }
{
    pieces.push(Piece::Whole(element))?;
    Ok(())
}

/// Appends `opened`, if it is a node.
fn push_opened(opened: Option<Level>, levels: &mut Vec<Level>) -> Result<(), AllocError>
    ensures { OnOk result
        (reverse levels.new.items ≡ with_opened opened (reverse levels.old.items)) }
{
    if let Some(level) = opened {
        levels.push(level)?;
    }
    Ok(())
}

impl Overlay<'_> {
    /// Opens `node`, which is at depth `depth`. None of its children is appended.
    fn open_node(
        &self,
        numbers: &[usize],
        node: &SyntaxNode,
        depth: usize,
    ) -> Result<Level, AllocError>
        ensures new { (e : Element) (w : Way) → IsFrom node.now e w
            → IfOk result (λ l. IsNew e w l) }
        ensures lists { (gs : List Given) (w : Way) → AreShown self.now numbers.now gs
            → length w ≡ depth → IfOk result (λ l. AreListed self.now l w gs) }
        ensures size { IfOk result (λ l. level_size l < 2 * size_of node.now) }
    {
        let count = node.cursor().green().children().len();
        let lists = lists_below(self, numbers, depth, count + 1)?;
        let children = node.children_with_tokens(self.alloc)?;
        Ok(Level {
            children,
            index: 0,
            lists,
        })
    }

    /// Appends the element at `path`. Of a node that has changes below it only the start is
    /// appended, and the open node is returned; else `path` loses its last index.
    fn enter(
        &self,
        numbers: &[usize],
        element: SyntaxElement,
        path: &mut Path,
        pieces: &mut Vec<Piece>,
    ) -> Result<Option<Level>, AllocError>
        ensures opened { (e : Element) (ls : List Level)
            → IsFrom (element_of element) e path.old → AreOpen e (way_above path.old) ls
            → IfOk result (λ o. AreOpen e path.new (with_opened o ls)) }
        ensures terms { (gs : List Given) (e : Element) (ls : List Level) (s t : Stand)
            → AreShown self.now numbers.now gs → IsFrom (element_of element) e path.old
            → LeadOn self.now e (way_above path.old) ls
            (added (standing (shown self.now gs) e path.old (term_of (element_of element)))
            (after pieces.old.items s)) t
            → IfOk result (λ o.
            LeadOn self.now e path.new (with_opened o ls) (after pieces.new.items s) t) }
        ensures size { IfOk result (λ o. level_sizes (with_opened o [])
            < 2 * size_of (element_of element)) }
    {
        if push_slot(self, numbers, path, pieces)? {
            path.pop();
            return Ok(None);
        }
        match element {
            SyntaxElement::Token(token) => {
                // (the contract of `green`: the element is in its tree)
                let _stands = token.cursor().green();
                path.pop();
                push_whole(SyntaxElement::Token(token), pieces)?;
                Ok(None)
            }
            SyntaxElement::Node(node) => {
                // (the contract of `green`: the element is in its tree)
                let _stands = node.cursor().green();
                if !is_touched(self, numbers, path.depth()) {
                    path.pop();
                    push_whole(SyntaxElement::Node(node), pieces)?;
                    return Ok(None);
                }
                let level = self.open_node(numbers, &node, path.depth())?;
                pieces.push(Piece::Open(node))?;
                Ok(Some(level))
            }
        }
    }

    /// Appends the contents of the gap before `child`, the next child of `level`, which is at
    /// `path`, and the child. If the child is opened, it is returned, and `path` leads to it.
    fn push_child(
        &self,
        level: &Level,
        child: SyntaxElement,
        path: &mut Path,
        pieces: &mut Vec<Piece>,
    ) -> Result<Option<Level>, AllocError>
        requires { level.now.index < length level.now.lists.items }
        ensures opened { (e : Element) (ls : List Level)
            → IsFrom (element_of child) e (level.now.index ∷ path.old)
            → AreOpen e path.old ls → IfOk result (λ o. AreOpen e path.new (with_opened o ls)) }
        ensures terms { (gs : List Given) (e : Element) (ls : List Level) (s t : Stand)
            → AreListed self.now level.now path.old gs
            → IsFrom (element_of child) e (level.now.index ∷ path.old)
            → LeadOn self.now e path.old ls
            (added (child_in gs (target_of self.now.target) e path.old
            level.now.index (element_of child)) (after pieces.old.items s)) t
            → IfOk result (λ o.
            LeadOn self.now e path.new (with_opened o ls) (after pieces.new.items s) t) }
        ensures size { IfOk result (λ o. level_sizes (with_opened o [])
            < 2 * size_of (element_of child)) }
    {
        let numbers = list_at(&level.lists, level.index);
        if numbers.is_empty() {
            push_whole(child, pieces)?;
            return Ok(None);
        }
        push_gap(self, numbers, path, level.index, pieces)?;
        path.push(level.index)?;
        self.enter(numbers, child, path, pieces)
    }

    /// Closes the node at `path`, which has no children left, after the contents of its last gap.
    /// `path` loses its last index.
    fn close(
        &self,
        level: &Level,
        path: &mut Path,
        pieces: &mut Vec<Piece>,
    ) -> Result<(), AllocError>
        requires { level.now.index < length level.now.lists.items }
        ensures terms { (gs : List Given) → AreListed self.now level.now path.old gs
            → OnOk result (Closes pieces.old.items pieces.new.items
            (at_gap gs (target_of self.now.target) path.old level.now.index)) }
        ensures path { OnOk result
            (path.new ≡ way_above path.old) }
    {
        let last = list_at(&level.lists, level.index);
        push_gap(self, last, path, level.index, pieces)?;
        pieces.push(Piece::Close)?;
        path.pop();
        Ok(())
    }

    /// Appends the next child of `level`, the innermost open node, which is at `path`; or closes
    /// it, if no child is left. `levels` are the nodes around it, outermost first; the nodes that
    /// are open after the step are appended to them.
    fn step(
        &self,
        level: Level,
        levels: &mut Vec<Level>,
        path: &mut Path,
        pieces: &mut Vec<Piece>,
    ) -> Result<(), AllocError>
        requires { level.index < length level.lists.items }
        ensures opened { (e : Element)
            → AreOpen e path.old (level ∷ reverse levels.old.items)
            → OnOk result (AreOpen e path.new (reverse levels.new.items)) }
        ensures terms { (e : Element) (s t : Stand)
            → LeadOn self.now e path.old (level ∷ reverse levels.old.items)
            (after pieces.old.items s) t
            → OnOk result (LeadOn self.now e path.new (reverse levels.new.items)
            (after pieces.new.items s) t) }
        ensures size { OnOk result (level_sizes (reverse levels.new.items)
            < level_sizes (level ∷ reverse levels.old.items)) }
    {
        let mut level = level;
        let Some(child) = level.children.next() else {
            return self.close(&level, path, pieces);
        };
        let child = child?;
        let opened = self.push_child(&level, child, path, pieces)?;
        let count = level.lists.len();
        prove!(level.index < count);
        level.index += 1;
        levels.push(level)?;
        push_opened(opened, levels)
    }
}

/// Appends `element`, the root of a target tree or an element of a payload, with the executed
/// changes at `numbers`.
pub fn push_standing(
    overlay: &Overlay<'_>,
    numbers: &[usize],
    element: SyntaxElement,
    pieces: &mut Vec<Piece>,
) -> Result<(), AllocError>
    ensures { (gs : List Given) → AreShown overlay.now numbers.now gs → OnOk result
        (Adds pieces.old.items pieces.new.items
        (reading_of (shown overlay.now gs) (element_of element))) }
{
    let mut path = Path::new(overlay.alloc);
    let mut levels = Vec::new(overlay.alloc);
    let opened = overlay.enter(numbers, element, &mut path, pieces)?;
    push_opened(opened, &mut levels)?;
    while let Some(level) = levels.pop() {
        overlay.step(level, &mut levels, &mut path, pieces)?;
    }
    Ok(())
}
