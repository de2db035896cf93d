//! Lists of words: a root, lists in it, and words and commas.
ghost use Rattle.std.specs.Prelude.{◌≡◌, ◌↔◌, nat_eq, true, IsSome, IfSome};
ghost use Rattle.rowan.specs.Place.{kind_at};

use rowan::{AstNode, Language, SyntaxNode};
use rowan_green::SyntaxKind;

/// A kind of the language.
#[derive(Clone, Copy, PartialEq, Eq, PartialOrd, Ord, Hash, Debug)]
pub struct Kind(pub u16);

/// The language of lists of words.
#[derive(Clone, Copy, PartialEq, Eq, PartialOrd, Ord, Hash, Debug)]
pub struct Lists;

impl Language for Lists {
    type Kind = Kind;

    ghost use Rattle.std.specs.Prelude.{refl, if◌then◌else◌, ◌==◌};
    ghost use lib.Chars.{codes};

    ghost from_raw = { λ n. record { 0 = n } };

    ghost to_raw = { λ k. k.0 };

    ghost name_of = { λ k. if k.0 == 1 then codes "ROOT" else (if k.0 == 2 then codes "LIST" else (if k.0 == 3 then codes "WORD" else codes "COMMA")) };

    ghost undoes = { λ k. refl };

    fn kind_from_raw(raw: SyntaxKind) -> Kind {
        Kind(raw.0)
    }

    fn kind_to_raw(kind: Kind) -> SyntaxKind {
        SyntaxKind(kind.0)
    }

    fn kind_name(kind: Kind) -> &'static str {
        match kind.0 {
            1 => "ROOT",
            2 => "LIST",
            3 => "WORD",
            _ => "COMMA",
        }
    }
}

/// A node of the kind `LIST`.
#[derive(Drop)]
pub struct ListNode {
    syntax: SyntaxNode<Lists>,
    ghost is_list: { kind_at syntax ≡ 2 },
}

impl AstNode for ListNode {
    type Language = Lists;

    ghost use Rattle.std.specs.Prelude.{◌≡◌, ◌↔◌, nat_eq, true, IsSome, IfSome};
    ghost use Rattle.rowan.specs.Place.{kind_at};

    ghost casts = { λ k. nat_eq k.0 2 };

    ghost place = { λ n. n.syntax };

    fn can_cast(kind: Kind) -> bool {
        kind.0 == 2
    }

    fn cast(node: SyntaxNode<Lists>) -> Option<ListNode>
        ensures cast_when { IsSome result ↔ (nat_eq (kind_at node) 2 ≡ true) }
        ensures gives { IfSome result (λ x. x.syntax ≡ node) }
    {
        if node.kind().0 == 2 {
            return Some(ListNode { syntax: node });
        }
        None
    }

    fn syntax(&self) -> &SyntaxNode<Lists> {
        &self.syntax
    }
}
