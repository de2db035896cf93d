//! Where a text spells a name, worked by hand.

use name_mentions::{Mention, MentionPlace, mentions_of};
use parser_input::Edition;
use std::test::Fail;

const TEXT: &str = "fn f(width: u8) { // width, widths
    let r#width = \"\\nwidth {width}é\";
    'width: loop { break 'width; }
    g(b'w', width_2, width);
}
";

/// Places, and the offsets in bytes at which `width` begins there.
const PLACES: [(MentionPlace, usize); 6] = [
    (MentionPlace::Comment, 21),
    (MentionPlace::RawIdentifier, 45),
    (MentionPlace::StringLiteral, 56),
    (MentionPlace::StringLiteral, 63),
    (MentionPlace::Lifetime, 79),
    (MentionPlace::Lifetime, 100),
];

#[test]
fn whole_words_are_found(rt: HostRuntime) -> Result<(), Fail> {
    let mentions = mentions_of(rt.alloc(), Edition::Edition2021, TEXT, "width")?;
    assert!(rt; mentions.identifiers == 2);
    assert!(rt; mentions.others.len() == PLACES.len());
    for (mention, (place, offset)) in mentions.others.iter().zip(PLACES.iter()) {
        let expected = Mention {
            place: *place,
            offset: *offset,
        };
        assert!(rt; *mention == expected);
    }
    Ok(())
}

#[test]
fn characters_are_places(rt: HostRuntime) -> Result<(), Fail> {
    let mentions = mentions_of(rt.alloc(), Edition::Edition2021, TEXT, "w")?;
    assert!(rt; mentions.identifiers == 0);
    assert!(rt; mentions.others.len() == 1);
    let mention = mentions.others[0];
    assert!(rt; (mention.place == MentionPlace::CharLiteral) & (mention.offset == 117));
    Ok(())
}

#[test]
fn places_have_words(rt: HostRuntime) -> Result<(), Fail> {
    let rows = [
        (MentionPlace::StringLiteral, "w in a string"),
        (MentionPlace::CharLiteral, "w in a character"),
        (MentionPlace::Comment, "w in a comment"),
        (MentionPlace::RawIdentifier, "r#w"),
        (MentionPlace::Lifetime, "'w"),
        (MentionPlace::Other, "w in another token"),
    ];
    for (place, expected) in rows {
        let words = Mention { place, offset: 0 }.words(rt.alloc(), "w")?;
        let is_right = words.as_str() == expected;
        drop(words);
        assert!(rt; is_right);
    }
    Ok(())
}
