//! Lookups of the next tokens.

use bumpalo::Bump;
use std::test::Fail;
use wat_core::{Cursor, Parser};

/// Which lookups find a token: those of `(`, `)`, a keyword, an identifier, an annotation, an
/// integer and a string, in this order.
fn found(cursor: Cursor<'_>) -> [bool; 7] {
    [
        cursor.lparen().is_some(),
        cursor.rparen().is_some(),
        cursor.keyword().is_some(),
        cursor.id().is_some(),
        cursor.annotation().is_some(),
        cursor.integer().is_some(),
        cursor.string().is_some(),
    ]
}

/// The lookup number `kind` alone finds a token, or none if there is no such lookup.
fn only(kind: usize) -> [bool; 7] {
    let mut wanted = [false; 7];
    if let Some(place) = wanted.get_mut(kind) {
        *place = true;
    }
    wanted
}

/// The number of no lookup.
const NONE: usize = 7;

/// A text, and which lookup finds its second token.
const SECOND: [(&str, usize); 9] = [
    ("((", 0),
    ("()", 1),
    ("( w", 2),
    ("( $i", 3),
    ("(@name)", 4),
    ("( 1", 5),
    ("( \"s\"", 6),
    ("( 1.5", NONE),
    ("(", NONE),
];

#[test]
fn a_lookup_finds_the_tokens_of_its_kind(rt: HostRuntime) -> Result<(), Fail> {
    for (text, kind) in SECOND {
        let arena = Bump::new(rt.alloc());
        let mut parser = Parser::new(rt.alloc(), text, &arena)?;
        parser.with_standard_annotations(true);
        let start = parser.cursor();
        assert_eq!(rt; found(start), only(0), "{text}");
        let second = start.any().ok_or("no token")?;
        assert_eq!(rt; found(second), only(kind), "{text}");
    }
    Ok(())
}

// The group of an annotation that isn't known is left out.
#[test]
fn a_lookup_returns_a_content_and_the_next_position(rt: HostRuntime) -> Result<(), Fail> {
    let arena = Bump::new(rt.alloc());
    let text = "(w (@x ( ) y) $i (@name 1 \"s\"))";
    let mut parser = Parser::new(rt.alloc(), text, &arena)?;
    parser.with_standard_annotations(true);
    let inside = parser.cursor().lparen().ok_or("no parenthesis")?;
    let (word, after_word) = inside.keyword().ok_or("no keyword")?;
    let (id, after_id) = after_word.id().ok_or("no identifier")?;
    let group = after_id.lparen().ok_or("no parenthesis")?;
    let (name, after_name) = group.annotation().ok_or("no annotation")?;
    let (number, after_number) = after_name.integer().ok_or("no integer")?;
    let (bytes, after_string) = after_number.string().ok_or("no string")?;
    let after_group = after_string.rparen().ok_or("no parenthesis")?;
    let end = after_group.rparen().ok_or("no parenthesis")?;
    assert!(rt; end.any().is_none());
    assert_eq!(rt; (word, id, name, number.text()), ("w", "i", "name", "1"));
    assert_eq!(rt; bytes, b"s".as_slice());
    Ok(())
}

/// A text, and whether the keyword `name` is next, its group, or the group of the annotation.
const WORDS: [(&str, [bool; 3]); 10] = [
    ("name", [true, false, false]),
    ("(@x) name", [true, false, false]),
    ("(name", [false, true, false]),
    ("((@x) name)", [false, true, false]),
    ("(@name)", [false, false, true]),
    ("names", [false, false, false]),
    ("(names)", [false, false, false]),
    ("(@custom)", [false, false, false]),
    ("$name", [false, false, false]),
    ("", [false, false, false]),
];

#[test]
fn a_word_or_a_name_is_next(rt: HostRuntime) -> Result<(), Fail> {
    for (text, wanted) in WORDS {
        let arena = Bump::new(rt.alloc());
        let mut parser = Parser::new(rt.alloc(), text, &arena)?;
        parser.with_standard_annotations(true);
        let cursor = parser.cursor();
        let found = [
            cursor.keyword_is("name"),
            cursor.group_is("name"),
            cursor.annotation_is("name"),
        ];
        assert_eq!(rt; found, wanted, "{text}");
    }
    Ok(())
}
