//! What the definition of tokens is compared with: the format's own lists of marks and reserved words, and worked
//! texts, each with its tokens.

use kpn_text_tokens::{Language, Lexeme, Token, lexemes};
use std::alloc::Global;
use std::fmt::Write;
use std::test::Fail;

/// The lexemes in words: `start name a`, `start number 1`, `start LessOrEqual`, `start Process`, each with a `;`.
fn described(alloc: Global, lexemes: &[Lexeme<'_>]) -> Result<String, Fail> {
    let mut words = String::new(alloc);
    for lexeme in lexemes {
        let start = lexeme.start;
        match &lexeme.token {
            Token::Name(name) => {
                let text = str::from_utf8(name.bytes())?;
                write!(words, "{start} name {text};")?;
            }
            Token::Number(number) => {
                let value = number.value();
                write!(words, "{start} number {value};")?;
            }
            Token::Mark(mark) => write!(words, "{start} {mark:?};")?,
            Token::Keyword(keyword) => write!(words, "{start} {keyword:?};")?,
        }
    }
    Ok(words)
}

/// Texts in language 1, each with its tokens in words.
const IN_ONE: [(&[u8], &str); 13] = [
    (b"", ""),
    (b" \t\r\n", ""),
    (b"a", "0 name a;"),
    (b"# \0 & \xc8 |", ""),
    (b"a#\xc8&\n;", "0 name a;5 Semicolon;"),
    (
        b"( ) { } ; , = + - * / % < <= > >= == != && || !",
        "0 LeftParen;2 RightParen;4 LeftBrace;6 RightBrace;8 Semicolon;10 Comma;12 Assign;\
        14 Plus;16 Minus;18 Star;20 Slash;22 Percent;24 Less;26 LessOrEqual;29 Greater;\
        31 GreaterOrEqual;34 Equal;37 NotEqual;40 And;43 Or;46 Not;",
    ),
    (
        b"process in out par read write if else while network limit channel cap \
        source sink policy grow",
        "0 Process;8 In;11 Out;15 Par;19 Read;24 Write;30 If;33 Else;38 While;44 Network;\
        52 Limit;58 Channel;66 Cap;70 Source;77 Sink;82 Policy;89 Grow;",
    ),
    (
        b"<=<<==>>=!!====&&&&",
        "0 LessOrEqual;2 Less;3 LessOrEqual;5 Assign;6 Greater;7 GreaterOrEqual;9 Not;\
        10 NotEqual;12 Equal;14 Assign;15 And;17 And;",
    ),
    (b"12abc", "0 number 12;2 name abc;"),
    (b"a12 _ _9", "0 name a12;4 name _;6 name _9;"),
    (b"Process processes", "0 name Process;8 name processes;"),
    (
        b"0 007 9223372036854775807 0000000000000000007",
        "0 number 0;2 number 7;6 number 9223372036854775807;26 number 7;",
    ),
    (
        b"z23456789012345678901234567890_2",
        "0 name z23456789012345678901234567890_2;",
    ),
];

/// The same in language 2.
const IN_TWO: [(&[u8], &str); 5] = [
    (
        b"[ ] ? : ~ & | ^ << >>",
        "0 LeftBracket;2 RightBracket;4 Question;6 Colon;8 BitNot;10 BitAnd;12 BitOr;14 BitXor;\
        16 ShiftLeft;19 ShiftRight;",
    ),
    (b"language array table", "0 Language;9 Array;15 Table;"),
    (
        b"<<=<=<<>>=>>>&&&|||",
        "0 ShiftLeft;2 Assign;3 LessOrEqual;5 ShiftLeft;7 ShiftRight;9 Assign;10 ShiftRight;\
        12 Greater;13 And;15 BitAnd;16 Or;18 BitOr;",
    ),
    (
        b"0 007 1_000_ 0xFf 0xf__f 0b1010 00000000000000000000001 0x7fffffffffffffff",
        "0 number 0;2 number 7;6 number 1000;13 number 255;18 number 255;25 number 10;\
        32 number 1;56 number 9223372036854775807;",
    ),
    (
        b"'A' ' ' '~' '\\n''\\\\' '\\'' '\\0'a 1'2'",
        "0 number 65;4 number 32;8 number 126;12 number 10;16 number 92;21 number 39;\
        26 number 0;30 name a;32 number 1;33 number 50;",
    ),
];

#[test]
fn cuts_texts_into_tokens(rt: HostRuntime) -> Result<(), Fail> {
    let tables = [
        (Language::One, IN_ONE.as_slice()),
        (Language::Two, IN_TWO.as_slice()),
    ];
    for (language, rows) in tables {
        for (text, wanted) in rows {
            let found = lexemes(rt.alloc(), language, text)?;
            let words = described(rt.alloc(), &found)?;
            assert!(rt; words.as_str() == *wanted, "{words}");
        }
    }
    Ok(())
}
