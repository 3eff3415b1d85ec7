use crate::{LexError, Tokens, character_value, first_left_out, left_out_text, lex, string_value};
use eif_base::{Memory, Name, Place};
use eif_grammar::{Terminal, TokenKind};
use std::alloc::{AllocError, Global};
use std::test::Fail;

/// Texts, and their tokens or the line and column of the first byte where none starts. Before each
/// token's text stands its kind: Name, Word, Integer, Real, Character, String, Verbatim, sYmbol.
const TEXTS: [(&[u8], &[u8]); 87] = [
    (b"", b""),
    (b"class S feature t: STRING = \"ab", b"1:29"),
    (
        b"class S feature t: STRING = \"ab\" end",
        b"W[class]N[S]W[feature]N[t]Y[:]N[STRING]Y[=]S[\"ab\"]W[end]",
    ),
    // Words and identifiers.
    (
        b"Class eND classes class_ end1 x_1 X",
        b"W[Class]W[eND]N[classes]N[class_]N[end1]N[x_1]N[X]",
    ),
    (b"_a", b"1:1"),
    (b"a_ _", b"1:4"),
    // Blanks and comments.
    (b" \t\r\n", b""),
    (b"--", b""),
    (b"a--b", b"N[a]"),
    (b"-- \xFF\x00 %\nx", b"N[x]"),
    (b"a - -b -->\n->", b"N[a]Y[-]Y[-]N[b]Y[->]"),
    // A byte order mark.
    (b"\xEF\xBB\xBFx", b"N[x]"),
    (b"\xEF\xBB\xBF", b""),
    (b" \xEF\xBB\xBFx", b"1:2"),
    (b"\xEF\xBBx", b"1:1"),
    (b"\xEF\xBB\xBF\xEF\xBB\xBF", b"1:4"),
    (b"\xEF\xBB\xBF\x00", b"1:4"),
    // Bytes that begin nothing.
    (b"\x00", b"1:1"),
    (b"\xFF", b"1:1"),
    (b"`", b"1:1"),
    (b"a %", b"1:3"),
    (b"\\", b"1:1"),
    // Lines and columns, in bytes.
    (b"a\nb $\n  \x00", b"3:3"),
    (b"a\r\n\x00", b"2:1"),
    (b"\t\x00", b"1:2"),
    (b"\"\xC3\xA9\" \x00", b"1:6"),
    (b"--\xC3\xA9\n\n --\n\t\x00", b"4:2"),
    // Integers.
    (b"0 007 1_000 1_2_3", b"I[0]I[007]I[1_000]I[1_2_3]"),
    (b"9223372036854775807", b"I[9223372036854775807]"),
    (b"0_0009223372036854775807", b"I[0_0009223372036854775807]"),
    (b"x 9223372036854775808", b"1:3"),
    (b"99999999999999999999999999999999999999999999", b"1:1"),
    (b"1__0", b"1:1"),
    (b"1_", b"1:1"),
    (b"12ab", b"1:1"),
    (b"0x1F", b"1:1"),
    // Reals.
    (b"1.5", b"R[1.5]"),
    (b"1.5e-3", b"R[1.5e-3]"),
    (b"1.5E+20 1.5e7", b"R[1.5E+20]R[1.5e7]"),
    (b"1.5e", b"R[1.5]N[e]"),
    (b"1.5e+", b"R[1.5]N[e]Y[+]"),
    (b"1.5x", b"R[1.5]N[x]"),
    (b"1.5_0", b"1:4"),
    (b"99999999999999999999.5", b"R[99999999999999999999.5]"),
    (b"1_0.5", b"I[1_0]Y[.]I[5]"),
    (b"1.", b"I[1]Y[.]"),
    (b".5", b"Y[.]I[5]"),
    (b"1..2", b"I[1]Y[..]I[2]"),
    (b"1.f", b"I[1]Y[.]N[f]"),
    // Characters.
    (
        b"\'a\' \' \' \'\\\' \'\"\'",
        b"C[\'a\']C[\' \']C[\'\\\']C[\'\"\']",
    ),
    (b"\'%N\' \'%\'\' \'%%\'", b"C[\'%N\']C[\'%\'\']C[\'%%\']"),
    (
        b"\'%/065/\' \'%/0/\' \'%/255/\' \'%/0000000065/\'",
        b"C[\'%/065/\']C[\'%/0/\']C[\'%/255/\']C[\'%/0000000065/\']",
    ),
    (b"\'%/256/\'", b"1:1"),
    (b"\'%//\'", b"1:1"),
    (b"\'%/1_0/\'", b"1:1"),
    (b"\'%n\'", b"1:1"),
    (b"\'%\'", b"1:1"),
    (b"\'\'\'", b"1:1"),
    (b"\'ab\'", b"1:1"),
    (b"\'\t\'", b"1:1"),
    (b"\'\x7F\'", b"1:1"),
    (b"\'\x80\'", b"1:1"),
    (b"\'", b"1:1"),
    // Strings.
    (b"\"\"", b"S[\"\"]"),
    (b"\"a%\"b\"c", b"S[\"a%\"b\"]N[c]"),
    (b"\"%/10/%(\xFF\x00\t\'\"", b"S[\"%/10/%(\xFF\x00\t\'\"]"),
    (b"\"a\"b\"", b"1:5"),
    (b"\"ab\ncd\"", b"1:1"),
    (b"\"%Z\"", b"1:1"),
    (b"\"%/300/\"", b"1:1"),
    (b"\"%", b"1:1"),
    (b"\"a%\"", b"1:1"),
    // Verbatim strings.
    (b"\"[\nx\n]\" y", b"V[\"[\nx\n]\" y]"),
    (b"a \"b{ \t\r\n\x00", b"N[a]V[\"b{ \t\r\n\x00]"),
    (b"\"[[\n", b"V[\"[[\n]"),
    (b"\"[\"", b"S[\"[\"]"),
    (b"\"[ x\n", b"1:1"),
    (b"\"[", b"1:1"),
    (b"\"%\"[\n", b"1:1"),
    (b"\"a\" [\n", b"S[\"a\"]Y[[]"),
    // The longest symbol.
    (b":= : = :==", b"Y[:=]Y[:]Y[=]Y[:=]Y[=]"),
    (
        b"/= /~ // / /== ///",
        b"Y[/=]Y[/~]Y[//]Y[/]Y[/=]Y[=]Y[//]Y[/]",
    ),
    (b"<< <= < <<= <>", b"Y[<<]Y[<=]Y[<]Y[<<]Y[=]Y[<]Y[>]"),
    (b">> >= > >>=", b"Y[>>]Y[>=]Y[>]Y[>>]Y[=]"),
    (b"... . ..", b"Y[..]Y[.]Y[.]Y[..]"),
    (b"\\\\\\", b"1:3"),
    (b"?! $@#&|~", b"Y[?]Y[!]Y[$]Y[@]Y[#]Y[&]Y[|]Y[~]"),
];

fn letter(kind: TokenKind) -> u8 {
    match kind {
        TokenKind::Identifier => b'N',
        TokenKind::Word => b'W',
        TokenKind::Integer => b'I',
        TokenKind::Real => b'R',
        TokenKind::Character => b'C',
        TokenKind::StringText => b'S',
        TokenKind::Verbatim => b'V',
        TokenKind::Symbol => b'Y',
    }
}

fn shown_tokens(alloc: Global, tokens: &Tokens<'_>) -> Result<Vec<u8>, AllocError> {
    let mut shown = Vec::new(alloc);
    for i in 0..tokens.count() {
        shown.push(letter(tokens.kind(i)))?;
        shown.push(b'[')?;
        shown.extend_from_slice(tokens.text(i))?;
        shown.push(b']')?;
    }
    Ok(shown)
}

fn shown(alloc: Global, text: &[u8]) -> Result<Vec<u8>, AllocError> {
    if 1048576 < text.len() {
        return Vec::from_slice(alloc, b"too long");
    }
    match lex(alloc, 3, text) {
        Ok(tokens) => shown_tokens(alloc, &tokens),
        Err(LexError::At(place)) => Ok(format!(in alloc;
            "{}:{}",
            place.line, place.column
        )?.into_bytes()),
        Err(LexError::Memory) => Err(AllocError),
    }
}

/// The number of the first row that is wrong.
fn wrong_text(alloc: Global, rows: &[(&[u8], &[u8])]) -> Result<Option<usize>, AllocError> {
    for i in 0..rows.len() {
        if shown(alloc, rows[i].0)?.as_slice() != rows[i].1 {
            return Ok(Some(i));
        }
    }
    Ok(None)
}

#[test]
fn texts_are_cut_into_tokens(rt: HostRuntime) -> Result<(), Fail> {
    let wrong = wrong_text(rt.alloc(), &TEXTS)?;
    assert_eq!(rt; wrong, None);
    Ok(())
}

/// Texts of at most one token, and what it is.
const TERMINALS: [(&[u8], Terminal); 106] = [
    (b"aLl", Terminal::All),
    (b"AnD", Terminal::And),
    (b"aS", Terminal::As),
    (b"AtTaChEd", Terminal::Attached),
    (b"cHeCk", Terminal::Check),
    (b"ClAsS", Terminal::Class),
    (b"cReAtE", Terminal::Create),
    (b"CuRrEnT", Terminal::Current),
    (b"dEfErReD", Terminal::Deferred),
    (b"DeTaChAbLe", Terminal::Detachable),
    (b"dO", Terminal::Do),
    (b"ElSe", Terminal::Else),
    (b"eLsEiF", Terminal::Elseif),
    (b"EnD", Terminal::End),
    (b"eNsUrE", Terminal::Ensure),
    (b"ExPoRt", Terminal::Export),
    (b"fAlSe", Terminal::False),
    (b"FeAtUrE", Terminal::Feature),
    (b"fRoM", Terminal::From),
    (b"If", Terminal::If),
    (b"iMpLiEs", Terminal::Implies),
    (b"InHeRiT", Terminal::Inherit),
    (b"iNvArIaNt", Terminal::Invariant),
    (b"LoCaL", Terminal::Local),
    (b"lOoP", Terminal::Loop),
    (b"NoT", Terminal::Not),
    (b"nOtE", Terminal::Note),
    (b"ObSoLeTe", Terminal::Obsolete),
    (b"oR", Terminal::Or),
    (b"PrEcUrSoR", Terminal::Precursor),
    (b"rEdEfInE", Terminal::Redefine),
    (b"ReNaMe", Terminal::Rename),
    (b"rEqUiRe", Terminal::Require),
    (b"ReSuLt", Terminal::Result),
    (b"sElEcT", Terminal::Select),
    (b"ThEn", Terminal::Then),
    (b"tRuE", Terminal::True),
    (b"UnDeFiNe", Terminal::Undefine),
    (b"uNtIl", Terminal::Until),
    (b"VaRiAnT", Terminal::Variant),
    (b"vOiD", Terminal::Void),
    (b"XoR", Terminal::Xor),
    (b"aCrOsS", Terminal::LeftOutWord),
    (b"AgEnT", Terminal::LeftOutWord),
    (b"aLiAs", Terminal::LeftOutWord),
    (b"AsSiGn", Terminal::LeftOutWord),
    (b"aTtRiBuTe", Terminal::LeftOutWord),
    (b"CoNvErT", Terminal::LeftOutWord),
    (b"dEbUg", Terminal::LeftOutWord),
    (b"ExPaNdEd", Terminal::LeftOutWord),
    (b"eXtErNaL", Terminal::LeftOutWord),
    (b"FrOzEn", Terminal::LeftOutWord),
    (b"iNsPeCt", Terminal::LeftOutWord),
    (b"LiKe", Terminal::LeftOutWord),
    (b"oLd", Terminal::LeftOutWord),
    (b"OnCe", Terminal::LeftOutWord),
    (b"oNlY", Terminal::LeftOutWord),
    (b"ReScUe", Terminal::LeftOutWord),
    (b"rEtRy", Terminal::LeftOutWord),
    (b"SePaRaTe", Terminal::LeftOutWord),
    (b"tUpLe", Terminal::LeftOutWord),
    (b"WhEn", Terminal::LeftOutWord),
    (b"(", Terminal::OpenParenthesis),
    (b")", Terminal::CloseParenthesis),
    (b"[", Terminal::OpenBracket),
    (b"]", Terminal::CloseBracket),
    (b"{", Terminal::OpenBrace),
    (b"}", Terminal::CloseBrace),
    (b",", Terminal::Comma),
    (b";", Terminal::Semicolon),
    (b":", Terminal::Colon),
    (b".", Terminal::Dot),
    (b":=", Terminal::Assign),
    (b"=", Terminal::Equal),
    (b"/=", Terminal::NotEqual),
    (b"<", Terminal::Less),
    (b">", Terminal::Greater),
    (b"<=", Terminal::LessEqual),
    (b">=", Terminal::GreaterEqual),
    (b"+", Terminal::Plus),
    (b"-", Terminal::Minus),
    (b"*", Terminal::Times),
    (b"//", Terminal::Divide),
    (b"\\\\", Terminal::Modulo),
    (b"^", Terminal::Power),
    (b"?", Terminal::Question),
    (b"!", Terminal::Exclamation),
    (b"->", Terminal::Arrow),
    (b"/", Terminal::LeftOutSymbol),
    (b"~", Terminal::LeftOutSymbol),
    (b"/~", Terminal::LeftOutSymbol),
    (b"<<", Terminal::LeftOutSymbol),
    (b">>", Terminal::LeftOutSymbol),
    (b"..", Terminal::LeftOutSymbol),
    (b"$", Terminal::LeftOutSymbol),
    (b"@", Terminal::LeftOutSymbol),
    (b"#", Terminal::LeftOutSymbol),
    (b"&", Terminal::LeftOutSymbol),
    (b"|", Terminal::LeftOutSymbol),
    (b"a", Terminal::Identifier),
    (b"12", Terminal::Integer),
    (b"1.2", Terminal::Real),
    (b"'a'", Terminal::Character),
    (b"\"a\"", Terminal::StringText),
    (b"\"[\n", Terminal::Verbatim),
    (b"", Terminal::EndOfText),
];

/// The two terminals at the front, or two ends where the text is stuck.
fn terminals(alloc: Global, text: &[u8]) -> (Terminal, Terminal) {
    if 1048576 < text.len() {
        return (Terminal::EndOfText, Terminal::EndOfText);
    }
    match lex(alloc, 3, text) {
        Ok(tokens) => (tokens.next_terminal(0), tokens.next_terminal(1)),
        Err(_) => (Terminal::EndOfText, Terminal::EndOfText),
    }
}

fn wrong_terminal(alloc: Global, rows: &[(&[u8], Terminal)]) -> Option<usize> {
    for i in 0..rows.len() {
        if terminals(alloc, rows[i].0) != (rows[i].1, Terminal::EndOfText) {
            return Some(i);
        }
    }
    None
}

#[test]
fn words_and_symbols_have_terminals(rt: HostRuntime) {
    assert_eq!(rt; wrong_terminal(rt.alloc(), &TERMINALS), None);
}

/// Strings and their bytes.
const STRINGS: [(&[u8], &[u8]); 27] = [
    (b"\"%N\"", b"\n"),
    (b"\"%T\"", b"\t"),
    (b"\"%R\"", b"\r"),
    (b"\"%U\"", b"\x00"),
    (b"\"%B\"", b"\x08"),
    (b"\"%F\"", b"\x0C"),
    (b"\"%A\"", b"@"),
    (b"\"%C\"", b"^"),
    (b"\"%D\"", b"$"),
    (b"\"%H\"", b"\\"),
    (b"\"%L\"", b"~"),
    (b"\"%Q\"", b"`"),
    (b"\"%S\"", b"#"),
    (b"\"%V\"", b"|"),
    (b"\"%%\"", b"%"),
    (b"\"%'\"", b"'"),
    (b"\"%\"\"", b"\""),
    (b"\"%(\"", b"["),
    (b"\"%)\"", b"]"),
    (b"\"%<\"", b"{"),
    (b"\"%>\"", b"}"),
    (b"\"%/65/\"", b"A"),
    (b"\"%/0/\"", b"\x00"),
    (b"\"%/007/\"", b"\x07"),
    (b"\"%/255/\"", b"\xFF"),
    (b"\"\"", b""),
    (b"\"a%/10/b %%%%\xC3\xA9\"", b"a\nb %%\xC3\xA9"),
];

const CHARACTERS: [(&[u8], u8); 8] = [
    (b"'a'", 97),
    (b"' '", 32),
    (b"'\"'", 34),
    (b"'%''", 39),
    (b"'%N'", 10),
    (b"'%/065/'", 65),
    (b"'%/0/'", 0),
    (b"'%/255/'", 255),
];

const INTEGERS: [(&[u8], i64); 6] = [
    (b"0", 0),
    (b"007", 7),
    (b"1_000", 1000),
    (b"1_2_3", 123),
    (b"9223372036854775807", 9_223_372_036_854_775_807),
    (b"0_9223372036854775806", 9_223_372_036_854_775_806),
];

fn wrong_string(alloc: Global, rows: &[(&[u8], &[u8])]) -> Result<Option<usize>, Memory> {
    for i in 0..rows.len() {
        if string_value(alloc, rows[i].0)?.as_slice() != rows[i].1 {
            return Ok(Some(i));
        }
    }
    Ok(None)
}

fn wrong_character(rows: &[(&[u8], u8)]) -> Option<usize> {
    for i in 0..rows.len() {
        if character_value(rows[i].0) != rows[i].1 {
            return Some(i);
        }
    }
    None
}

/// The value of an integer, or -1.
fn value(alloc: Global, text: &[u8]) -> i64 {
    if 1048576 < text.len() {
        return -1;
    }
    match lex(alloc, 3, text) {
        Ok(tokens) => match tokens.next_terminal(0) {
            Terminal::Integer => tokens.integer(0),
            _ => -1,
        },
        Err(_) => -1,
    }
}

fn wrong_integer(alloc: Global, rows: &[(&[u8], i64)]) -> Option<usize> {
    for i in 0..rows.len() {
        if value(alloc, rows[i].0) != rows[i].1 {
            return Some(i);
        }
    }
    None
}

#[test]
fn literals_have_values(rt: HostRuntime) -> Result<(), Fail> {
    assert_eq!(rt; wrong_character(&CHARACTERS), None);
    assert_eq!(rt; wrong_integer(rt.alloc(), &INTEGERS), None);
    let wrong = wrong_string(rt.alloc(), &STRINGS)?;
    assert_eq!(rt; wrong, None);
    Ok(())
}

/// Texts, and the number and the name of the first token that is left out, or an empty name.
const LEFT_OUT: [(&[u8], u32, &[u8]); 16] = [
    (b"a Old b", 1, b"old"),
    (b"TUPLE", 0, b"tuple"),
    (b"x := 1.5 across", 2, b"real"),
    (b"x \"[\n", 1, b"verbatim"),
    (b"a /~ b", 1, b"/~"),
    (b"f.g..h", 3, b".."),
    (b"inherit {NONE} A", 1, b"{"),
    (b"Inherit -- c\n {", 1, b"{"),
    (b"G -> {A, B}", 2, b"{"),
    (b"inherit {A} old", 1, b"{"),
    (b"", 0, b""),
    (b"class x end", 0, b""),
    (b"inherit A {", 0, b""),
    (b"-> x {", 0, b""),
    (b"- > {", 0, b""),
    (b"{x} create {A}.make", 0, b""),
];

/// The number of the first token that is left out, and its name.
fn left_out(alloc: Global, text: &[u8]) -> Result<(u32, Name), Memory> {
    if text.len() <= 1048576 {
        if let Ok(tokens) = lex(alloc, 3, text) {
            if let Some(i) = first_left_out(&tokens) {
                return Ok((i, left_out_text(alloc, &tokens, i)?));
            }
        }
    }
    Ok((0, Name::from_bytes(alloc, b"")?))
}

fn wrong_left_out(alloc: Global, rows: &[(&[u8], u32, &[u8])]) -> Result<Option<usize>, Memory> {
    for i in 0..rows.len() {
        let (number, name) = left_out(alloc, rows[i].0)?;
        if number != rows[i].1 || name.text() != rows[i].2 {
            return Ok(Some(i));
        }
    }
    Ok(None)
}

#[test]
fn what_is_left_out_is_found(rt: HostRuntime) -> Result<(), Fail> {
    let wrong = wrong_left_out(rt.alloc(), &LEFT_OUT)?;
    assert_eq!(rt; wrong, None);
    Ok(())
}

#[test]
fn tokens_have_places(rt: HostRuntime) {
    let Ok(tokens) = lex(rt.alloc(), 7, b"a\n  bc -- d\n") else {
        assert!(rt; false);
        return;
    };
    assert_eq!(rt; tokens.count(), 2);
    assert_eq!(rt;
        tokens.place(0),
        Place {
            file: 7,
            offset: 0,
            line: 1,
            column: 1
        }
    );
    assert_eq!(rt;
        tokens.place(1),
        Place {
            file: 7,
            offset: 4,
            line: 2,
            column: 3
        }
    );
    assert_eq!(rt;
        tokens.end(),
        Place {
            file: 7,
            offset: 12,
            line: 3,
            column: 1
        }
    );
    let stuck = lex(rt.alloc(), 7, b"a\n $ \x00").err();
    assert_eq!(rt;
        stuck,
        Some(LexError::At(Place {
            file: 7,
            offset: 5,
            line: 2,
            column: 4
        }))
    );
}
