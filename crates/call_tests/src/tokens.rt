//! The token that begins at an offset, or its fault.

use decl_text::{Code, Kind, MappingFault, Token, token_at};

// The token at an offset, or its fault; none behind the text.
fn at(text: &str, offset: usize) -> Option<Result<Token, MappingFault>> {
    let bytes = text.as_bytes();
    if offset > bytes.len() {
        return None;
    }
    Some(token_at(bytes, offset))
}

#[test]
fn tokens_at_offsets(rt: HostRuntime) {
    for (text, start, kind, end) in [
        ("ab1 (c", 0, Kind::Name, 3),
        ("ab1 (c", 1, Kind::Name, 3),
        ("ab1 (c", 4, Kind::LeftParen, 5),
        ("->", 0, Kind::Arrow, 2),
        ("\"a\\n\"#", 0, Kind::Quoted, 5),
        ("a", 1, Kind::Finish, 1),
    ] {
        let token = Token { kind, start, end };
        assert_eq!(rt; at(text, start), Some(Ok(token)), "{text}");
    }
    for (text, offset, code, place) in [
        ("ab1 (c", 2, Code::X1, 2),
        ("ab1 (c", 3, Code::X1, 3),
        ("a# b", 1, Code::X1, 1),
        ("- >", 0, Code::X1, 0),
        ("(\"a\\q\"", 1, Code::X4, 3),
        ("(\"a\n\"", 1, Code::X3, 1),
    ] {
        let fault = MappingFault { code, place };
        assert_eq!(rt; at(text, offset), Some(Err(fault)), "{text}");
    }
}
