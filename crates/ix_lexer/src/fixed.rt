//! The tokens of fixed text, each with the number that `TokenKind::Fixed` has for it: the keywords of JLS 3.9 from 0, then `true`,
//! `false` and `null`, then the separators and operators of JLS 3.11 and 3.12.

pub const ABSTRACT: u8 = 0;

pub const ASSERT: u8 = 1;

pub const BOOLEAN: u8 = 2;

pub const BREAK: u8 = 3;

pub const BYTE: u8 = 4;

pub const CASE: u8 = 5;

pub const CATCH: u8 = 6;

pub const CHAR: u8 = 7;

pub const CLASS: u8 = 8;

pub const CONST: u8 = 9;

pub const CONTINUE: u8 = 10;

pub const DEFAULT: u8 = 11;

pub const DO: u8 = 12;

pub const DOUBLE: u8 = 13;

pub const ELSE: u8 = 14;

pub const ENUM: u8 = 15;

pub const EXTENDS: u8 = 16;

pub const FINAL: u8 = 17;

pub const FINALLY: u8 = 18;

pub const FLOAT: u8 = 19;

pub const FOR: u8 = 20;

pub const GOTO: u8 = 21;

pub const IF: u8 = 22;

pub const IMPLEMENTS: u8 = 23;

pub const IMPORT: u8 = 24;

pub const INSTANCEOF: u8 = 25;

pub const INT: u8 = 26;

pub const INTERFACE: u8 = 27;

pub const LONG: u8 = 28;

pub const NATIVE: u8 = 29;

pub const NEW: u8 = 30;

pub const PACKAGE: u8 = 31;

pub const PRIVATE: u8 = 32;

pub const PROTECTED: u8 = 33;

pub const PUBLIC: u8 = 34;

pub const RETURN: u8 = 35;

pub const SHORT: u8 = 36;

pub const STATIC: u8 = 37;

pub const STRICTFP: u8 = 38;

pub const SUPER: u8 = 39;

pub const SWITCH: u8 = 40;

pub const SYNCHRONIZED: u8 = 41;

pub const THIS: u8 = 42;

pub const THROW: u8 = 43;

pub const THROWS: u8 = 44;

pub const TRANSIENT: u8 = 45;

pub const TRY: u8 = 46;

pub const VOID: u8 = 47;

pub const VOLATILE: u8 = 48;

pub const WHILE: u8 = 49;

pub const TRUE: u8 = 50;

pub const FALSE: u8 = 51;

pub const NULL: u8 = 52;

pub const OPEN_PAREN: u8 = 53;

pub const CLOSE_PAREN: u8 = 54;

pub const OPEN_BRACE: u8 = 55;

pub const CLOSE_BRACE: u8 = 56;

pub const OPEN_BRACKET: u8 = 57;

pub const CLOSE_BRACKET: u8 = 58;

pub const SEMICOLON: u8 = 59;

pub const COMMA: u8 = 60;

pub const DOT: u8 = 61;

pub const AT: u8 = 62;

pub const ASSIGN: u8 = 63;

pub const EQUAL: u8 = 64;

pub const NOT_EQUAL: u8 = 65;

pub const LESS: u8 = 66;

pub const LESS_OR_EQUAL: u8 = 67;

pub const GREATER: u8 = 68;

pub const GREATER_OR_EQUAL: u8 = 69;

pub const PLUS: u8 = 70;

pub const MINUS: u8 = 71;

pub const TIMES: u8 = 72;

pub const DIVIDE: u8 = 73;

pub const REMAINDER: u8 = 74;

pub const AND: u8 = 75;

pub const OR: u8 = 76;

pub const XOR: u8 = 77;

pub const NOT: u8 = 78;

pub const FLIP: u8 = 79;

pub const AND_ALSO: u8 = 80;

pub const OR_ELSE: u8 = 81;

pub const SHIFT_LEFT: u8 = 82;

pub const SHIFT_RIGHT: u8 = 83;

pub const UNSIGNED_SHIFT_RIGHT: u8 = 84;

pub const INCREMENT: u8 = 85;

pub const DECREMENT: u8 = 86;

pub const PLUS_ASSIGN: u8 = 87;

pub const MINUS_ASSIGN: u8 = 88;

pub const TIMES_ASSIGN: u8 = 89;

pub const DIVIDE_ASSIGN: u8 = 90;

pub const REMAINDER_ASSIGN: u8 = 91;

pub const AND_ASSIGN: u8 = 92;

pub const OR_ASSIGN: u8 = 93;

pub const XOR_ASSIGN: u8 = 94;

pub const SHIFT_LEFT_ASSIGN: u8 = 95;

pub const SHIFT_RIGHT_ASSIGN: u8 = 96;

pub const UNSIGNED_SHIFT_RIGHT_ASSIGN: u8 = 97;

/// The words that are no identifiers.
pub(crate) const WORDS: [(u8, &[u8]); 53] = [
    (ABSTRACT, b"abstract"),
    (ASSERT, b"assert"),
    (BOOLEAN, b"boolean"),
    (BREAK, b"break"),
    (BYTE, b"byte"),
    (CASE, b"case"),
    (CATCH, b"catch"),
    (CHAR, b"char"),
    (CLASS, b"class"),
    (CONST, b"const"),
    (CONTINUE, b"continue"),
    (DEFAULT, b"default"),
    (DO, b"do"),
    (DOUBLE, b"double"),
    (ELSE, b"else"),
    (ENUM, b"enum"),
    (EXTENDS, b"extends"),
    (FINAL, b"final"),
    (FINALLY, b"finally"),
    (FLOAT, b"float"),
    (FOR, b"for"),
    (GOTO, b"goto"),
    (IF, b"if"),
    (IMPLEMENTS, b"implements"),
    (IMPORT, b"import"),
    (INSTANCEOF, b"instanceof"),
    (INT, b"int"),
    (INTERFACE, b"interface"),
    (LONG, b"long"),
    (NATIVE, b"native"),
    (NEW, b"new"),
    (PACKAGE, b"package"),
    (PRIVATE, b"private"),
    (PROTECTED, b"protected"),
    (PUBLIC, b"public"),
    (RETURN, b"return"),
    (SHORT, b"short"),
    (STATIC, b"static"),
    (STRICTFP, b"strictfp"),
    (SUPER, b"super"),
    (SWITCH, b"switch"),
    (SYNCHRONIZED, b"synchronized"),
    (THIS, b"this"),
    (THROW, b"throw"),
    (THROWS, b"throws"),
    (TRANSIENT, b"transient"),
    (TRY, b"try"),
    (VOID, b"void"),
    (VOLATILE, b"volatile"),
    (WHILE, b"while"),
    (TRUE, b"true"),
    (FALSE, b"false"),
    (NULL, b"null"),
];

/// The separators and operators.
pub(crate) const SIGNS: [(u8, &[u8]); 45] = [
    (OPEN_PAREN, b"("),
    (CLOSE_PAREN, b")"),
    (OPEN_BRACE, b"{"),
    (CLOSE_BRACE, b"}"),
    (OPEN_BRACKET, b"["),
    (CLOSE_BRACKET, b"]"),
    (SEMICOLON, b";"),
    (COMMA, b","),
    (DOT, b"."),
    (AT, b"@"),
    (ASSIGN, b"="),
    (EQUAL, b"=="),
    (NOT_EQUAL, b"!="),
    (LESS, b"<"),
    (LESS_OR_EQUAL, b"<="),
    (GREATER, b">"),
    (GREATER_OR_EQUAL, b">="),
    (PLUS, b"+"),
    (MINUS, b"-"),
    (TIMES, b"*"),
    (DIVIDE, b"/"),
    (REMAINDER, b"%"),
    (AND, b"&"),
    (OR, b"|"),
    (XOR, b"^"),
    (NOT, b"!"),
    (FLIP, b"~"),
    (AND_ALSO, b"&&"),
    (OR_ELSE, b"||"),
    (SHIFT_LEFT, b"<<"),
    (SHIFT_RIGHT, b">>"),
    (UNSIGNED_SHIFT_RIGHT, b">>>"),
    (INCREMENT, b"++"),
    (DECREMENT, b"--"),
    (PLUS_ASSIGN, b"+="),
    (MINUS_ASSIGN, b"-="),
    (TIMES_ASSIGN, b"*="),
    (DIVIDE_ASSIGN, b"/="),
    (REMAINDER_ASSIGN, b"%="),
    (AND_ASSIGN, b"&="),
    (OR_ASSIGN, b"|="),
    (XOR_ASSIGN, b"^="),
    (SHIFT_LEFT_ASSIGN, b"<<="),
    (SHIFT_RIGHT_ASSIGN, b">>="),
    (UNSIGNED_SHIFT_RIGHT_ASSIGN, b">>>="),
];
