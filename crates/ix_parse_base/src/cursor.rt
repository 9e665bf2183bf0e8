//! The tokens that are still to be read, and the rules for single tokens.
ghost use Rattle.std.specs.Prelude.{◌≡◌, ◌≢◌, ◌<◌, ◌-◌, length, option_map, Some, None, OnOk, IfErr, IfOk, IfSome, MatchResult};
ghost use Rattle.ix_grammar_rules.specs.declared.stop.Stop.TheVariants.{Memory, Syntax};
ghost use Rattle.ix_grammar.specs.Nodes as nodes;
ghost use Rattle.ix_grammar_rules.specs.Rule.{look, rest};
ghost use Rattle.ix_grammar_rules.specs.Errors.{first};
ghost use Rattle.ix_grammar.specs.Patterns.{a_sign, a_name, a_number, a_least, a_text};

use ix_grammar::found::At;
use ix_grammar_rules::stop::Stop;
use ix_lexer::{Token, TokenKind};
use ix_text::{Span, Text};
use ix_tree::Ident;
use std::alloc::Global;
use std::marker::Model;

/// The tokens that are still to be read, of which rules take the first ones.
#[derive(Drop)]
pub struct Cursor<'a> {
    rest: &'a [Token],
}

impl<'a> Model for Cursor<'a> {
    ghost use Rattle.std.specs.Prelude.{List};
    ghost use Rattle.ix_lexer.specs.declared.token.Token.{Token};

    ghost Value = { List Token };

    ghost view = { λ cursor. cursor.rest.now };
}

impl<'a> Cursor<'a> {
    pub fn new(rest: &'a [Token]) -> Cursor<'a>
        ensures { result ≡ rest.now }
    {
        Cursor { rest }
    }

    /// How many tokens are left.
    pub fn left(&self) -> usize
        ensures { result ≡ length self.now }
    {
        self.rest.len()
    }

    /// Where the next token starts, as a byte of the text; none at the end.
    pub fn start(&self) -> Option<u32>
        ensures { result ≡ option_map (λ token. token.span.from) (first self.now) }
    {
        match self.rest {
            [] => None,
            [token, ..] => Some(token.span.from),
        }
    }
}

/// What is wanted at the next token, where it is there.
impl<'a> Cursor<'a> {
    /// The place of a keyword or a sign.
    pub fn sign(&self, number: u8) -> Option<Span>
        ensures { record {
          found : result ≡ look (a_sign number) self.now;
          there : IfSome result (λ _. 0 < length self.now);
        } }
    {
        match self.rest {
            [] => None,
            [token, ..] => match token.kind {
                TokenKind::Fixed(found) if found == number => Some(token.span),
                _ => None,
            },
        }
    }

    /// An identifier.
    pub fn name(&self, alloc: Global) -> Result<Option<Ident>, Stop>
        ensures { record {
          found : MatchResult result (λ found. found ≡ look a_name self.now) (λ stop. stop ≡ Memory);
          there : IfOk result (λ found. IfSome found (λ _. 0 < length self.now));
        } }
    {
        match self.rest {
            [] => Ok(None),
            [token, ..] => match &token.kind {
                TokenKind::Ident(found) => {
                    let text = Text::from_str(alloc, found.as_str())?;
                    Ok(Some(Ident {
                        text,
                        span: token.span,
                    }))
                }
                _ => Ok(None),
            },
        }
    }

    /// An int literal.
    pub fn number(&self) -> Option<At<i32>>
        ensures { record {
          found : result ≡ look a_number self.now;
          there : IfSome result (λ _. 0 < length self.now);
        } }
    {
        match self.rest {
            [] => None,
            [token, ..] => match token.kind {
                TokenKind::Int(value) => Some(At {
                    value,
                    span: token.span,
                }),
                _ => None,
            },
        }
    }

    /// The place of the literal 2147483648.
    pub fn least(&self) -> Option<Span>
        ensures { record {
          found : result ≡ look a_least self.now;
          there : IfSome result (λ _. 0 < length self.now);
        } }
    {
        match self.rest {
            [] => None,
            [token, ..] => match token.kind {
                TokenKind::MinLit => Some(token.span),
                _ => None,
            },
        }
    }

    /// A string.
    pub fn text(&self, alloc: Global) -> Result<Option<At<Text>>, Stop>
        ensures { record {
          found : MatchResult result (λ found. found ≡ look a_text self.now) (λ stop. stop ≡ Memory);
          there : IfOk result (λ found. IfSome found (λ _. 0 < length self.now));
        } }
    {
        match self.rest {
            [] => Ok(None),
            [token, ..] => match &token.kind {
                TokenKind::Str(text) => {
                    let text = Text::from_str(alloc, text.as_str())?;
                    Ok(Some(At {
                        value: text,
                        span: token.span,
                    }))
                }
                _ => Ok(None),
            },
        }
    }

    /// Goes on to the token behind the next one.
    pub fn advance(&mut self)
        ensures { record {
          rest : self.new ≡ rest self.old;
          one_less : length self.new ≡ length self.old - 1;
        } }
    {
        if let [_, later @ ..] = self.rest {
            self.rest = later;
        }
    }
}

/// The next token taken, where it is what a rule wants there.
impl<'a> Cursor<'a> {
    /// Takes a keyword or a sign and answers its place.
    pub fn take_sign(&mut self, number: u8) -> Result<Span, Stop>
        ensures { record {
          found : MatchResult result (λ span. look (a_sign number) self.old ≡ Some span) (λ stop. look (a_sign number) self.old ≡ None);
          cause : IfErr result (λ stop. stop ≡ Syntax);
          behind : MatchResult result (λ _. self.new ≡ rest self.old) (λ _. self.new ≡ self.old);
          shorter : OnOk result (length self.new < length self.old);
        } }
    {
        let Some(span) = self.sign(number) else {
            return Err(Stop::Syntax);
        };
        self.advance();
        Ok(span)
    }

    /// Takes an identifier.
    pub fn take_name(&mut self, alloc: Global) -> Result<Ident, Stop>
        ensures { record {
          found : MatchResult result (λ name. look a_name self.old ≡ Some name) (λ stop. stop ≢ Memory → look a_name self.old ≡ None);
          cause : IfErr result (λ stop. stop ≢ Memory → stop ≡ Syntax);
          behind : MatchResult result (λ _. self.new ≡ rest self.old) (λ _. self.new ≡ self.old);
          shorter : OnOk result (length self.new < length self.old);
        } }
    {
        let Some(name) = self.name(alloc)? else {
            return Err(Stop::Syntax);
        };
        self.advance();
        Ok(name)
    }
}
