//! Creations of objects and arrays (JLS 15.9, 15.10.1).
ghost use Rattle.std.specs.Prelude.{◌≡◌, ◌<◌, ◌≤◌, ◌+◌, max, true, length, OnOk, IfOk};
ghost use Rattle.ix_lexer.specs.declared.fixed.TheConstants.{OPEN_BRACE, CLOSE_BRACKET};
ghost use Rattle.ix_grammar.specs.declared.found.Form.TheVariants.{Array, Statement};
ghost use Rattle.ix_grammar.specs.AnnotGrammar as annots;
ghost use Rattle.ix_grammar.specs.ExprNodes as nodes;
ghost use Rattle.ix_grammar_rules.specs.ExprRules as spec;
ghost use Rattle.ix_grammar.specs.Patterns.{a_sign};
ghost use Rattle.ix_grammar_rules.specs.Reading.{ReadsParts};
ghost use Rattle.ix_grammar_rules.specs.Rule.{run, take, bind, pure, stop};
ghost use Rattle.ix_grammar_rules.specs.Taking.{Follows};
ghost use Rattle.ix_grammar.specs.TypeGrammar.{base_height};
ghost use Rattle.ix_grammar_rules.specs.TypeRules as types;

use crate::grammar::{Grammar, extra};
use ix_grammar::found::{At, Form, Found, Notes};
use ix_grammar_rules::aims::{Aim, Part};
use ix_grammar_rules::stop::Stop;
use ix_lexer::fixed::{AT, BOOLEAN, CLOSE_BRACKET, INT, OPEN_BRACE, OPEN_BRACKET, OPEN_PAREN};
use ix_parse_base::annotations::{annots_behind, no_notes};
use ix_parse_base::cursor::Cursor;
use ix_parse_base::nodes::{created, created_type, new_array, new_items};
use ix_parse_base::type_trees::pairs;
use ix_text::Span;
use ix_tree::{BaseTree, Ident};
use std::alloc::Global;

impl<F: Fn(Global, &mut Cursor<'_>, u32, Part) -> Result<Found, Stop>> Grammar<F> {
    /// `{"[" "]"} Items`, behind the first pair of brackets
    #[tactic(auto, unfolding(ix_grammar_rules::specs::Rule::run))]
    fn array_of_items(
        &self,
        cursor: &mut Cursor<'_>,
        aim: Aim,
        start: Span,
        base: At<BaseTree>,
        notes: Notes,
        right: Span,
    ) -> Result<Found, Stop>
        requires { record {
          parts : ReadsParts self.now.left (F.pre self.now.part) (F.post self.now.part);
          few : length cursor.old ≤ 200000;
          low : notes.height ≤ 3;
          type_room : max (base_height base.value) notes.height + 2 ≤ self.now.left;
          room : spec.extra aim Array + 2 ≤ self.now.left;
        } }
        ensures { record {
          reads : Follows (run (bind (types.pairs 1 right) (λ found. take (a_sign OPEN_BRACE) true (λ open_at. bind (spec.items (spec.inner_init (spec.below self.now.left) (spec.extra aim Array)) open_at) (λ s. pure (nodes.new_items start (nodes.created_type base notes found) s))) stop)) cursor.old) result cursor.new;
          no_longer : OnOk result (length cursor.new ≤ length cursor.old);
          fits : IfOk result (λ f. f.height ≤ self.now.left);
          some : IfOk result (λ f. 0 < f.height);
        } }
    {
        let brackets = pairs(cursor, right)?;
        let left = cursor.take_sign(OPEN_BRACE)?;
        let entries = self.items(cursor, extra(aim, Form::Array), left)?;
        let ty = created_type(base, notes, brackets);
        new_items(self.alloc, self.left, start, ty, entries)
    }

    /// `Expr "]" {"[" "]"}`, behind the first bracket
    #[tactic(auto, unfolding(ix_grammar_rules::specs::Rule::run))]
    fn array_of_length(
        &self,
        cursor: &mut Cursor<'_>,
        aim: Aim,
        start: Span,
        base: At<BaseTree>,
        notes: Notes,
    ) -> Result<Found, Stop>
        requires { record {
          parts : ReadsParts self.now.left (F.pre self.now.part) (F.post self.now.part);
          few : length cursor.old ≤ 200000;
          low : notes.height ≤ 3;
          type_room : max (base_height base.value) notes.height + 2 ≤ self.now.left;
          room : spec.extra aim Array + 2 ≤ self.now.left;
        } }
        ensures { record {
          reads : Follows (run (bind (spec.inner (spec.below self.now.left) (spec.extra aim Array)) (λ g. take (a_sign CLOSE_BRACKET) true (λ right. bind (types.pairs 1 right) (λ found. pure (nodes.new_array start (nodes.created_type base notes found) g found.span))) stop)) cursor.old) result cursor.new;
          no_longer : OnOk result (length cursor.new ≤ length cursor.old);
          fits : IfOk result (λ f. f.height ≤ self.now.left);
          some : IfOk result (λ f. 0 < f.height);
        } }
    {
        let length = self.inner(cursor, extra(aim, Form::Array))?;
        let right = cursor.take_sign(CLOSE_BRACKET)?;
        let brackets = pairs(cursor, right)?;
        let end = brackets.span;
        let ty = created_type(base, notes, brackets);
        new_array(self.alloc, self.left, start, ty, length, end)
    }

    /// Behind the first bracket: a length, or a bracket and the entries
    #[tactic(auto, unfolding(ix_grammar_rules::specs::Rule::run, ix_grammar_rules::specs::ExprRules::array_rest))]
    fn array_rest(
        &self,
        cursor: &mut Cursor<'_>,
        aim: Aim,
        start: Span,
        base: At<BaseTree>,
        notes: Notes,
    ) -> Result<Found, Stop>
        requires { record {
          parts : ReadsParts self.now.left (F.pre self.now.part) (F.post self.now.part);
          few : length cursor.old ≤ 200000;
          low : notes.height ≤ 3;
          type_room : max (base_height base.value) notes.height + 2 ≤ self.now.left;
          room : spec.extra aim Array + 2 ≤ self.now.left;
        } }
        ensures { record {
          reads : Follows (run (spec.array_rest (spec.below self.now.left) aim start base notes) cursor.old) result cursor.new;
          no_longer : OnOk result (length cursor.new ≤ length cursor.old);
          fits : IfOk result (λ f. f.height ≤ self.now.left);
          some : IfOk result (λ f. 0 < f.height);
        } }
    {
        if let Some(right) = cursor.sign(CLOSE_BRACKET) {
            cursor.advance();
            return self.array_of_items(cursor, aim, start, base, notes, right);
        }
        self.array_of_length(cursor, aim, start, base, notes)
    }

    /// An array, behind its base
    #[tactic(auto, unfolding(ix_grammar_rules::specs::Rule::run, ix_grammar_rules::specs::ExprRules::array))]
    fn array(
        &self,
        cursor: &mut Cursor<'_>,
        aim: Aim,
        start: Span,
        base: At<BaseTree>,
        notes: Notes,
    ) -> Result<Found, Stop>
        requires { record {
          parts : ReadsParts self.now.left (F.pre self.now.part) (F.post self.now.part);
          few : length cursor.old ≤ 200000;
          low : notes.height ≤ 3;
          type_room : max (base_height base.value) notes.height + 2 ≤ self.now.left;
          room : spec.extra aim Array + 2 ≤ self.now.left;
        } }
        ensures { record {
          reads : Follows (run (spec.array (spec.below self.now.left) aim start base notes) cursor.old) result cursor.new;
          no_longer : OnOk result (length cursor.new ≤ length cursor.old);
          fits : IfOk result (λ f. f.height ≤ self.now.left);
          some : IfOk result (λ f. 0 < f.height);
        } }
    {
        cursor.take_sign(OPEN_BRACKET)?;
        self.array_rest(cursor, aim, start, base, notes)
    }

    /// Behind a name: the arguments of an object, or an array of objects
    #[tactic(auto, unfolding(ix_grammar_rules::specs::Rule::run, ix_grammar_rules::specs::ExprRules::object_or_array))]
    fn object_or_array(
        &self,
        cursor: &mut Cursor<'_>,
        aim: Aim,
        start: Span,
        name: Ident,
    ) -> Result<Found, Stop>
        requires { record {
          parts : ReadsParts self.now.left (F.pre self.now.part) (F.post self.now.part);
          few : length cursor.old ≤ 200000;
          room : spec.extra aim Statement + 2 ≤ self.now.left;
        } }
        ensures { record {
          reads : Follows (run (spec.object_or_array (spec.below self.now.left) aim self.now.left start name) cursor.old) result cursor.new;
          no_longer : OnOk result (length cursor.new ≤ length cursor.old);
          fits : IfOk result (λ f. f.height ≤ self.now.left);
          some : IfOk result (λ f. 0 < f.height);
        } }
    {
        if let Some(_opening) = cursor.sign(OPEN_PAREN) {
            cursor.advance();
            let args = self.args(cursor, extra(aim, Form::Statement))?;
            return created(self.alloc, self.left, start, name, args);
        }
        let Some(_opening) = cursor.sign(OPEN_BRACKET) else {
            return Err(Stop::Syntax);
        };
        if self.left < extra(aim, Form::Array) + 3 {
            return Err(Stop::TooDeep);
        }
        cursor.advance();
        let span = name.span;
        let base = At {
            value: BaseTree::Named(name),
            span,
        };
        self.array_rest(cursor, aim, start, base, no_notes(self.alloc))
    }

    /// An array, behind the annotations of its type
    #[tactic(auto, unfolding(ix_grammar_rules::specs::Rule::run, ix_grammar_rules::specs::ExprRules::noted_array))]
    fn noted_array(
        &self,
        cursor: &mut Cursor<'_>,
        aim: Aim,
        start: Span,
        notes: Notes,
    ) -> Result<Found, Stop>
        requires { record {
          parts : ReadsParts self.now.left (F.pre self.now.part) (F.post self.now.part);
          few : length cursor.old ≤ 200000;
          low : notes.height ≤ 3;
          type_room : notes.height + 2 ≤ self.now.left;
          room : spec.extra aim Array + 4 ≤ self.now.left;
        } }
        ensures { record {
          reads : Follows (run (spec.noted_array (spec.below self.now.left) aim start notes) cursor.old) result cursor.new;
          no_longer : OnOk result (length cursor.new ≤ length cursor.old);
          fits : IfOk result (λ f. f.height ≤ self.now.left);
          some : IfOk result (λ f. 0 < f.height);
        } }
    {
        if let Some(span) = cursor.sign(INT) {
            cursor.advance();
            let value = BaseTree::Int;
            return self.array(cursor, aim, start, At { value, span }, notes);
        }
        if let Some(span) = cursor.sign(BOOLEAN) {
            cursor.advance();
            let value = BaseTree::Boolean;
            return self.array(cursor, aim, start, At { value, span }, notes);
        }
        let name = cursor.take_name(self.alloc)?;
        let span = name.span;
        let value = BaseTree::Named(name);
        self.array(cursor, aim, start, At { value, span }, notes)
    }

    /// An array, behind the `@` of the first annotation of its type
    #[tactic(auto, unfolding(ix_grammar_rules::specs::Rule::run, ix_grammar_rules::specs::ExprRules::noted), using(crate::proofs::LowerParts::bind_twice))]
    fn noted(&self, cursor: &mut Cursor<'_>, aim: Aim, start: Span, at: Span) -> Result<Found, Stop>
        requires { record {
          parts : ReadsParts self.now.left (F.pre self.now.part) (F.post self.now.part);
          few : length cursor.old ≤ 200000;
          room : spec.extra aim Array + 4 ≤ self.now.left;
        } }
        ensures { record {
          reads : Follows (run (spec.noted (spec.below self.now.left) aim self.now.left start at) cursor.old) result cursor.new;
          no_longer : OnOk result (length cursor.new ≤ length cursor.old);
          fits : IfOk result (λ f. f.height ≤ self.now.left);
          some : IfOk result (λ f. 0 < f.height);
        } }
    {
        let height = self.left - (extra(aim, Form::Array) + 2);
        let notes = annots_behind(self.alloc, cursor, height, at)?;
        self.noted_array(cursor, aim, start, notes)
    }

    /// An object or an array, behind `new`
    #[tactic(auto, unfolding(ix_grammar_rules::specs::Rule::run, ix_grammar_rules::specs::ExprRules::creation))]
    pub fn creation(&self, cursor: &mut Cursor<'_>, aim: Aim, start: Span) -> Result<Found, Stop>
        requires { record {
          parts : ReadsParts self.now.left (F.pre self.now.part) (F.post self.now.part);
          few : length cursor.old ≤ 200000;
          room : spec.extra aim Statement + 2 ≤ self.now.left;
        } }
        ensures { record {
          reads : Follows (run (spec.creation (spec.below self.now.left) aim self.now.left start) cursor.old) result cursor.new;
          no_longer : OnOk result (length cursor.new ≤ length cursor.old);
          fits : IfOk result (λ f. f.height ≤ self.now.left);
          some : IfOk result (λ f. 0 < f.height);
        } }
    {
        if let Some(name) = cursor.name(self.alloc)? {
            cursor.advance();
            return self.object_or_array(cursor, aim, start, name);
        }
        let height = extra(aim, Form::Array) + 2;
        if let Some(span) = cursor.sign(INT) {
            if self.left < height {
                return Err(Stop::TooDeep);
            }
            cursor.advance();
            let value = BaseTree::Int;
            return self.array(cursor, aim, start, At { value, span }, no_notes(self.alloc));
        }
        if let Some(span) = cursor.sign(BOOLEAN) {
            if self.left < height {
                return Err(Stop::TooDeep);
            }
            cursor.advance();
            let value = BaseTree::Boolean;
            return self.array(cursor, aim, start, At { value, span }, no_notes(self.alloc));
        }
        let Some(at) = cursor.sign(AT) else {
            return Err(Stop::Syntax);
        };
        if self.left < height + 2 {
            return Err(Stop::TooDeep);
        }
        cursor.advance();
        self.noted(cursor, aim, start, at)
    }
}
