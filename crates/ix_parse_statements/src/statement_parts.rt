//! What the rules of statements read the statements within a statement with. It is a parameter, so that each rule is proved by itself.
ghost use Rattle.std.specs.Prelude.{◌<◌, ◌≤◌, ◌+◌, length, OnOk, IfOk};
ghost use Rattle.ix_grammar_rules.specs.ReadingStatements.{ReadsStatements};
ghost use Rattle.ix_grammar_rules.specs.Rule.{run};
ghost use Rattle.ix_grammar_rules.specs.StmtRules as spec;
ghost use Rattle.ix_grammar_rules.specs.Taking.{Follows};

use ix_grammar::found::FoundStmt;
use ix_grammar_rules::stop::Stop;
use ix_parse_base::cursor::Cursor;
use std::alloc::Global;

/// The rules for statements of a height of at most `left`, with what reads the statements of a lower height. That is told whether the statement
/// may declare locals.
#[derive(Clone, Copy)]
pub struct Statements<F> {
    pub alloc: Global,
    /// The height that is left for a statement.
    pub left: u32,
    pub part: F,
}

impl<F: Fn(Global, &mut Cursor<'_>, u32, bool) -> Result<FoundStmt, Stop>> Statements<F> {
    /// A statement that declares no locals.
    #[tactic(auto, using(crate::proofs::LowerStatements::lower_statements))]
    pub fn plain_part(&self, cursor: &mut Cursor<'_>) -> Result<FoundStmt, Stop>
        requires { record {
          parts : ReadsStatements self.now.left (F.pre self.now.part) (F.post self.now.part);
          few : length cursor.old ≤ 200000;
          room : 0 < self.now.left;
        } }
        ensures { record {
          reads : Follows (run (spec.stmts_below self.now.left).plain cursor.old) result cursor.new;
          shorter : OnOk result (length cursor.new < length cursor.old);
          fits : IfOk result (λ found. found.height + 1 ≤ self.now.left);
        } }
    {
        (self.part)(self.alloc, cursor, self.left - 1, false)
    }

    /// A statement of a block.
    #[tactic(auto, using(crate::proofs::LowerStatements::lower_statements))]
    pub fn block_part(&self, cursor: &mut Cursor<'_>) -> Result<FoundStmt, Stop>
        requires { record {
          parts : ReadsStatements self.now.left (F.pre self.now.part) (F.post self.now.part);
          few : length cursor.old ≤ 200000;
          room : 0 < self.now.left;
        } }
        ensures { record {
          reads : Follows (run (spec.stmts_below self.now.left).block cursor.old) result cursor.new;
          shorter : OnOk result (length cursor.new < length cursor.old);
          fits : IfOk result (λ found. found.height + 1 ≤ self.now.left);
        } }
    {
        (self.part)(self.alloc, cursor, self.left - 1, true)
    }
}
