//! The nodes and the edges of a graph, made item by item.

ghost use Rattle.std.specs.Prelude.{◌≡◌, suc, [], IfOk};
ghost use Rattle.ix_core.specs.Code.{block_code, item_code, cond_code};
ghost use Rattle.ix_graph.specs.Graph.{Joins};
ghost use Rattle.ix_graph.specs.Built.{made_of, source_of, with_node, with_edge, led, size, kind_of, branched, ordered, AddsTurns, MakesCode, MakesItem, MakesCondition};

use crate::node::{Edge, NodeKind};
use crate::source::Source;
use ix_core::{Block, Cond, Item};
use std::alloc::{AllocError, Global};

/// The nodes to which `break` and `continue` lead.
#[derive(Clone, Copy)]
pub(crate) struct Jumps {
    pub leave: usize,
    pub again: usize,
}

/// The nodes to which a condition leads: where it holds, and where it fails.
#[derive(Clone, Copy)]
struct Ways {
    holds: usize,
    fails: usize,
}

/// The nodes of a loop: from where its condition is asked, where a turn begins, behind it, and where the next turn begins.
#[derive(Clone, Copy)]
struct Turns {
    tested: usize,
    begun: usize,
    out: usize,
    again: usize,
}

impl Jumps {
    /// Where `break` leads behind a loop.
    fn leaving(&self, out: usize) -> Jumps
        ensures { result ≡ record { leave = out; again = self.now.again } }
    {
        Jumps {
            leave: out,
            again: self.again,
        }
    }

    /// Where `continue` leads to the next turn.
    fn going_on(&self, next: usize) -> Jumps
        ensures { result ≡ record { leave = self.now.leave; again = next } }
    {
        Jumps {
            leave: self.leave,
            again: next,
        }
    }
}

impl Turns {
    /// Where the loop's condition leads: to a turn, or behind the loop.
    fn ways(&self) -> Ways
        ensures { result ≡ record { holds = self.now.begun; fails = self.now.out } }
    {
        Ways {
            holds: self.begun,
            fails: self.out,
        }
    }
}

/// What has been made: the nodes, by their numbers, and the edges, each from a node to a node.
#[derive(Drop)]
pub(crate) struct Builder<'a> {
    pub nodes: Vec<NodeKind<'a>>,
    pub edges: Vec<(usize, Edge, usize)>,
}

/// From where a loop's condition is asked, and where a turn begins.
fn order(test_first: bool, head: usize, turn: usize) -> (usize, usize)
    ensures { result ≡ ordered test_first head turn }
{
    if test_first {
        (head, turn)
    } else {
        (turn, head)
    }
}

impl<'a> Builder<'a> {
    pub fn new(alloc: Global) -> Builder<'a>
        ensures { made_of result ≡ record { kinds = []; edges = [] } }
    {
        Builder {
            nodes: Vec::new(alloc),
            edges: Vec::new(alloc),
        }
    }

    /// Adds a node, and answers its number.
    pub fn add(&mut self, kind: NodeKind<'a>) -> Result<usize, AllocError>
        ensures { record {
          number : IfOk result (λ number. number ≡ size (made_of self.old));
          added : IfOk result (λ _. made_of self.new ≡ with_node (made_of self.old) (kind_of kind.entry));
        } }
    {
        let number = self.nodes.len();
        self.nodes.push(kind)?;
        Ok(number)
    }

    /// Adds three nodes where ways meet, and answers their numbers.
    fn add_joins(&mut self) -> Result<(usize, usize, usize), AllocError>
        ensures { record {
          first : IfOk result (λ joins. joins.0 ≡ size (made_of self.old));
          second : IfOk result (λ joins. joins.1 ≡ suc (size (made_of self.old)));
          third : IfOk result (λ joins. joins.2 ≡ suc (suc (size (made_of self.old))));
          added : IfOk result (λ _. made_of self.new ≡ with_node (with_node (with_node (made_of self.old) Joins) Joins) Joins);
        } }
    {
        let first = self.add(NodeKind::Join)?;
        let second = self.add(NodeKind::Join)?;
        let third = self.add(NodeKind::Join)?;
        Ok((first, second, third))
    }

    /// Adds a node to which the source leads, and answers its number.
    fn add_behind(&mut self, source: Source<'a>, kind: NodeKind<'a>) -> Result<usize, AllocError>
        ensures { record {
          number : IfOk result (λ number. number ≡ size (made_of self.old));
          led : IfOk result (λ _. made_of self.new ≡ led (with_node (made_of self.old) (kind_of kind.entry)) (source_of source.entry) (size (made_of self.old)));
        } }
    {
        let number = self.add(kind)?;
        self.lead(source, number).and(Ok(number))
    }

    /// Adds a node with a test, which leads to where it is true and to where it is false, and answers its number.
    fn add_test(&mut self, kind: NodeKind<'a>, ways: Ways) -> Result<usize, AllocError>
        ensures { record {
          number : IfOk result (λ number. number ≡ size (made_of self.old));
          led : IfOk result (λ number. made_of self.new ≡ branched (with_node (made_of self.old) (kind_of kind.entry)) number ways.holds ways.fails);
        } }
    {
        let number = self.add(kind)?;
        self.add_edge(number, Edge::WhenTrue, ways.holds)
            .and(self.add_edge(number, Edge::WhenFalse, ways.fails))
            .and(Ok(number))
    }

    fn add_edge(&mut self, node: usize, edge: Edge, target: usize) -> Result<(), AllocError>
        ensures { IfOk result (λ _. made_of self.new ≡ with_edge (made_of self.old) node edge target) }
    {
        self.edges
            .push((node, edge, target))
            .map_err(AllocError::from)
    }

    /// Leads what comes from the source to a node.
    fn lead(&mut self, source: Source<'a>, target: usize) -> Result<(), AllocError>
        ensures led { IfOk result (λ _. made_of self.new ≡ led (made_of self.old) (source_of source.entry) target) }
    {
        match source {
            Source::Unreached => Ok(()),
            Source::Onward(node) | Source::Through(node, _) => {
                self.add_edge(node, Edge::Next, target)
            }
        }
    }

    /// Adds the nodes of a loop, of which the source leads to the head.
    fn turns(
        &mut self,
        test_first: bool,
        head_kind: NodeKind<'a>,
        source: Source<'a>,
    ) -> Result<Turns, AllocError>
        ensures made { IfOk result (λ turns. AddsTurns (made_of self.old) (made_of self.new) (kind_of head_kind.entry) (source_of source.entry) test_first turns) }
    {
        let head = self.add(head_kind)?;
        let (turn, out, again) = self.add_joins()?;
        let (tested, begun) = order(test_first, head, turn);
        let turns = Turns {
            tested,
            begun,
            out,
            again,
        };
        self.lead(source, head).and(Ok(turns))
    }

    /// Adds a block, from the source to the node `end`.
    #[cycle(build)]
    pub fn block(
        &mut self,
        block: &'a Block,
        source: Source<'a>,
        end: usize,
        jumps: Jumps,
    ) -> Result<(), AllocError>
        ensures made { IfOk result (λ _. MakesCode (block_code block.now) (source_of source.entry) end jumps.leave jumps.again (made_of self.old) (made_of self.new)) }
    {
        let mut last = source;
        for item in block.items.as_slice() {
            last = self.item(item, last, jumps)?;
        }
        self.lead(last, end)
    }

    /// Adds an item, and answers the source behind it.
    #[cycle(build)]
    fn item(
        &mut self,
        item: &'a Item,
        source: Source<'a>,
        jumps: Jumps,
    ) -> Result<Source<'a>, AllocError>
        ensures made { IfOk result (λ last. MakesItem (item_code item.now) (source_of source.entry) (source_of last) jumps.leave jumps.again (made_of self.old) (made_of self.new)) }
    {
        match item {
            Item::Do(op) => {
                let at = self.add_behind(source, NodeKind::Do(op))?;
                Ok(Source::Through(at, op))
            }
            Item::If(cond, first, second) => {
                let (holds, fails, behind) = self.add_joins()?;
                self.cond(cond, source, Ways { holds, fails }, jumps)?;
                self.block(first, Source::Onward(holds), behind, jumps)?;
                self.block(second, Source::Onward(fails), behind, jumps)
                    .and(Ok(Source::Onward(behind)))
            }
            Item::Break => self.lead(source, jumps.leave).and(Ok(Source::Unreached)),
            Item::Continue => self.lead(source, jumps.again).and(Ok(Source::Unreached)),
            Item::Return(value, span) => {
                let known = source.written_answer(*value);
                self.add_behind(source, NodeKind::Return(*value, known, *span))
                    .and(Ok(Source::Unreached))
            }
            Item::Throw(_, _) => {
                self.add_behind(source, NodeKind::Join)
                    .and(Ok(Source::Unreached))
            }
            Item::Loop {
                test_first,
                cond,
                body,
                next,
                number,
                scope,
            } => {
                let turns = self.turns(*test_first, NodeKind::Head(*number, *scope), source)?;
                let around = jumps.leaving(turns.out);
                let within = around.going_on(turns.again);
                self.cond(cond, Source::Onward(turns.tested), turns.ways(), around)?;
                self.block(body, Source::Onward(turns.begun), turns.again, within)?;
                self.block(next, Source::Onward(turns.again), turns.tested, around)
                    .and(Ok(Source::Onward(turns.out)))
            }
        }
    }

    /// Adds a condition, from the source to the node where it holds and the node where it fails.
    #[cycle(build)]
    fn cond(
        &mut self,
        cond: &'a Cond,
        source: Source<'a>,
        ways: Ways,
        jumps: Jumps,
    ) -> Result<(), AllocError>
        ensures made { IfOk result (λ _. MakesCondition (cond_code cond.now) (source_of source.entry) ways.holds ways.fails jumps.leave jumps.again (made_of self.old) (made_of self.new)) }
    {
        match cond {
            Cond::Known(true) => self.lead(source, ways.holds),
            Cond::Known(false) => self.lead(source, ways.fails),
            Cond::Compare(block, test) => {
                let at = self.add_test(NodeKind::Compare(test), ways)?;
                self.block(block, source, at, jumps)
            }
            Cond::Truth(block, slot) => {
                let at = self.add_test(NodeKind::Truth(block, *slot), ways)?;
                self.block(block, source, at, jumps)
            }
            Cond::Both(first, second) => {
                let holds = self.add(NodeKind::Join)?;
                let fails = ways.fails;
                self.cond(first.get(), source, Ways { holds, fails }, jumps)?;
                self.cond(second.get(), Source::Onward(holds), ways, jumps)
            }
            Cond::Either(first, second) => {
                let fails = self.add(NodeKind::Join)?;
                let holds = ways.holds;
                self.cond(first.get(), source, Ways { holds, fails }, jumps)?;
                self.cond(second.get(), Source::Onward(fails), ways, jumps)
            }
            Cond::Opposite(asked) => {
                let ways = Ways {
                    holds: ways.fails,
                    fails: ways.holds,
                };
                self.cond(asked.get(), source, ways, jumps)
            }
        }
    }
}
