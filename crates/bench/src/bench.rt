// The bench and its calls.
ghost use Rattle.std.specs.Prelude.{◌≡◌, ◌≤◌, length, drop, replicate, IfOk, OnErr};
ghost use Rattle.checking.specs.Checked.{policy_words};
ghost use Rattle.engine.specs.Shapes.{Shows};
ghost use Rattle.steps.specs.States.{opened};
ghost use Rattle.steps.specs.Steps.{Step, Compile, Union, Sequence, Star, Install, Forward};
ghost use Rattle.bench.specs.Sizes.{sizes_in};
ghost use Rattle.bench.specs.Replies.{word_reply, install_reply, forward_reply};
ghost use Rattle.bench.specs.Texts.{CompilesText};
ghost use Rattle.bench.specs.Reading.{PassesTheCheck, ForwardsAlike};

use super::installing::put_in_force;
use super::memories::Memories;
use counts::Counts;
use engine::{Engine, Shape};
use faults::BenchFault;
use format::WORDS_LIMIT;
use listing::drop_table;
use policy::{CheckedPolicy, read_policy};
use std::marker::{Model, PhantomData};
use tables::{CheckedTable, TableInForce};
use weights::WeightKind;

#[derive(Drop)]
pub struct Bench<'a, K: WeightKind> {
    engine: Engine<'a, K>,
    table: TableInForce<'a, K>,
}

impl<'a, K: WeightKind> Model for Bench<'a, K> {
    ghost use Rattle.steps.specs.States.{State};
    ghost use Rattle.bench.specs.Views.{state_code, state_of, SoundTable};

    ghost Value = { State };

    ghost coded = { state_code };

    ghost view = { λ b. state_of b.engine b.table.words.now b.table.count };

    ghost invariant = { λ b. SoundTable K.WeightKind.ops b.table.words.now b.table.count };
}

impl<'a, K: WeightKind> Bench<'a, K> {
    // A bench in memories that fit: nothing is in store, and the table of drop is in force.
    pub fn open(memories: Memories<'a>) -> Bench<'a, K>
        ensures { result ≡ opened (sizes_in memories.entry) }
    {
        let Memories {
            actions,
            cells,
            nodes,
            table,
        } = memories;
        let words = drop_table::<K>();
        table[0] = words[0];
        table[1] = words[1];
        Bench {
            engine: Engine::open(actions, cells, nodes),
            table: TableInForce {
                words: table,
                count: 2,
                kind: PhantomData,
            },
        }
    }
}

impl<K: WeightKind> Bench<'_, K> {
    // The diagram of a policy. Here and below a refusal changes nothing.
    pub fn compile(&mut self, policy: &CheckedPolicy) -> Result<u32, BenchFault>
        ensures { Step K.WeightKind.ops self.old (Compile (policy_words policy.now)) (word_reply result) self.new }
    {
        Ok(self.engine.compile(policy)?)
    }

    // The diagram of a policy text, or the text's own fault.
    pub fn compile_text(&mut self, text: &[u8]) -> Result<u32, BenchFault>
        ensures { CompilesText K.WeightKind.ops text.now self.old result self.new }
    {
        let mut words = [0; WORDS_LIMIT];
        let policy = read_policy(text, &mut words)?;
        self.compile(&policy)
    }

    pub fn union(&mut self, left: u32, right: u32) -> Result<u32, BenchFault>
        ensures { Step K.WeightKind.ops self.old (Union left right) (word_reply result) self.new }
    {
        Ok(self.engine.union(left, right)?)
    }

    // The first diagram and then the second.
    pub fn sequence(&mut self, first: u32, second: u32) -> Result<u32, BenchFault>
        ensures { Step K.WeightKind.ops self.old (Sequence first second) (word_reply result) self.new }
    {
        Ok(self.engine.sequence(first, second)?)
    }

    // A diagram any number of times.
    pub fn star(&mut self, operand: u32) -> Result<u32, BenchFault>
        ensures { Step K.WeightKind.ops self.old (Star operand) (word_reply result) self.new }
    {
        Ok(self.engine.star(operand)?)
    }

    // Puts the table of a diagram in force. The answer is how many words it has.
    pub fn install(&mut self, word: u32) -> Result<usize, BenchFault>
        ensures { Step K.WeightKind.ops self.old (Install word) (install_reply result) self.new }
    {
        put_in_force(&self.engine, word, &mut self.table)
    }

    // Forwards a frame through the table in force. The answer is the number of words written.
    pub fn forward(&self, frame: &[u32], out: &mut [u32]) -> Result<usize, BenchFault>
        ensures step { Step K.WeightKind.ops self.now (Forward frame.now (length out.old)) (forward_reply result out.new) self.now }
        ensures past { IfOk result (λ n. (n ≤ length out.old) × (drop n out.new ≡ drop n out.old)) }
        ensures zeros { OnErr result (out.new ≡ replicate (length out.old) 0) }
    {
        Ok(self.table.checked().forward(frame, out)?)
    }

    // The table in force.
    pub fn table(&self) -> CheckedTable<'_, K>
        ensures words { result.words.now ≡ self.now.table }
        ensures check { PassesTheCheck K.WeightKind.ops self.now.table }
        ensures forwards { ForwardsAlike K.WeightKind.ops self.now }
    {
        self.table.checked()
    }

    // What a diagram in store is at its top; none where the word is not held.
    pub fn read(&self, word: u32) -> Option<Shape>
        ensures { Shows self.now.stored word result }
    {
        self.engine.read(word)
    }

    // How many records are in store.
    pub fn records(&self) -> Counts
        ensures actions { result.actions ≡ length self.now.stored.actions }
        ensures cells { result.cells ≡ length self.now.stored.leaves }
        ensures nodes { result.nodes ≡ length self.now.stored.nodes }
    {
        self.engine.records()
    }
}
