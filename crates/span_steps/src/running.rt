//! What a script has set and gathered, and what each command makes of it.
ghost use Rattle.std.specs.Prelude.{◌≡◌, ◌++◌, None, IfErr, IfOk, IsOkUnless, OnOk, ◌⊎◌, [], codes, vec_len};
ghost use Rattle.span_machine.specs.declared.step.Step.TheVariants as step_of_kind;
ghost use Rattle.span_answers.specs.Lines.{Begins, number_line};
ghost use Rattle.span_steps.specs.Steps.{Takes, IsQueried, IsBegun};
ghost use Rattle.span_steps.specs.States.{BeginsLoad, Deletes, EndsLoad, Gathers, IsDeletion, IsExplained, IsFirst, IsLoadLine, IsSplit, LoadsRecord, RefusesClock, RefusesDelete, RefusesParam, RefusesRecord, RefusesWrite, SetsClock, SetsParam, Writes, refused_load};
ghost use Rattle.span_mutate.specs.Batches.{row_mutations};
ghost use Rattle.span_records.specs.Layouts.{IsOfRecord, heading_of};
ghost use Rattle.span_records.specs.Record.{record_fields};
ghost use Rattle.span_steps.specs.Running.{Adds, AddsAt, Changes, Gathered, count_of, load_of, state_in, state_of, text_of};

use super::load::{Load, Records, one_row};
use super::refused::Refused;
use super::steps::{OWNER, read, split_refusal, take_step};
use csv::StringRecord;
use span_answers::answer::Answers;
use span_command::line::Line;
use span_core::database::Core;
use span_core::{
    Bound, Interval, Kind, Mutation, MutationKind, Params, Refusal, Reply, Schema, Step, Text,
    Transaction,
};
use span_mutate::batch::{BatchRow, MutationBatch};
use span_records::layout::RecordLayout;
use span_value::cell::read_cell;
use std::alloc::Global;
use std::mem;

/// A script between two lines.
#[derive(Drop)]
pub struct RunningScript {
    pub clock: Interval,
    params: Params,
    /// The mutations of the next transaction, without those of the load whose lines are read.
    gathered: Vec<MutationBatch>,
    /// The load whose lines are read.
    pub load: Option<Load>,
    /// For records that are not their pieces between commas; what it holds between records means nothing.
    fields: StringRecord,
}

impl RunningScript {
    /// The beginning of a script: the clock is at 0, nothing is set and nothing gathered. It takes no memory.
    pub fn new(alloc: Global) -> RunningScript
        ensures { IsFirst (state_of result) }
    {
        RunningScript {
            clock: Interval {
                earliest: 0,
                latest: 0,
            },
            params: Params::new(alloc),
            gathered: Vec::new(alloc),
            load: None,
            fields: StringRecord::new(alloc),
        }
    }

    /// Sets the clock. `BadInterval` and `TimestampRange` as `Interval::new`.
    pub fn set_clock(&mut self, earliest: u64, latest: u64) -> Result<(), Refusal>
        ensures { Changes
            (SetsClock earliest latest (state_of self.old))
            (RefusesClock earliest latest) self.old self.new result }
    {
        self.clock = Interval::new(earliest, latest)?;
        Ok(())
    }

    /// Gives a parameter its value. `WrongType`: the cell is none of the type.
    pub fn set_param(
        &mut self,
        alloc: Global,
        name: &str,
        kind: Kind,
        cell: &str,
    ) -> Result<(), Refusal>
        ensures { Changes
            (SetsParam name.now kind cell.now (state_of self.old))
            (RefusesParam kind cell.now) self.old self.new result }
    {
        let value = read_cell(alloc, kind, cell)?;
        self.params.add(Text::from_str(alloc, name)?, kind, value)
    }

    /// Gathers the write of a record. `NoTable`, `NoColumn` and `WrongType` as `RecordLayout::of_columns` and `gather_record`.
    pub fn write(
        &mut self,
        alloc: Global,
        schema: &Schema,
        kind: MutationKind,
        table: &str,
        columns: &str,
        text: &str,
    ) -> Result<(), Refusal>
        requires { self.old.load ≡ None }
        ensures { Changes
            (Writes schema.now kind table.now columns.now text.now (state_of self.old))
            (RefusesWrite schema.now kind table.now columns.now text.now) self.old self.new result }
    {
        let layout = RecordLayout::of_columns(alloc, schema, table, columns)?;
        self.gather_record(alloc, layout, kind, text)
    }

    /// Gathers a deletion. `NoTable` and `WrongType` as `RecordLayout::of_key` and `gather_record`.
    pub fn delete(
        &mut self,
        alloc: Global,
        schema: &Schema,
        table: &str,
        text: &str,
    ) -> Result<(), Refusal>
        requires { self.old.load ≡ None }
        ensures { Changes
            (Deletes schema.now table.now text.now (state_of self.old))
            (RefusesDelete schema.now table.now text.now) self.old self.new result }
    {
        let layout = RecordLayout::of_key(alloc, schema, table)?;
        self.gather_record(alloc, layout, MutationKind::Delete, text)
    }

    /// Gathers the mutation of a record. `WrongType`: a wrong number of fields, or a field that is no cell of its
    /// column's type.
    fn gather_record(
        &mut self,
        alloc: Global,
        layout: RecordLayout,
        kind: MutationKind,
        text: &str,
    ) -> Result<(), Refusal>
        requires { self.old.load ≡ None }
        ensures { Changes
            (Gathers layout kind text.now (state_of self.old))
            (RefusesRecord layout kind text.now) self.old self.new result }
    {
        let row = layout.read_row(alloc, text, &mut self.fields)?;
        let rows = one_row(alloc, row)?;
        self.gather(alloc, layout, kind, rows)
    }

    /// Gathers the mutations that rows are under a layout's heading. `OutOfMemory` is the only refusal.
    fn gather(
        &mut self,
        alloc: Global,
        layout: RecordLayout,
        kind: MutationKind,
        rows: Vec<BatchRow>,
    ) -> Result<(), Refusal>
        requires { self.old.load ≡ None }
        ensures { Gathered (row_mutations (heading_of layout kind) rows.items) self.old self.new result }
    {
        let heading = layout.into_heading(alloc, kind)?;
        self.gathered.push(MutationBatch::new(heading, rows))?;
        Ok(())
    }

    /// The mutation of a record. `WrongType`: a wrong number of fields, or a field that is no cell of its column's
    /// type.
    fn read_record(
        &mut self,
        alloc: Global,
        layout: &RecordLayout,
        kind: MutationKind,
        text: &str,
    ) -> Result<Mutation, Refusal>
        ensures read { IfOk result (λ m. IsOfRecord layout.now kind (record_fields text.now) m) }
        ensures refused { IfErr result
            (λ why. (why ≡ Refusal.OutOfMemory) ⊎ RefusesRecord layout.now kind text.now why) }
        ensures kept { state_of self.new ≡ state_of self.old }
    {
        layout.read_mutation(alloc, kind, text, &mut self.fields)
    }

    /// The deletion of the row whose key a record has. `NoTable` and `WrongType` as `RecordLayout::of_key` and `read_record`.
    fn read_deletion(
        &mut self,
        alloc: Global,
        schema: &Schema,
        table: &str,
        text: &str,
    ) -> Result<Mutation, Refusal>
        ensures read { IfOk result (λ m. IsDeletion schema.now table.now text.now m) }
        ensures refused { IfErr result
            (λ why. (why ≡ Refusal.OutOfMemory) ⊎ RefusesDelete schema.now table.now text.now why) }
        ensures kept { state_of self.new ≡ state_of self.old }
    {
        let layout = RecordLayout::of_key(alloc, schema, table)?;
        self.read_record(alloc, &layout, MutationKind::Delete, text)
    }

    /// Begins the load of this line.
    pub fn begin_load(
        &mut self,
        alloc: Global,
        schema: &Schema,
        number: u64,
        table: &str,
        columns: &str,
    )
        requires { self.old.load ≡ None }
        ensures { BeginsLoad schema.now table.now columns.now (state_of self.old) (state_of self.new) }
    {
        let records = match RecordLayout::of_columns(alloc, schema, table, columns) {
            Ok(layout) => Ok(Records {
                layout,
                rows: Vec::new(alloc),
            }),
            Err(why) => Err(Refused { line: number, why }),
        };
        self.load = Some(Load { records });
    }

    /// Takes a line of a load. Its answer comes with its `end`.
    #[tactic(auto, using(span_answers::proofs::Begun::begins_itself, span_answers::proofs::Begun::begins_on))]
    pub fn load_line(
        &mut self,
        alloc: Global,
        load: Load,
        number: u64,
        line: Line<'_>,
        answers: &mut Answers,
    ) -> Result<(), Refused>
        requires { self.old.load ≡ None }
        ensures exact { AddsAt
            (λ answer. IsLoadLine (load_of (count_of self.old) load) (text_of line.entry)
            (state_in load self.old) answer (state_of self.new))
            answers.old answers.new result }
        ensures grows { Begins answers.old answers.new }
    {
        match line {
            Line::Text("end") => self.end_load(alloc, load, number, answers),
            Line::Text(text) => {
                self.load_record(alloc, load, number, text);
                Ok(())
            }
            Line::Unreadable => {
                self.load_unreadable(load, number);
                Ok(())
            }
        }
    }

    /// Reads a record of a load that is not refused yet.
    fn load_record(&mut self, alloc: Global, load: Load, number: u64, text: &str)
        ensures { LoadsRecord (load_of (count_of self.old) load) text.now (state_in load self.old) (state_of self.new) }
    {
        let Load { records } = load;
        let records = match records {
            Ok(records) => match records.with_record(alloc, text, &mut self.fields) {
                Ok(records) => Ok(records),
                Err(why) => Err(Refused { line: number, why }),
            },
            Err(refused) => Err(refused),
        };
        self.load = Some(Load { records });
    }

    /// Refuses a load for an unreadable line, which goes before other causes. The first one counts. What the load has
    /// read is let go.
    fn load_unreadable(&mut self, load: Load, number: u64)
        ensures { state_of self.new
            ≡ refused_load (load_of (count_of self.old) load) Refusal.BadCommand (state_in load self.old) }
    {
        let why = Refusal::BadCommand;
        let refused = match load.records {
            Err(refused) if refused.why == why => refused,
            _ => Refused { line: number, why },
        };
        self.load = Some(Load {
            records: Err(refused),
        });
    }

    /// Answers a load at its `end`, the line of this number. Where memory runs out the load has gathered nothing.
    #[tactic(auto, using(span_answers::proofs::Begun::begins_itself, span_answers::proofs::Begun::begins_on))]
    fn end_load(
        &mut self,
        alloc: Global,
        load: Load,
        number: u64,
        answers: &mut Answers,
    ) -> Result<(), Refused>
        requires { self.old.load ≡ None }
        ensures exact { AddsAt
            (λ answer. EndsLoad (load_of (count_of self.old) load) (state_in load self.old) answer (state_of self.new))
            answers.old answers.new result }
        ensures grows { Begins answers.old answers.new }
    {
        match load.records {
            Ok(records) => match self.gather_load(alloc, records, answers) {
                Ok(()) => Ok(()),
                Err(why) => Err(Refused { line: number, why }),
            },
            Err(refused) => Err(refused),
        }
    }

    /// Gathers what a load has read, and answers how much that is. The answer goes first: nothing has changed then
    /// where memory runs out for it. `OutOfMemory` is the only refusal.
    #[tactic(auto, using(span_answers::proofs::Begun::begins_itself, span_answers::proofs::Begun::begins_on))]
    fn gather_load(
        &mut self,
        alloc: Global,
        records: Records,
        answers: &mut Answers,
    ) -> Result<(), Refusal>
        requires { self.old.load ≡ None }
        ensures added { OnOk result (answers.new ≡ answers.old ++ number_line (codes "loaded") (vec_len records.rows)) }
        ensures gathered { Gathered
            (row_mutations (heading_of records.layout MutationKind.Insert) records.rows.items)
            self.old self.new result }
        ensures grows { Begins answers.old answers.new }
    {
        let Records { layout, rows } = records;
        answers.number_line("loaded", rows.len() as u64)?;
        self.gather(alloc, layout, MutationKind::Insert, rows)
    }

    /// Begins a transaction of what was gathered, which is gathered no more whatever the reply is.
    #[tactic(auto, using(crate::proofs::Commands::begun, crate::proofs::Commands::begun_refused))]
    pub fn begin(&mut self, alloc: Global, core: &mut Core) -> Reply
        requires { self.old.load ≡ None }
        ensures begun { IsBegun core.old.schema core.old.machine (state_of self.old).gathered result core.new.machine }
        ensures emptied { state_of self.new ≡ record (state_of self.old) { gathered = [] } }
        ensures schema { core.new.schema ≡ core.old.schema }
    {
        let gathered = mem::replace(&mut self.gathered, Vec::new(alloc));
        match Transaction::from_batches(alloc, core.schema(), gathered) {
            Ok(transaction) => take_step(
                alloc,
                core,
                Step::Begin {
                    owner: OWNER,
                    transaction,
                },
            ),
            Err(why) => Reply::Refused(why),
        }
    }

    /// Splits a slot at the key that a record has. A record that has no key of the table is `BadSplit`.
    pub fn split(&mut self, alloc: Global, core: &mut Core, table: &str, text: &str) -> Reply
        ensures split { IsSplit core.old.schema core.old.machine table.now text.now result core.new.machine }
        ensures kept { state_of self.new ≡ state_of self.old }
        ensures schema { core.new.schema ≡ core.old.schema }
    {
        match self.read_deletion(alloc, core.schema(), table, text) {
            Ok(Mutation { table, key, .. }) => take_step(alloc, core, Step::Split { table, key }),
            Err(why) => Reply::Refused(split_refusal(why)),
        }
    }

    /// Opens a query with the parameters that are set.
    pub fn open(&self, alloc: Global, core: &mut Core, bound: Bound, text: &str) -> Reply
        ensures taken { Takes core.old.schema core.old.machine
            (step_of_kind.Open text.now (state_of self.now).params bound (state_of self.now).clock)
            result core.new.machine }
        ensures schema { core.new.schema ≡ core.old.schema }
    {
        match self.opening(alloc, bound, text) {
            Ok(step) => take_step(alloc, core, step),
            Err(why) => {
                core.is_reached();
                Reply::Refused(why)
            }
        }
    }

    /// Adds the plan of a query text with the parameters that are set. The refusal of the query text, or `OutOfMemory`.
    #[tactic(auto, using(span_answers::proofs::Begun::begins_itself))]
    pub fn explain(
        &self,
        alloc: Global,
        core: &Core,
        text: &str,
        answers: &mut Answers,
    ) -> Result<(), Refusal>
        ensures added { Adds
            (IsExplained core.now.schema text.now (state_of self.now).params)
            answers.old answers.new result }
        ensures grows { Begins answers.old answers.new }
    {
        match core.explain(alloc, text, &self.params) {
            Ok(plan) => answers.text(plan.as_str()),
            Err(why) => Err(why),
        }
    }

    /// The step that opens a query. `OutOfMemory` is the only refusal.
    fn opening(&self, alloc: Global, bound: Bound, text: &str) -> Result<Step, Refusal>
        ensures step { IfOk result (λ step. step
            ≡ step_of_kind.Open text.now (state_of self.now).params bound (state_of self.now).clock) }
        ensures memory { IsOkUnless result Refusal.OutOfMemory }
    {
        Ok(Step::Open {
            text: Text::from_str(alloc, text)?,
            params: self.params.copy(alloc)?,
            bound,
            interval: self.clock,
        })
    }

    /// Opens a query, scans its leaves, finishes and closes it: the reply of the first step that is refused, else the
    /// rows.
    pub fn query(&self, alloc: Global, core: &mut Core, bound: Bound, text: &str) -> Reply
        ensures queried { IsQueried core.old.schema core.old.machine (state_of self.now).clock
            (step_of_kind.Open text.now (state_of self.now).params bound (state_of self.now).clock)
            result core.new.machine }
        ensures schema { core.new.schema ≡ core.old.schema }
    {
        match self.open(alloc, core, bound, text) {
            Reply::Opened { query, leaves, .. } => {
                let reply = read(alloc, core, self.clock, query, leaves);
                let _closed = take_step(alloc, core, Step::Close { query });
                reply
            }
            reply => reply,
        }
    }
}
