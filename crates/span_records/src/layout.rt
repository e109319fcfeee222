//! The layout of a record: which field is for which column, and the mutation that its fields make.
ghost use Rattle.std.specs.Prelude.{◌≡◌, ◌⊎◌, ◌==◌, ℕ, ◌<◌, List, Some, None, false, length, IfOk, IfErr, MatchResult};
ghost use Rattle.std.specs.List.{list_any, position, AllZip};
ghost use Rattle.csv.specs.Records.{fields_of};
ghost use Rattle.span_value.specs.declared.value.Value.{Value};
ghost use Rattle.span_mutate.specs.declared.mutation.NamedValue.{NamedValue};
ghost use Rattle.span_mutate.specs.declared.mutation.Mutation.{Mutation};
ghost use Rattle.span_mutate.specs.declared.mutation.MutationKind.{MutationKind};
ghost use Rattle.span_records.specs.Record.{pieces, record_fields, texts};
ghost use Rattle.span_schema.specs.Numbers.{IsTable, columns_of, column_named, number_named, key_places};
ghost use Rattle.span_records.specs.Columns.{AreBelow, ArePlaces, AreNamed, IsUnplaced, NamesNone};
ghost use Rattle.span_records.specs.Layouts.{IsFieldCell, IsKeyCell, IsColumnCell, IsColumnValue, IsOfRecord, IsRowOf, column_names, heading_of, IsKeyField, IsCellField, outside_key, AreWithin, IsLayout, IsLayoutOf, IsKeyLayoutOf, LacksKey, HasNoLayout};

use crate::record_reader::{Texts, at_comma, lent_fields, push_plain_fields, read_fields};
use csv::StringRecord;
use span_mutate::batch::{BatchRow, Heading};
use span_mutate::mutation::{Mutation, MutationKind, NamedValue};
use span_schema::schema::Schema;
use span_schema::table::{Column, kind_of_type};
use span_value::cell::read_cell;
use span_value::refusal::Refusal;
use span_value::seq::Seq;
use span_value::text::Text;
use span_value::value::{Kind, Value};
use std::alloc::{AllocError, Global};

/// Which field of a record is for which column.
#[derive(Drop)]
pub struct RecordLayout {
    /// The name of the table.
    table: Text,
    /// How many fields a record has.
    fields: usize,
    /// The fields of the key's columns, in the order of the key.
    key: Vec<KeyField>,
    /// The fields of the other columns, in their own order.
    cells: Vec<CellField>,
}

/// The field of a column of the key.
#[derive(Clone, Copy)]
struct KeyField {
    /// Its place in the record, counted from 0.
    at: usize,
    kind: Kind,
}

/// The field of a column outside the key.
#[derive(Drop)]
struct CellField {
    /// Its place in the record, counted from 0.
    at: usize,
    kind: Kind,
    /// The name of the column.
    column: Text,
}

impl RecordLayout {
    /// The fields of the columns that are named: those of the table in order where `columns` is `*`, else those between its commas.
    ///
    /// `NoTable`: no such table. `NoColumn`: no such column, or one named twice. `WrongType`: a column of the key is not named.
    pub fn of_columns(
        alloc: Global,
        schema: &Schema,
        table: &str,
        columns: &str,
    ) -> Result<RecordLayout, Refusal>
        ensures read { IfOk result (λ layout. IsLayoutOf schema.now table.now columns.now layout) }
        ensures refusals { IfErr result
            (λ why. (why ≡ Refusal.OutOfMemory) ⊎ HasNoLayout schema.now table.now columns.now why) }
    {
        let Some(number) = schema.find(table) else {
            return Err(Refusal::NoTable);
        };
        let places = places_of(alloc, schema, number, columns)?;
        layout_at(alloc, schema, number, table, places.as_slice())
    }

    /// The fields of the key's columns alone, in the order of the key. `NoTable`: no such table.
    #[tactic(auto, using(crate::proofs::Within::key_within, crate::proofs::Within::lacks_nothing))]
    pub fn of_key(alloc: Global, schema: &Schema, table: &str) -> Result<RecordLayout, Refusal>
        ensures read { IfOk result (λ layout. IsKeyLayoutOf schema.now table.now layout) }
        ensures refusals { IfErr result
            (λ why.
            (why ≡ Refusal.OutOfMemory)
            ⊎ ((why ≡ Refusal.NoTable) × (number_named schema.now table.now ≡ None))) }
    {
        let Some(number) = schema.find(table) else {
            return Err(Refusal::NoTable);
        };
        layout_at(alloc, schema, number, table, schema.key_places(number))
    }

    /// The mutation of a record's fields. `WrongType`: a wrong number of fields, or a field that is no cell of its column's type.
    fn mutation(
        &self,
        alloc: Global,
        kind: MutationKind,
        fields: &StringRecord,
    ) -> Result<Mutation, Refusal>
        ensures read { IfOk result (λ m. IsOfRecord self.now kind (fields_of fields.now) m) }
        ensures refusals { IfErr result
            (λ why.
            (why ≡ Refusal.OutOfMemory)
            ⊎ ((why ≡ Refusal.WrongType)
            × ((m : Mutation) → ¬ IsOfRecord self.now kind (fields_of fields.now) m))) }
    {
        let fields = lent_fields(alloc, fields)?;
        self.mutation_of(alloc, kind, fields.as_slice())
    }

    /// The mutation of the record that a text is, of the fields that `csv` reads. `WrongType`: a wrong number of fields, or a field that is no
    /// cell of its column's type. A text whose fields are its pieces between commas is not copied; `fields` is for the others, and what it
    /// then holds means nothing.
    pub fn read_mutation(
        &self,
        alloc: Global,
        kind: MutationKind,
        text: &str,
        fields: &mut StringRecord,
    ) -> Result<Mutation, Refusal>
        ensures read { IfOk result (λ m. IsOfRecord self.now kind (record_fields text.now) m) }
        ensures refusals { IfErr result
            (λ why.
            (why ≡ Refusal.OutOfMemory)
            ⊎ ((why ≡ Refusal.WrongType)
            × ((m : Mutation) → ¬ IsOfRecord self.now kind (record_fields text.now) m))) }
    {
        let mut pieces = Texts::new(alloc);
        if push_plain_fields(text, &mut pieces)? {
            return self.mutation_of(alloc, kind, pieces.as_slice());
        }
        read_fields(alloc, text, fields)?;
        self.mutation(alloc, kind, fields)
    }

    /// The row of the record that a text is: under the layout's heading it is the mutation that `read_mutation` makes, without the names.
    /// `fields` is as there.
    pub fn read_row(
        &self,
        alloc: Global,
        text: &str,
        fields: &mut StringRecord,
    ) -> Result<BatchRow, Refusal>
        ensures read { IfOk result (IsRowOf self.now (record_fields text.now)) }
        ensures refusals { IfErr result
            (λ why.
            (why ≡ Refusal.OutOfMemory)
            ⊎ ((why ≡ Refusal.WrongType)
            × ((kind : MutationKind) (m : Mutation) → ¬ IsOfRecord self.now kind (record_fields text.now) m))) }
    {
        let mut pieces = Texts::new(alloc);
        if push_plain_fields(text, &mut pieces)? {
            return self.row_of(alloc, pieces.as_slice());
        }
        read_fields(alloc, text, fields)?;
        self.row(alloc, fields)
    }

    /// What the mutations have in common that rows of the layout's records are. The names are moved. `OutOfMemory` is the only refusal.
    pub fn into_heading(self, alloc: Global, kind: MutationKind) -> Result<Heading, Refusal>
        ensures { MatchResult result
            (λ heading. heading ≡ heading_of self kind)
            (λ why. why ≡ Refusal.OutOfMemory) }
    {
        let RecordLayout { table, cells, .. } = self;
        let columns = names_of(alloc, cells)?;
        Ok(Heading {
            kind,
            table,
            columns,
        })
    }

    /// The row of a record. `WrongType`: a wrong number of fields, or a field that is no cell of its column's type.
    fn row(&self, alloc: Global, fields: &StringRecord) -> Result<BatchRow, Refusal>
        ensures read { IfOk result (IsRowOf self.now (fields_of fields.now)) }
        ensures refusals { IfErr result
            (λ why.
            (why ≡ Refusal.OutOfMemory)
            ⊎ ((why ≡ Refusal.WrongType)
            × ((kind : MutationKind) (m : Mutation) → ¬ IsOfRecord self.now kind (fields_of fields.now) m))) }
    {
        let fields = lent_fields(alloc, fields)?;
        self.row_of(alloc, fields.as_slice())
    }

    /// The row of these fields of a record. `WrongType`: a wrong number of fields, or a field that is no cell of its column's type.
    fn row_of(&self, alloc: Global, fields: &[&str]) -> Result<BatchRow, Refusal>
        ensures read { IfOk result (IsRowOf self.now (texts fields.now)) }
        ensures refusals { IfErr result
            (λ why.
            (why ≡ Refusal.OutOfMemory)
            ⊎ ((why ≡ Refusal.WrongType)
            × ((kind : MutationKind) (m : Mutation) → ¬ IsOfRecord self.now kind (texts fields.now) m))) }
    {
        if self.fields != fields.len() {
            return Err(Refusal::WrongType);
        }
        let key = key_of(alloc, self.key.as_slice(), fields)?;
        let cells = values_of(alloc, self.cells.as_slice(), fields)?;
        Ok(BatchRow { key, cells })
    }

    /// The mutation of these fields of a record. `WrongType`: a wrong number of fields, or a field that is no cell of its column's type.
    fn mutation_of(
        &self,
        alloc: Global,
        kind: MutationKind,
        fields: &[&str],
    ) -> Result<Mutation, Refusal>
        ensures read { IfOk result (λ m. IsOfRecord self.now kind (texts fields.now) m) }
        ensures refusals { IfErr result
            (λ why.
            (why ≡ Refusal.OutOfMemory)
            ⊎ ((why ≡ Refusal.WrongType)
            × ((m : Mutation) → ¬ IsOfRecord self.now kind (texts fields.now) m))) }
    {
        if fields.len() != self.fields {
            return Err(Refusal::WrongType);
        }
        let key = key_of(alloc, self.key.as_slice(), fields)?;
        let cells = cells_of(alloc, self.cells.as_slice(), fields)?;
        let table = Text::from_str(alloc, self.table.as_str())?;
        Ok(Mutation {
            kind,
            table,
            key,
            cells,
        })
    }
}

/// The values of the key. `WrongType`: a field is no cell of its column's type.
fn key_of(alloc: Global, parts: &[KeyField], fields: &[&str]) -> Result<Seq<Value>, Refusal>
    ensures read { IfOk result (λ key. AllZip (IsKeyCell (texts fields.now)) parts.now key) }
    ensures refusals { IfErr result
        (λ why.
        (why ≡ Refusal.OutOfMemory)
        ⊎ ((why ≡ Refusal.WrongType)
        × ((key : List Value) → ¬ AllZip (IsKeyCell (texts fields.now)) parts.now key))) }
{
    let mut key = Vec::with_capacity(alloc, parts.len())?;
    for part in parts {
        key.push_reserved(value_at(alloc, fields, part.at, part.kind)?);
    }
    Ok(Seq::from_vec(key))
}

/// The values of the columns outside the key. `WrongType`: a field is no cell of its column's type.
fn values_of(
    alloc: Global,
    parts: &[CellField],
    fields: &[&str],
) -> Result<Seq<Option<Value>>, Refusal>
    ensures read { IfOk result (λ values. AllZip (IsColumnValue (texts fields.now)) parts.now values) }
    ensures refusals { IfErr result
        (λ why.
        (why ≡ Refusal.OutOfMemory)
        ⊎ ((why ≡ Refusal.WrongType)
        × ((cells : List NamedValue) → ¬ AllZip (IsColumnCell (texts fields.now)) parts.now cells))) }
{
    let mut values = Vec::with_capacity(alloc, parts.len())?;
    for part in parts {
        values.push_reserved(Some(value_at(alloc, fields, part.at, part.kind)?));
    }
    Ok(Seq::from_vec(values))
}

/// The names of the columns that have fields. They are moved.
fn names_of(alloc: Global, parts: Vec<CellField>) -> Result<Seq<Text>, AllocError>
    ensures { IfOk result (λ names. names ≡ column_names parts.items) }
{
    let mut names = Vec::with_capacity(alloc, parts.len())?;
    for part in parts {
        let CellField { column, .. } = part;
        names.push_reserved(column);
    }
    Ok(Seq::from_vec(names))
}

/// The cells of the columns outside the key. `WrongType`: a field is no cell of its column's type.
fn cells_of(alloc: Global, parts: &[CellField], fields: &[&str]) -> Result<Seq<NamedValue>, Refusal>
    ensures read { IfOk result (λ cells. AllZip (IsColumnCell (texts fields.now)) parts.now cells) }
    ensures refusals { IfErr result
        (λ why.
        (why ≡ Refusal.OutOfMemory)
        ⊎ ((why ≡ Refusal.WrongType)
        × ((cells : List NamedValue) → ¬ AllZip (IsColumnCell (texts fields.now)) parts.now cells))) }
{
    let mut cells = Vec::with_capacity(alloc, parts.len())?;
    for part in parts {
        cells.push_reserved(cell_of(alloc, part, fields)?);
    }
    Ok(Seq::from_vec(cells))
}

/// The cell of a column outside the key. `WrongType`: its field is no cell of its type.
fn cell_of(alloc: Global, part: &CellField, fields: &[&str]) -> Result<NamedValue, Refusal>
    ensures read { IfOk result (λ cell. IsColumnCell (texts fields.now) part.now cell) }
    ensures refusals { IfErr result
        (λ why.
        (why ≡ Refusal.OutOfMemory)
        ⊎ ((why ≡ Refusal.WrongType)
        × ((cell : NamedValue) → ¬ IsColumnCell (texts fields.now) part.now cell))) }
{
    let value = value_at(alloc, fields, part.at, part.kind)?;
    Ok(NamedValue {
        column: Text::from_str(alloc, part.column.as_str())?,
        value,
    })
}

/// The places of the columns that are named, counted from 0: all of the table in order where `columns` is `*`, else those whose names are
/// between its commas. `NoColumn`: no such column, or one named twice.
#[tactic(auto, using(crate::proofs::Within::named_within, crate::proofs::Within::below_within))]
fn places_of(
    alloc: Global,
    schema: &Schema,
    table: usize,
    columns: &str,
) -> Result<Vec<usize>, Refusal>
    requires { IsTable schema.now table }
    ensures places { IfOk result (λ places. ArePlaces (columns_of schema.now table) columns.now places.items) }
    ensures within { IfOk result (λ places. AreWithin (columns_of schema.now table) places.items) }
    ensures refusals { IfErr result
        (λ why.
        (why ≡ Refusal.OutOfMemory)
        ⊎ ((why ≡ Refusal.NoColumn) × NamesNone (columns_of schema.now table) columns.now)) }
{
    if columns == "*" {
        return Ok(places_below(alloc, schema.table(table).columns.len())?);
    }
    places_named(alloc, schema, table, columns)
}

/// The numbers below `count`, in order.
fn places_below(alloc: Global, count: usize) -> Result<Vec<usize>, AllocError>
    ensures { IfOk result (λ places. AreBelow count places.items) }
{
    let mut places = Vec::with_capacity(alloc, count)?;
    for place in 0..count {
        places.push(place)?;
    }
    Ok(places)
}

/// The places of the columns whose names are between the commas. `NoColumn`: no such column, or one named twice.
fn places_named(
    alloc: Global,
    schema: &Schema,
    table: usize,
    names: &str,
) -> Result<Vec<usize>, Refusal>
    requires { IsTable schema.now table }
    ensures places { IfOk result (λ places. AreNamed (columns_of schema.now table) (pieces names.now) places.items) }
    ensures refusals { IfErr result
        (λ why.
        (why ≡ Refusal.OutOfMemory)
        ⊎ ((why ≡ Refusal.NoColumn)
        × ((places : List ℕ) → ¬ AreNamed (columns_of schema.now table) (pieces names.now) places))) }
{
    let mut places = Vec::new(alloc);
    let mut rest = names;
    while let Some((name, following)) = at_comma(rest) {
        places.push(new_place(places.as_slice(), schema, table, name)?)?;
        rest = following;
    }
    places.push(new_place(places.as_slice(), schema, table, rest)?)?;
    Ok(places)
}

/// The place of the column with a name, which is none of those before. `NoColumn`: there is no such column, or it was named before.
fn new_place(before: &[usize], schema: &Schema, table: usize, name: &str) -> Result<usize, Refusal>
    requires { IsTable schema.now table }
    ensures place { IfOk result (λ place. column_named schema.now table name.now ≡ Some place) }
    ensures new { IfOk result (λ place. list_any (λ other. other == place) before.now ≡ false) }
    ensures refusals { IfErr result
        (λ why. (why ≡ Refusal.NoColumn) × IsUnplaced (columns_of schema.now table) before.now name.now) }
{
    match schema.column(table, name) {
        Some(place) if !has_place(before, place) => Ok(place),
        _ => Err(Refusal::NoColumn),
    }
}

fn has_place(places: &[usize], place: usize) -> bool
    ensures { result ≡ list_any (λ other. other == place) places.now }
{
    places.iter().any(|other| *other == place)
}

/// The layout of records of a table whose fields are for the columns at these places. `WrongType`: a column of the key has no field.
#[tactic(auto, using(crate::proofs::Within::key_within))]
fn layout_at(
    alloc: Global,
    schema: &Schema,
    number: usize,
    table: &str,
    places: &[usize],
) -> Result<RecordLayout, Refusal>
    requires table { IsTable schema.now number }
    requires within { AreWithin (columns_of schema.now number) places.now }
    ensures table { IfOk result (λ layout. layout.table ≡ table.now) }
    ensures read { IfOk result (λ layout. IsLayout schema.now number places.now layout) }
    ensures refusals { IfErr result
        (λ why.
        (why ≡ Refusal.OutOfMemory)
        ⊎ ((why ≡ Refusal.WrongType) × LacksKey (key_places schema.now number) places.now)) }
{
    let declared = schema.table(number).columns.as_slice();
    let key_places = schema.key_places(number);
    let key = key_fields(alloc, declared, places, key_places)?;
    let cells = cell_fields(alloc, declared, places, key_places)?;
    Ok(RecordLayout {
        table: Text::from_str(alloc, table)?,
        fields: places.len(),
        key,
        cells,
    })
}

/// The fields of the key's columns, in its order, where a record has a field for the column at each of `places`. `WrongType`: a column of
/// the key has none.
fn key_fields(
    alloc: Global,
    declared: &[Column],
    places: &[usize],
    key_places: &[usize],
) -> Result<Vec<KeyField>, Refusal>
    requires { AreWithin declared.now key_places.now }
    ensures read { IfOk result (λ key. AllZip (IsKeyField declared.now places.now) key_places.now key.items) }
    ensures refusals { IfErr result
        (λ why. (why ≡ Refusal.OutOfMemory) ⊎ ((why ≡ Refusal.WrongType) × LacksKey key_places.now places.now)) }
{
    let mut key = Vec::new(alloc);
    for place in key_places {
        key.push(key_field(declared, places, *place)?)?;
    }
    Ok(key)
}

/// The field of the key's column at a place. `WrongType`: no field is for it.
fn key_field(columns: &[Column], places: &[usize], place: usize) -> Result<KeyField, Refusal>
    requires { place < length columns.now }
    ensures read { IfOk result (λ part. IsKeyField columns.now places.now place part) }
    ensures refusals { IfErr result
        (λ why. (why ≡ Refusal.WrongType) × (position (λ p. p == place) places.now ≡ None)) }
{
    match field_of(places, place) {
        Some(at) => Ok(KeyField {
            at,
            kind: kind_of_type(columns[place].kind),
        }),
        None => Err(Refusal::WrongType),
    }
}

/// The first field that is for the column at a place.
fn field_of(places: &[usize], place: usize) -> Option<usize>
    ensures { result ≡ position (λ p. p == place) places.now }
{
    places.iter().position(|p| *p == place)
}

/// The fields of the columns outside the key, where a record has a field for the column at each of `places`.
fn cell_fields(
    alloc: Global,
    declared: &[Column],
    places: &[usize],
    key_places: &[usize],
) -> Result<Vec<CellField>, AllocError>
    requires { AreWithin declared.now places.now }
    ensures { IfOk result
        (λ cells. AllZip (IsCellField declared.now) (outside_key key_places.now places.now) cells.items) }
{
    let mut cells = Vec::new(alloc);
    for (at, place) in places.iter().enumerate() {
        if !has_place(key_places, *place) {
            cells.push(cell_field(alloc, declared, at, *place)?)?;
        }
    }
    Ok(cells)
}

/// The field at `at`, for the column at a place.
fn cell_field(
    alloc: Global,
    columns: &[Column],
    at: usize,
    place: usize,
) -> Result<CellField, AllocError>
    requires { place < length columns.now }
    ensures { IfOk result (λ part. IsCellField columns.now (at, place) part) }
{
    let column = &columns[place];
    Ok(CellField {
        at,
        kind: kind_of_type(column.kind),
        column: Text::from_str(alloc, column.name.as_str())?,
    })
}

/// The value of the field at a place. `WrongType`: it is no cell of the type, or there is no such field.
fn value_at(alloc: Global, fields: &[&str], at: usize, kind: Kind) -> Result<Value, Refusal>
    ensures read { IfOk result (λ value. IsFieldCell (texts fields.now) at kind value) }
    ensures refusals { IfErr result
        (λ why.
        (why ≡ Refusal.OutOfMemory)
        ⊎ ((why ≡ Refusal.WrongType) × ((value : Value) → ¬ IsFieldCell (texts fields.now) at kind value))) }
{
    match fields.get(at) {
        Some(field) => read_cell(alloc, kind, *field),
        None => Err(Refusal::WrongType),
    }
}
