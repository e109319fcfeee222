//! Declarations of tables, read from tokens: a function for each rule.
ghost use Rattle.std.specs.Prelude.{◌≡◌, ◌<◌, ◌≤◌, ◌-◌, ◌∷◌, IfOk};
ghost use Rattle.span_grammar.specs.Rules.{most_openings};
ghost use Rattle.span_primary.specs.Phrases.{Gives, each};
ghost use Rattle.span_schematext.specs.Declarations as spec;

use span_grammar::class::{Context, Lexeme, Sort};
use span_grammar::classify::token_bytes;
use span_grammar::grammar::Part;
use span_grammar::reader::goes_on;
use span_lexer::token::{Sign, Word};
use span_primary::column::direction;
use span_primary::fault::SyntaxError;
use span_primary::token::{enter, integer_value, next_is, take};
use span_schema::table::{Column, KeyColumn, Parent, Table};
use span_value::seq::Seq;
use span_value::text::Text;
use span_value::value::ColumnType;
use std::alloc::{AllocError, Global};

/// A name.
#[tactic(auto, unfolding(crate::specs::Declarations::name))]
fn name(alloc: Global, text: &[u8], tokens: &mut &[Lexeme]) -> Result<Text, SyntaxError>
    ensures { Gives (spec.name text.now) tokens.old tokens.new result }
{
    let lexeme = take(Sort::Name, tokens)?;
    let spelling = String::from_utf8_lossy(alloc, token_bytes(text, &lexeme.token))?;
    Ok(Text::from_string(spelling))
}

/// A list: the first item, then the others.
fn prepend<T: Drop>(alloc: Global, first: T, more: Seq<T>) -> Result<Seq<T>, AllocError>
    ensures { IfOk result (λ all. all ≡ first ∷ more) }
{
    let mut all = Vec::new(alloc);
    all.push(first)?;
    let mut rest = more.into_vec();
    all.append(&mut rest)?;
    Ok(Seq::from_vec(all))
}

/// `int | MAX`: the greatest length, or none.
#[tactic(auto, unfolding(crate::specs::Declarations::length_bound))]
fn length_bound(tokens: &mut &[Lexeme]) -> Result<Option<u64>, SyntaxError>
    ensures { Gives spec.length_bound tokens.old tokens.new result }
{
    if next_is(Sort::Int, tokens) {
        let most = take(Sort::Int, tokens)?;
        return Ok(Some(integer_value(most.token.kind)));
    }
    take(Sort::Context(Context::Max), tokens)?;
    Ok(None)
}

/// `(int | MAX) ")"`
#[tactic(auto, unfolding(crate::specs::Declarations::in_length))]
fn in_length(tokens: &mut &[Lexeme]) -> Result<Option<u64>, SyntaxError>
    ensures { Gives spec.in_length tokens.old tokens.new result }
{
    let most = length_bound(tokens)?;
    take(Sort::Sign(Sign::Close), tokens)?;
    Ok(most)
}

/// `"(" (int | MAX) ")"`
#[tactic(auto, unfolding(crate::specs::Declarations::length_parenthesis))]
fn length_parenthesis(left: usize, tokens: &mut &[Lexeme]) -> Result<Option<u64>, SyntaxError>
    ensures { Gives (spec.length_parenthesis left) tokens.old tokens.new result }
{
    enter(left, Sort::Sign(Sign::Open), tokens)?;
    in_length(tokens)
}

/// `STRING | BYTES`: whether it is STRING.
#[tactic(auto, unfolding(crate::specs::Declarations::long_kind))]
fn long_kind(tokens: &mut &[Lexeme]) -> Result<bool, SyntaxError>
    ensures { Gives spec.long_kind tokens.old tokens.new result }
{
    if next_is(Sort::Context(Context::String), tokens) {
        take(Sort::Context(Context::String), tokens)?;
        return Ok(true);
    }
    take(Sort::Context(Context::Bytes), tokens)?;
    Ok(false)
}

/// The type of long values, with their greatest length.
fn long_of(is_string: bool, most: Option<u64>) -> ColumnType
    ensures { result ≡ spec.long_of is_string most }
{
    if is_string {
        ColumnType::Str(most)
    } else {
        ColumnType::Bytes(most)
    }
}

/// `(STRING | BYTES) "(" (int | MAX) ")"`
#[tactic(auto, unfolding(crate::specs::Declarations::long_type))]
fn long_type(left: usize, tokens: &mut &[Lexeme]) -> Result<ColumnType, SyntaxError>
    ensures { Gives (spec.long_type left) tokens.old tokens.new result }
{
    let is_string = long_kind(tokens)?;
    let most = length_parenthesis(left, tokens)?;
    Ok(long_of(is_string, most))
}

/// `type`
#[tactic(auto, unfolding(crate::specs::Declarations::column_type))]
fn column_type(left: usize, tokens: &mut &[Lexeme]) -> Result<ColumnType, SyntaxError>
    ensures { Gives (spec.column_type left) tokens.old tokens.new result }
{
    if next_is(Sort::Context(Context::Int64), tokens) {
        take(Sort::Context(Context::Int64), tokens)?;
        return Ok(ColumnType::Int);
    }
    if next_is(Sort::Context(Context::Bool), tokens) {
        take(Sort::Context(Context::Bool), tokens)?;
        return Ok(ColumnType::Bool);
    }
    long_type(left, tokens)
}

/// `NOT NULL`
#[tactic(auto, unfolding(crate::specs::Declarations::not_null))]
fn not_null(tokens: &mut &[Lexeme]) -> Result<bool, SyntaxError>
    ensures { Gives spec.not_null tokens.old tokens.new result }
{
    take(Sort::Word(Word::Not), tokens)?;
    take(Sort::Word(Word::Null), tokens)?;
    Ok(true)
}

/// `[NOT NULL]`: whether NULL is refused.
#[tactic(auto, unfolding(crate::specs::Declarations::maybe_not_null))]
fn maybe_not_null(tokens: &mut &[Lexeme]) -> Result<bool, SyntaxError>
    ensures { Gives spec.maybe_not_null tokens.old tokens.new result }
{
    if !goes_on(Part::NotNull, tokens) {
        return Ok(false);
    }
    not_null(tokens)
}

/// `NO ACTION`
#[tactic(auto, unfolding(crate::specs::Declarations::no_action))]
fn no_action(tokens: &mut &[Lexeme]) -> Result<bool, SyntaxError>
    ensures { Gives spec.no_action tokens.old tokens.new result }
{
    take(Sort::Context(Context::No), tokens)?;
    take(Sort::Context(Context::Action), tokens)?;
    Ok(false)
}

/// `CASCADE | NO ACTION`: whether it is CASCADE.
#[tactic(auto, unfolding(crate::specs::Declarations::action))]
fn action(tokens: &mut &[Lexeme]) -> Result<bool, SyntaxError>
    ensures { Gives spec.action tokens.old tokens.new result }
{
    if next_is(Sort::Context(Context::Cascade), tokens) {
        take(Sort::Context(Context::Cascade), tokens)?;
        return Ok(true);
    }
    no_action(tokens)
}

/// `ON DELETE (CASCADE | NO ACTION)`
#[tactic(auto, unfolding(crate::specs::Declarations::on_delete))]
fn on_delete(tokens: &mut &[Lexeme]) -> Result<bool, SyntaxError>
    ensures { Gives spec.on_delete tokens.old tokens.new result }
{
    take(Sort::Word(Word::On), tokens)?;
    take(Sort::Context(Context::Delete), tokens)?;
    action(tokens)
}

/// Whether the rows are deleted with their parent row.
#[tactic(auto, unfolding(crate::specs::Declarations::maybe_on_delete))]
fn maybe_on_delete(tokens: &mut &[Lexeme]) -> Result<bool, SyntaxError>
    ensures { Gives spec.maybe_on_delete tokens.old tokens.new result }
{
    if !goes_on(Part::OnDelete, tokens) {
        return Ok(false);
    }
    on_delete(tokens)
}

/// The table above, and what is done with the rows.
#[tactic(auto, unfolding(crate::specs::Declarations::parent))]
fn parent(alloc: Global, text: &[u8], tokens: &mut &[Lexeme]) -> Result<Parent, SyntaxError>
    ensures { Gives (spec.parent text.now) tokens.old tokens.new result }
{
    let name = name(alloc, text, tokens)?;
    let cascade = maybe_on_delete(tokens)?;
    Ok(Parent { name, cascade })
}

/// `IN PARENT name [ON DELETE (CASCADE | NO ACTION)]`
#[tactic(auto, unfolding(crate::specs::Declarations::in_parent))]
fn in_parent(alloc: Global, text: &[u8], tokens: &mut &[Lexeme]) -> Result<Parent, SyntaxError>
    ensures { Gives (spec.in_parent text.now) tokens.old tokens.new result }
{
    take(Sort::Word(Word::In), tokens)?;
    take(Sort::Context(Context::Parent), tokens)?;
    parent(alloc, text, tokens)
}

/// `"," INTERLEAVE IN PARENT name [ON DELETE (CASCADE | NO ACTION)]`
#[tactic(auto, unfolding(crate::specs::Declarations::interleave))]
fn interleave(alloc: Global, text: &[u8], tokens: &mut &[Lexeme]) -> Result<Parent, SyntaxError>
    ensures { Gives (spec.interleave text.now) tokens.old tokens.new result }
{
    take(Sort::Sign(Sign::Comma), tokens)?;
    take(Sort::Context(Context::Interleave), tokens)?;
    in_parent(alloc, text, tokens)
}

/// The table above, if there is one.
#[tactic(auto, unfolding(crate::specs::Declarations::maybe_interleave))]
fn maybe_interleave(
    alloc: Global,
    text: &[u8],
    tokens: &mut &[Lexeme],
) -> Result<Option<Parent>, SyntaxError>
    ensures { Gives (spec.maybe_interleave text.now) tokens.old tokens.new result }
{
    if !goes_on(Part::Interleave, tokens) {
        return Ok(None);
    }
    let above = interleave(alloc, text, tokens)?;
    Ok(Some(above))
}

/// `keycol`
#[tactic(auto, unfolding(crate::specs::Declarations::key_column))]
fn key_column(alloc: Global, text: &[u8], tokens: &mut &[Lexeme]) -> Result<KeyColumn, SyntaxError>
    ensures { Gives (spec.key_column text.now) tokens.old tokens.new result }
{
    let name = name(alloc, text, tokens)?;
    let desc = direction(tokens)?;
    Ok(KeyColumn { name, desc })
}

/// `"," keycol`
#[tactic(auto, unfolding(crate::specs::Declarations::key_column_more))]
fn key_column_more(
    alloc: Global,
    text: &[u8],
    tokens: &mut &[Lexeme],
) -> Result<KeyColumn, SyntaxError>
    ensures { Gives (spec.key_column_more text.now) tokens.old tokens.new result }
{
    take(Sort::Sign(Sign::Comma), tokens)?;
    key_column(alloc, text, tokens)
}

/// `{"," keycol}`
#[tactic(auto, using(crate::proofs::Lasting::loop_steps))]
fn key_column_rest(
    alloc: Global,
    text: &[u8],
    tokens: &mut &[Lexeme],
) -> Result<Seq<KeyColumn>, SyntaxError>
    ensures { Gives (each Part.KeyColumnMore (spec.key_column_more text.now)) tokens.old tokens.new result }
{
    let mut found = Seq::new(alloc);
    while goes_on(Part::KeyColumnMore, tokens) {
        let next = key_column_more(alloc, text, tokens)?;
        found.push(next)?;
    }
    Ok(found)
}

/// `keycol {"," keycol} ")"`
#[tactic(auto, unfolding(crate::specs::Declarations::in_key_columns))]
fn in_key_columns(
    alloc: Global,
    text: &[u8],
    tokens: &mut &[Lexeme],
) -> Result<Seq<KeyColumn>, SyntaxError>
    ensures { Gives (spec.in_key_columns text.now) tokens.old tokens.new result }
{
    let first = key_column(alloc, text, tokens)?;
    let more = key_column_rest(alloc, text, tokens)?;
    take(Sort::Sign(Sign::Close), tokens)?;
    Ok(prepend(alloc, first, more)?)
}

/// `column`
#[tactic(auto, unfolding(crate::specs::Declarations::table_column))]
fn table_column(
    alloc: Global,
    text: &[u8],
    left: usize,
    tokens: &mut &[Lexeme],
) -> Result<Column, SyntaxError>
    ensures { Gives (spec.table_column text.now left) tokens.old tokens.new result }
{
    let name = name(alloc, text, tokens)?;
    let kind = column_type(left, tokens)?;
    let not_null = maybe_not_null(tokens)?;
    Ok(Column {
        name,
        kind,
        not_null,
    })
}

/// `"," column`
#[tactic(auto, unfolding(crate::specs::Declarations::table_column_more))]
fn table_column_more(
    alloc: Global,
    text: &[u8],
    left: usize,
    tokens: &mut &[Lexeme],
) -> Result<Column, SyntaxError>
    ensures { Gives (spec.table_column_more text.now left) tokens.old tokens.new result }
{
    take(Sort::Sign(Sign::Comma), tokens)?;
    table_column(alloc, text, left, tokens)
}

/// `{"," column}`
#[tactic(auto, using(crate::proofs::Lasting::loop_steps))]
fn table_column_rest(
    alloc: Global,
    text: &[u8],
    left: usize,
    tokens: &mut &[Lexeme],
) -> Result<Seq<Column>, SyntaxError>
    requires { left ≤ most_openings }
    ensures { Gives (each Part.TableColumnMore (spec.table_column_more text.now left)) tokens.old tokens.new result }
{
    let mut found = Seq::new(alloc);
    while goes_on(Part::TableColumnMore, tokens) {
        let next = table_column_more(alloc, text, left, tokens)?;
        found.push(next)?;
    }
    Ok(found)
}

/// `column {"," column} ")"`
#[tactic(auto, unfolding(crate::specs::Declarations::in_table_columns))]
fn in_table_columns(
    alloc: Global,
    text: &[u8],
    left: usize,
    tokens: &mut &[Lexeme],
) -> Result<Seq<Column>, SyntaxError>
    requires { left ≤ most_openings }
    ensures { Gives (spec.in_table_columns text.now left) tokens.old tokens.new result }
{
    let first = table_column(alloc, text, left, tokens)?;
    let more = table_column_rest(alloc, text, left, tokens)?;
    take(Sort::Sign(Sign::Close), tokens)?;
    Ok(prepend(alloc, first, more)?)
}

/// `"(" keycol {"," keycol} ")"`
#[tactic(auto, unfolding(crate::specs::Declarations::key_columns))]
fn key_columns(
    alloc: Global,
    text: &[u8],
    left: usize,
    tokens: &mut &[Lexeme],
) -> Result<Seq<KeyColumn>, SyntaxError>
    ensures { Gives (spec.key_columns text.now left) tokens.old tokens.new result }
{
    enter(left, Sort::Sign(Sign::Open), tokens)?;
    in_key_columns(alloc, text, tokens)
}

/// `"(" column {"," column} ")"`
#[tactic(auto, unfolding(crate::specs::Declarations::table_columns))]
fn table_columns(
    alloc: Global,
    text: &[u8],
    left: usize,
    tokens: &mut &[Lexeme],
) -> Result<Seq<Column>, SyntaxError>
    requires { left ≤ most_openings }
    ensures { Gives (spec.table_columns text.now left) tokens.old tokens.new result }
{
    enter(left, Sort::Sign(Sign::Open), tokens)?;
    in_table_columns(alloc, text, left - 1, tokens)
}

/// What is after PRIMARY KEY.
#[tactic(auto, unfolding(crate::specs::Declarations::key_and_parent))]
fn key_and_parent(
    alloc: Global,
    text: &[u8],
    left: usize,
    name: Text,
    columns: Seq<Column>,
    tokens: &mut &[Lexeme],
) -> Result<Table, SyntaxError>
    ensures { Gives (spec.key_and_parent text.now left name columns) tokens.old tokens.new result }
{
    let key = key_columns(alloc, text, left, tokens)?;
    let parent = maybe_interleave(alloc, text, tokens)?;
    Ok(Table {
        name,
        columns,
        key,
        parent,
    })
}

/// What is after the columns of a table.
#[tactic(auto, unfolding(crate::specs::Declarations::primary_key))]
fn primary_key(
    alloc: Global,
    text: &[u8],
    left: usize,
    name: Text,
    columns: Seq<Column>,
    tokens: &mut &[Lexeme],
) -> Result<Table, SyntaxError>
    ensures { Gives (spec.primary_key text.now left name columns) tokens.old tokens.new result }
{
    take(Sort::Context(Context::Primary), tokens)?;
    take(Sort::Context(Context::Key), tokens)?;
    key_and_parent(alloc, text, left, name, columns, tokens)
}

/// What is after CREATE TABLE.
#[tactic(auto, unfolding(crate::specs::Declarations::named_table))]
fn named_table(
    alloc: Global,
    text: &[u8],
    left: usize,
    tokens: &mut &[Lexeme],
) -> Result<Table, SyntaxError>
    requires { left ≤ most_openings }
    ensures { Gives (spec.named_table text.now left) tokens.old tokens.new result }
{
    let name = name(alloc, text, tokens)?;
    let columns = table_columns(alloc, text, left, tokens)?;
    primary_key(alloc, text, left, name, columns, tokens)
}

/// `table`
#[tactic(auto, unfolding(crate::specs::Declarations::table))]
fn table(
    alloc: Global,
    text: &[u8],
    left: usize,
    tokens: &mut &[Lexeme],
) -> Result<Table, SyntaxError>
    requires { left ≤ most_openings }
    ensures { Gives (spec.table text.now left) tokens.old tokens.new result }
{
    take(Sort::Word(Word::Create), tokens)?;
    take(Sort::Context(Context::Table), tokens)?;
    named_table(alloc, text, left, tokens)
}

/// `";" table`
#[tactic(auto, unfolding(crate::specs::Declarations::table_more))]
fn table_more(
    alloc: Global,
    text: &[u8],
    left: usize,
    tokens: &mut &[Lexeme],
) -> Result<Table, SyntaxError>
    requires { left ≤ most_openings }
    ensures { Gives (spec.table_more text.now left) tokens.old tokens.new result }
{
    take(Sort::Separator, tokens)?;
    table(alloc, text, left, tokens)
}

/// `{";" table}`
#[tactic(auto, using(crate::proofs::Lasting::loop_steps))]
fn table_rest(
    alloc: Global,
    text: &[u8],
    left: usize,
    tokens: &mut &[Lexeme],
) -> Result<Seq<Table>, SyntaxError>
    requires { left ≤ most_openings }
    ensures { Gives (each Part.TableMore (spec.table_more text.now left)) tokens.old tokens.new result }
{
    let mut found = Seq::new(alloc);
    while goes_on(Part::TableMore, tokens) {
        let next = table_more(alloc, text, left, tokens)?;
        found.push(next)?;
    }
    Ok(found)
}

/// `[";"]`
#[tactic(auto, unfolding(crate::specs::Declarations::maybe_last_semicolon))]
fn maybe_last_semicolon(tokens: &mut &[Lexeme]) -> Result<bool, SyntaxError>
    ensures { Gives spec.maybe_last_semicolon tokens.old tokens.new result }
{
    if !next_is(Sort::LastSemicolon, tokens) {
        return Ok(false);
    }
    take(Sort::LastSemicolon, tokens)?;
    Ok(true)
}

/// `table {";" table} [";"]`
#[tactic(auto, unfolding(crate::specs::Declarations::tables))]
pub(crate) fn tables(
    alloc: Global,
    text: &[u8],
    left: usize,
    tokens: &mut &[Lexeme],
) -> Result<Seq<Table>, SyntaxError>
    requires { left ≤ most_openings }
    ensures { Gives (spec.tables text.now left) tokens.old tokens.new result }
{
    let first = table(alloc, text, left, tokens)?;
    let more = table_rest(alloc, text, left, tokens)?;
    maybe_last_semicolon(tokens)?;
    Ok(prepend(alloc, first, more)?)
}
