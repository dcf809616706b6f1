//! Reads arrays of tables, and each table in turn.
ghost use Rattle.std.specs.Prelude.{◌≡◌, ◌≢◌, ◌<◌, [], length, Ok, Err, None, Some, IfOk, IfErr, map};
ghost use Rattle.std.specs.Fn.{FnReturnsAt};
ghost use Rattle.toml.specs.View.{items_view, table_view};
ghost use Rattle.xp_file.specs.declared.fault.SubscriptionFault.TheVariants.{Field, Memory as OutOfMemory};
ghost use Rattle.xp_file.specs.Reading.{each, examined, tables_among, tables_in, some_tables_in, required, defaulted};
ghost use Rattle.xp_file.specs.steps.Reading.{Reads};

use crate::fault::SubscriptionFault;
use crate::field::value_at;
use crate::key::Key;
use std::alloc::Global;
use toml::{Table, Value};

/// The tables of an array, which must be there and have at least one table.
pub(crate) fn some_tables_at(
    alloc: Global,
    table: &Table,
    key: Key,
) -> Result<Vec<&Table>, SubscriptionFault>
    ensures ok { IfOk result (λ tables. required some_tables_in key (table_view table.now) ≡ Ok (map (λ inner. table_view inner.now) tables.items)) }
    ensures refused { IfErr result (λ fault. fault ≢ OutOfMemory → required some_tables_in key (table_view table.now) ≡ Err fault) }
    ensures some { IfOk result (λ tables. 0 < length tables.items) }
{
    let Some(value) = value_at(table, key) else {
        return Err(SubscriptionFault::Field(key));
    };
    let Some(values) = value.as_array() else {
        return Err(SubscriptionFault::Field(key));
    };
    if values.is_empty() {
        return Err(SubscriptionFault::Field(key));
    }
    tables_among(alloc, values, key)
}

/// The tables of an array. There are none if the key is missing.
pub(crate) fn tables_at(
    alloc: Global,
    table: &Table,
    key: Key,
) -> Result<Vec<&Table>, SubscriptionFault>
    ensures ok { IfOk result (λ tables. defaulted tables_in [] key (table_view table.now) ≡ Ok (map (λ inner. table_view inner.now) tables.items)) }
    ensures refused { IfErr result (λ fault. fault ≢ OutOfMemory → defaulted tables_in [] key (table_view table.now) ≡ Err fault) }
{
    let Some(value) = value_at(table, key) else {
        return Ok(Vec::new(alloc));
    };
    let Some(values) = value.as_array() else {
        return Err(SubscriptionFault::Field(key));
    };
    tables_among(alloc, values, key)
}

/// The values as tables. The fault is that of the key if one of them is not a table.
fn tables_among(alloc: Global, values: &[Value], key: Key) -> Result<Vec<&Table>, SubscriptionFault>
    ensures ok { IfOk result (λ tables. tables_among (items_view values.now) ≡ Some (map (λ inner. table_view inner.now) tables.items)) }
    ensures count { IfOk result (λ tables. length tables.items ≡ length values.now) }
    ensures refused { IfErr result (λ fault. fault ≢ OutOfMemory → (tables_among (items_view values.now) ≡ None) × (fault ≡ Field key)) }
{
    let mut tables = Vec::new(alloc);
    for value in values {
        let Some(inner) = value.as_table() else {
            return Err(SubscriptionFault::Field(key));
        };
        tables.push(inner)?;
    }
    Ok(tables)
}

/// Reads each table. Stops at the first fault.
pub(crate) fn each<T: Drop, F: Fn(&Table) -> Result<T, SubscriptionFault>>(
    alloc: Global,
    tables: &[&Table],
    read: F,
) -> Result<Vec<T>, SubscriptionFault>
    requires { F.IsAlwaysCallable read }
    ensures ok { IfOk result (λ values. (reading : _) → Reads table_view (FnReturnsAt F.Fn read) reading → each reading (map (λ table. table_view table.now) tables.now) ≡ Ok values.items) }
    ensures refused { IfErr result (λ fault. (reading : _) → Reads table_view (FnReturnsAt F.Fn read) reading → fault ≢ OutOfMemory → each reading (map (λ table. table_view table.now) tables.now) ≡ Err fault) }
{
    let mut values = Vec::new(alloc);
    for table in tables {
        values.push(read(table)?)?;
    }
    Ok(values)
}

/// Checks one key in each table. Stops at the first fault.
pub(crate) fn examine<T: Drop, F: Fn(&Table) -> Result<T, SubscriptionFault>>(
    tables: &[&Table],
    read: F,
) -> Result<(), SubscriptionFault>
    requires { F.IsAlwaysCallable read }
    ensures { (reading : _) → Reads table_view (FnReturnsAt F.Fn read) reading → result ≡ examined reading (map (λ table. table_view table.now) tables.now) }
{
    for table in tables {
        read(table)?;
    }
    Ok(())
}
