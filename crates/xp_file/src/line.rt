//! Reads the lines of a station.
ghost use Rattle.std.specs.Prelude.{◌≡◌, ◌≢◌, [], Ok, Err, IfOk, IfErr, map};
ghost use Rattle.toml.specs.View.{table_view};
ghost use Rattle.xp_file.specs.declared.fault.SubscriptionFault.TheVariants.{Memory as OutOfMemory};
ghost use Rattle.xp_file.specs.declared.key.Key.TheVariants as keys;
ghost use Rattle.xp_packets.specs.declared.modulus.Modulus.TheVariants.{Eight};
ghost use Rattle.xp_file.specs.SubscriptionFile.{port_of, access_of, line_of, lines_of};
ghost use Rattle.xp_file.specs.Reading.{required, optional, defaulted, number_in, address_in, modulus_in, router_in, sources_in, line_name_in};

use crate::entry::{Access, LineEntry};
use crate::fault::SubscriptionFault;
use crate::field::{address, line_name, modulus, port, router, sources, value_at};
use crate::key::Key;
use crate::name::Name;
use crate::router::RouterAddress;
use crate::sources::Sources;
use crate::tables::{each, examine};
use std::alloc::Global;
use toml::Table;
use xp_packets::{Digits, Modulus};

fn line_name_of(table: &Table) -> Result<Name, SubscriptionFault>
    ensures { result ≡ required line_name_in keys.Name (table_view table.now) }
{
    match value_at(table, Key::Name) {
        Some(value) => line_name(value).ok_or(SubscriptionFault::Field(Key::Name)),
        None => Err(SubscriptionFault::Field(Key::Name)),
    }
}

/// The port of a line, which may be missing only where the line has the key `router`.
fn port_of(table: &Table) -> Result<Option<u16>, SubscriptionFault>
    ensures { result ≡ port_of (table_view table.now) }
{
    match value_at(table, Key::Router) {
        None => Ok(Some(required_port(table)?)),
        Some(_) => optional_port(table),
    }
}

fn required_port(table: &Table) -> Result<u16, SubscriptionFault>
    ensures { result ≡ required (number_in 1 65535) keys.Port (table_view table.now) }
{
    match value_at(table, Key::Port) {
        Some(value) => port(value).ok_or(SubscriptionFault::Field(Key::Port)),
        None => Err(SubscriptionFault::Field(Key::Port)),
    }
}

fn optional_port(table: &Table) -> Result<Option<u16>, SubscriptionFault>
    ensures { result ≡ optional (number_in 1 65535) keys.Port (table_view table.now) }
{
    let Some(value) = value_at(table, Key::Port) else {
        return Ok(None);
    };
    match port(value) {
        Some(port) => Ok(Some(port)),
        None => Err(SubscriptionFault::Field(Key::Port)),
    }
}

fn router_of(table: &Table) -> Result<RouterAddress, SubscriptionFault>
    ensures { result ≡ required router_in keys.Router (table_view table.now) }
{
    match value_at(table, Key::Router) {
        Some(value) => router(value).ok_or(SubscriptionFault::Field(Key::Router)),
        None => Err(SubscriptionFault::Field(Key::Router)),
    }
}

/// The port or the router of a line, which has one of them alone.
fn access_of(table: &Table) -> Result<Access, SubscriptionFault>
    ensures { result ≡ access_of (table_view table.now) }
{
    let Some(port) = port_of(table)? else {
        return Ok(Access::Router(router_of(table)?));
    };
    if value_at(table, Key::Router).is_some() {
        return Err(SubscriptionFault::Field(Key::Router));
    }
    Ok(Access::Port(port))
}

fn own_address_of(table: &Table) -> Result<Option<Digits>, SubscriptionFault>
    ensures { result ≡ optional address_in keys.Address (table_view table.now) }
{
    let Some(value) = value_at(table, Key::Address) else {
        return Ok(None);
    };
    match address(value) {
        Some(address) => Ok(Some(address)),
        None => Err(SubscriptionFault::Field(Key::Address)),
    }
}

fn modulus_of(table: &Table) -> Result<Modulus, SubscriptionFault>
    ensures { result ≡ defaulted modulus_in Eight keys.Modulus (table_view table.now) }
{
    match value_at(table, Key::Modulus) {
        Some(value) => modulus(value).ok_or(SubscriptionFault::Field(Key::Modulus)),
        None => Ok(Modulus::Eight),
    }
}

fn sources_of(table: &Table) -> Result<Sources, SubscriptionFault>
    ensures { result ≡ defaulted sources_in [] keys.From (table_view table.now) }
{
    match value_at(table, Key::From) {
        Some(value) => sources(value).ok_or(SubscriptionFault::Field(Key::From)),
        None => Ok(Sources::new()),
    }
}

#[tactic(auto, unfolding(crate::specs::SubscriptionFile::line_of))]
fn line(table: &Table) -> Result<LineEntry, SubscriptionFault>
    ensures { result ≡ line_of (table_view table.now) }
{
    Ok(LineEntry {
        name: line_name_of(table)?,
        access: access_of(table)?,
        address: own_address_of(table)?,
        modulus: modulus_of(table)?,
        from: sources_of(table)?,
    })
}

/// The lines of a station. Each key is checked in all of them before the next key.
#[tactic(auto, unfolding(crate::specs::SubscriptionFile::lines_of))]
pub(crate) fn lines(alloc: Global, tables: &[&Table]) -> Result<Vec<LineEntry>, SubscriptionFault>
    ensures ok { IfOk result (λ lines. lines_of (map (λ table. table_view table.now) tables.now) ≡ Ok lines.items) }
    ensures refused { IfErr result (λ fault. fault ≢ OutOfMemory → lines_of (map (λ table. table_view table.now) tables.now) ≡ Err fault) }
{
    examine(tables, line_name_of)?;
    examine(tables, port_of)?;
    examine(tables, access_of)?;
    examine(tables, own_address_of)?;
    examine(tables, modulus_of)?;
    each(alloc, tables, line)
}
