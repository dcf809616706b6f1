//! The first pass over the subscription file. It reads the value of every key.
ghost use Rattle.std.specs.Prelude.{◌≡◌, ◌≢◌, ◌<◌, [], length, All, Ok, Err, None, Some, IfOk, IfErr, option_map, map, codes, string_bytes};
ghost use Rattle.std.specs.List.{list_all};
ghost use Rattle.toml.specs.Data.{as_str};
ghost use Rattle.toml.specs.View.{table_view};
ghost use Rattle.xp_file.specs.declared.fault.SubscriptionFault.TheVariants.{Memory as OutOfMemory};
ghost use Rattle.xp_file.specs.declared.key.Key.TheVariants as keys;
ghost use Rattle.xp_file.specs.Entries.{AreLimits, IsStationEntry, no_journal_limit};
ghost use Rattle.xp_file.specs.Routers.{IsPort, registered_port};
ghost use Rattle.xp_file.specs.SubscriptionFile.{facilities_of, group_of, groups_of, redirection_of, are_listed, entry_of, file_of, file_in};
ghost use Rattle.xp_file.specs.Reading.{each, has_only, required, optional, defaulted, number_in, address_in, group_name_in};

use crate::entry::{Facilities, GroupEntry, Redirection, StationEntry};
use crate::fault::SubscriptionFault;
use crate::field::{
    address, flag, group_name, has_only, number, optional_table, port, short, value_at,
};
use crate::key::Key;
use crate::line::lines;
use crate::listed_keys::{GROUP_KEYS, LINE_KEYS, REDIRECT_KEYS, STATION_KEYS, TOP_KEYS};
use crate::name::Name;
use crate::router::REGISTERED_PORT;
use crate::tables::{each, examine, some_tables_at, tables_at};
use std::alloc::Global;
use std::marker::Model;
use toml::Table;
use xp_packets::Digits;

/// The content of the subscription file, with default values for the keys that it omits.
#[derive(Drop)]
pub struct SubscriptionFile {
    /// The most segments that a call may have in one direction, 1 to 99,999,999.
    pub segment_limit: u32,
    /// The most entries that the history may have, 4 to 10,000,000. If the file sets no limit, it is 2^59, which no history
    /// reaches.
    pub journal: u64,
    /// The host on whose ports the exchange listens.
    pub host: String,
    /// The port at which it listens for XOT routers, 1 to 65,535, if a line is behind one.
    pub xot_port: u16,
    /// The name of the exchange, if the file gives it one.
    pub name: Option<Name>,
    /// How many places are reserved for further lines of modulo 8, 0 to 4,096.
    pub spare_lines: u16,
    /// How many are reserved for further lines of modulo 128, 0 to 4,096.
    pub spare_lines_128: u16,
    /// The stations in the order of the file, at least one.
    pub stations: Vec<StationEntry>,
}

impl Model for SubscriptionFile {
    ghost use Rattle.std.specs.Prelude.{string_bytes};
    ghost use Rattle.xp_file.specs.SubscriptionFile.{FileData};

    ghost Value = { FileData };

    ghost view = { λ file. record {
      segment_limit = file.segment_limit;
      journal = file.journal;
      host = string_bytes file.host;
      xot_port = file.xot_port;
      name = file.name;
      spare_lines = file.spare_lines;
      spare_lines_128 = file.spare_lines_128;
      stations = file.stations.items;
    } };
}

/// The greatest limit to the segments of a call in one direction, which is also the default.
const MAX_SEGMENT_LIMIT: u32 = 99_999_999;

/// The smallest limit to the entries of the history.
const MIN_JOURNAL: u32 = 4;

/// The greatest limit to the entries of the history that a file can set.
const MAX_JOURNAL: u32 = 10_000_000;

/// More entries than any history has: 2^59. At a million events a second it lasts for 18,000 years. Seventeen outputs to a
/// line for each entry can still be counted in 64 bits.
const NO_JOURNAL_LIMIT: u64 = 576_460_752_303_423_488;

/// The default host.
const DEFAULT_HOST: &str = "127.0.0.1";

/// The most places that can be reserved for further lines of one modulus.
const MAX_SPARE_LINES: u16 = 4_096;

/// The greatest index of a group: four digits (X.25 clause 6.14.6).
const MAX_INDEX: u16 = 9_999;

#[tactic(auto, unfolding(crate::specs::SubscriptionFile::facilities_of))]
fn facilities(table: &Table) -> Result<Facilities, SubscriptionFault>
    ensures { result ≡ facilities_of (table_view table.now) }
{
    let outgoing_barred = flag(table, Key::OutgoingBarred)?;
    let incoming_barred = flag(table, Key::IncomingBarred)?;
    let reverse_charging = flag(table, Key::ReverseCharging)?;
    let fast_select = flag(table, Key::FastSelect)?;
    let outgoing_access = flag(table, Key::OutgoingAccess)?;
    let incoming_access = flag(table, Key::IncomingAccess)?;
    Ok(Facilities {
        outgoing_barred,
        incoming_barred,
        reverse_charging,
        fast_select,
        outgoing_access,
        incoming_access,
    })
}

fn address_of(table: &Table, key: Key) -> Result<Digits, SubscriptionFault>
    ensures { result ≡ required address_in key (table_view table.now) }
{
    match value_at(table, key) {
        Some(value) => address(value).ok_or(SubscriptionFault::Field(key)),
        None => Err(SubscriptionFault::Field(key)),
    }
}

fn preferential_of(table: &Table) -> Result<Option<u16>, SubscriptionFault>
    ensures { result ≡ optional (number_in 0 9999) keys.Preferential (table_view table.now) }
{
    let Some(value) = value_at(table, Key::Preferential) else {
        return Ok(None);
    };
    match short(value, 0, MAX_INDEX) {
        Some(index) => Ok(Some(index)),
        None => Err(SubscriptionFault::Field(Key::Preferential)),
    }
}

fn group_name_of(table: &Table) -> Result<Name, SubscriptionFault>
    ensures { result ≡ required group_name_in keys.Name (table_view table.now) }
{
    match value_at(table, Key::Name) {
        Some(value) => group_name(value).ok_or(SubscriptionFault::Field(Key::Name)),
        None => Err(SubscriptionFault::Field(Key::Name)),
    }
}

fn index_of(table: &Table) -> Result<u16, SubscriptionFault>
    ensures { result ≡ required (number_in 0 9999) keys.Index (table_view table.now) }
{
    match value_at(table, Key::Index) {
        Some(value) => short(value, 0, MAX_INDEX).ok_or(SubscriptionFault::Field(Key::Index)),
        None => Err(SubscriptionFault::Field(Key::Index)),
    }
}

#[tactic(auto, unfolding(crate::specs::SubscriptionFile::group_of))]
fn group(table: &Table) -> Result<GroupEntry, SubscriptionFault>
    ensures { result ≡ group_of (table_view table.now) }
{
    Ok(GroupEntry {
        name: group_name_of(table)?,
        index: index_of(table)?,
        outgoing_barred: flag(table, Key::OutgoingBarred)?,
        incoming_barred: flag(table, Key::IncomingBarred)?,
    })
}

#[tactic(auto, unfolding(crate::specs::SubscriptionFile::groups_of))]
fn groups(alloc: Global, tables: &[&Table]) -> Result<Vec<GroupEntry>, SubscriptionFault>
    ensures ok { IfOk result (λ groups. groups_of (map (λ table. table_view table.now) tables.now) ≡ Ok groups.items) }
    ensures refused { IfErr result (λ fault. fault ≢ OutOfMemory → groups_of (map (λ table. table_view table.now) tables.now) ≡ Err fault) }
{
    examine(tables, group_name_of)?;
    examine(tables, index_of)?;
    examine(tables, |table| flag(table, Key::OutgoingBarred))?;
    each(alloc, tables, group)
}

#[tactic(auto, unfolding(crate::specs::SubscriptionFile::redirection_of))]
fn redirection(table: Option<&Table>) -> Result<Option<Redirection>, SubscriptionFault>
    ensures { result ≡ redirection_of (option_map (λ inner. table_view inner.now) table.entry) }
{
    let Some(table) = table else {
        return Ok(None);
    };
    let to = address_of(table, Key::To)?;
    let systematic = flag(table, Key::Systematic)?;
    let busy = flag(table, Key::Busy)?;
    let out_of_order = flag(table, Key::OutOfOrder)?;
    Ok(Some(Redirection {
        to,
        systematic,
        busy,
        out_of_order,
    }))
}

fn all_have_only(tables: &[&Table], listed: &[Key]) -> bool
    ensures { result ≡ list_all (λ table. has_only listed.now (table_view table.now)) tables.now }
{
    tables.iter().all(|table| has_only(table, listed))
}

#[tactic(auto, using(crate::proofs::EachLemmas::list_all_shown))]
fn are_listed(table: &Table, lines: &[&Table], groups: &[&Table], redirect: Option<&Table>) -> bool
    ensures { result ≡ are_listed (table_view table.now) (map (λ inner. table_view inner.now) lines.now) (map (λ inner. table_view inner.now) groups.now) (option_map (λ inner. table_view inner.now) redirect.entry) }
{
    let own = has_only(table, &STATION_KEYS);
    let lines = all_have_only(lines, &LINE_KEYS);
    let groups = all_have_only(groups, &GROUP_KEYS);
    let redirect = redirect.is_none_or(|redirect| has_only(redirect, &REDIRECT_KEYS));
    own && lines && groups && redirect
}

#[tactic(auto, unfolding(crate::specs::SubscriptionFile::entry_of))]
fn entry(alloc: Global, table: &Table) -> Result<StationEntry, SubscriptionFault>
    ensures ok { IfOk result (λ entry. entry_of (table_view table.now) ≡ Ok entry) }
    ensures refused { IfErr result (λ fault. fault ≢ OutOfMemory → entry_of (table_view table.now) ≡ Err fault) }
    ensures kept { IfOk result IsStationEntry }
{
    let address = address_of(table, Key::Address)?;
    let line_tables = some_tables_at(alloc, table, Key::Line)?;
    let facilities = facilities(table)?;
    let preferential = preferential_of(table)?;
    let default_caller = flag(table, Key::DefaultCaller)?;
    let group_tables = tables_at(alloc, table, Key::Group)?;
    let redirect_table = optional_table(table, Key::Redirect)?;
    let lines = lines(alloc, &line_tables)?;
    let groups = groups(alloc, &group_tables)?;
    let redirect = redirection(redirect_table)?;
    if !are_listed(table, &line_tables, &group_tables, redirect_table) {
        return Err(SubscriptionFault::Field(Key::Other));
    }
    Ok(StationEntry {
        address,
        facilities,
        preferential,
        default_caller,
        lines,
        groups,
        redirect,
    })
}

fn entries(alloc: Global, tables: &[&Table]) -> Result<Vec<StationEntry>, SubscriptionFault>
    ensures ok { IfOk result (λ entries. each entry_of (map (λ table. table_view table.now) tables.now) ≡ Ok entries.items) }
    ensures refused { IfErr result (λ fault. fault ≢ OutOfMemory → each entry_of (map (λ table. table_view table.now) tables.now) ≡ Err fault) }
    ensures count { IfOk result (λ entries. length entries.items ≡ length tables.now) }
    ensures kept { IfOk result (λ entries. All IsStationEntry entries.items) }
{
    let mut entries = Vec::new(alloc);
    for table in tables {
        entries.push(entry(alloc, table)?)?;
    }
    Ok(entries)
}

#[tactic(auto, unfolding(crate::specs::SubscriptionFile::file_of))]
fn read_table(alloc: Global, table: &Table) -> Result<SubscriptionFile, SubscriptionFault>
    ensures ok { IfOk result (λ file. file_of (table_view table.now) ≡ Ok file) }
    ensures refused { IfErr result (λ fault. fault ≢ OutOfMemory → file_of (table_view table.now) ≡ Err fault) }
    ensures some { IfOk result (λ file. 0 < length file.stations) }
    ensures each { IfOk result (λ file. All IsStationEntry file.stations) }
    ensures limits { IfOk result (λ file. AreLimits file.segment_limit file.journal) }
    ensures port { IfOk result (λ file. IsPort file.xot_port) }
{
    let segment_limit = limit(
        table,
        Key::SegmentLimit,
        1,
        MAX_SEGMENT_LIMIT,
        MAX_SEGMENT_LIMIT,
    )?;
    let journal = journal(table)?;
    let host = host(alloc, table)?;
    let xot_port = xot_port(table)?;
    let name = exchange_name(table)?;
    let spare_lines = reserved(table, Key::SpareLines)?;
    let spare_lines_128 = reserved(table, Key::SpareLines128)?;
    let tables = some_tables_at(alloc, table, Key::Station)?;
    if !has_only(table, &TOP_KEYS) {
        return Err(SubscriptionFault::Field(Key::Other));
    }
    let stations = entries(alloc, &tables)?;
    Ok(SubscriptionFile {
        segment_limit,
        journal,
        host,
        xot_port,
        name,
        spare_lines,
        spare_lines_128,
        stations,
    })
}

fn limit(
    table: &Table,
    key: Key,
    low: u32,
    high: u32,
    absent: u32,
) -> Result<u32, SubscriptionFault>
    ensures { result ≡ defaulted (number_in low high) absent key (table_view table.now) }
{
    match value_at(table, key) {
        Some(value) => number(value, low, high).ok_or(SubscriptionFault::Field(key)),
        None => Ok(absent),
    }
}

fn journal(table: &Table) -> Result<u64, SubscriptionFault>
    ensures { result ≡ defaulted (number_in 4 10000000) no_journal_limit keys.Journal (table_view table.now) }
{
    match value_at(table, Key::Journal) {
        Some(value) => match number(value, MIN_JOURNAL, MAX_JOURNAL) {
            Some(limit) => Ok(limit.into()),
            None => Err(SubscriptionFault::Field(Key::Journal)),
        },
        None => Ok(NO_JOURNAL_LIMIT),
    }
}

fn xot_port(table: &Table) -> Result<u16, SubscriptionFault>
    ensures { result ≡ defaulted (number_in 1 65535) registered_port keys.XotPort (table_view table.now) }
{
    match value_at(table, Key::XotPort) {
        Some(value) => port(value).ok_or(SubscriptionFault::Field(Key::XotPort)),
        None => Ok(REGISTERED_PORT),
    }
}

fn exchange_name(table: &Table) -> Result<Option<Name>, SubscriptionFault>
    ensures { result ≡ optional group_name_in keys.Name (table_view table.now) }
{
    let Some(value) = value_at(table, Key::Name) else {
        return Ok(None);
    };
    match group_name(value) {
        Some(name) => Ok(Some(name)),
        None => Err(SubscriptionFault::Field(Key::Name)),
    }
}

fn reserved(table: &Table, key: Key) -> Result<u16, SubscriptionFault>
    ensures { result ≡ defaulted (number_in 0 4096) 0 key (table_view table.now) }
{
    match value_at(table, key) {
        Some(value) => short(value, 0, MAX_SPARE_LINES).ok_or(SubscriptionFault::Field(key)),
        None => Ok(0),
    }
}

fn host(alloc: Global, table: &Table) -> Result<String, SubscriptionFault>
    ensures ok { IfOk result (λ host. defaulted as_str (codes "127.0.0.1") keys.Host (table_view table.now) ≡ Ok (string_bytes host)) }
    ensures refused { IfErr result (λ fault. fault ≢ OutOfMemory → defaulted as_str (codes "127.0.0.1") keys.Host (table_view table.now) ≡ Err fault) }
{
    let text = match value_at(table, Key::Host) {
        Some(value) => value.as_str().ok_or(SubscriptionFault::Field(Key::Host))?,
        None => DEFAULT_HOST,
    };
    Ok(String::from_str(alloc, text)?)
}

impl SubscriptionFile {
    /// Reads the text of a subscription file and the value of each of its keys.
    ///
    /// # Errors
    ///
    /// - `Toml` if the text is not TOML.
    /// - `Field` with the first key whose value is missing, of another type, misspelt or out of range, or that the
    ///   file may not have.
    /// - `Memory` if an allocation fails.
    pub fn read(alloc: Global, text: &str) -> Result<SubscriptionFile, SubscriptionFault>
        ensures ok { IfOk result (λ file. file_in text.now ≡ Ok file) }
        ensures refused { IfErr result (λ fault. fault ≢ OutOfMemory → file_in text.now ≡ Err fault) }
        ensures some { IfOk result (λ file. 0 < length file.stations) }
        ensures each { IfOk result (λ file. All IsStationEntry file.stations) }
        ensures limits { IfOk result (λ file. AreLimits file.segment_limit file.journal) }
        ensures port { IfOk result (λ file. IsPort file.xot_port) }
    {
        match toml::table_from_str(alloc, text) {
            Ok(table) => read_table(alloc, &table),
            Err(error) if error.is_memory() => Err(SubscriptionFault::Memory),
            Err(_) => Err(SubscriptionFault::Toml),
        }
    }
}
